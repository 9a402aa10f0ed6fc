// Every store before the first call.
ghost use Rattle.stores.specs.Opening.{CanOpen, Opened};

use crate::starts::first_length;
use engine::begin::begin;
use graph_tables::Head;
use history_calls::Store;
use store_calls::serving::MOST_STORES;

/// Loads the start images in turn, each into its parts of v and e words. What the parts hold besides, and the stores
/// that are not there, are left open; the words behind the parts stay.
pub fn open_all(
    start: &[u32],
    vertices: &mut [u32],
    edges: &mut [u32],
    stores: usize,
    v: usize,
    e: usize,
) -> [Store; MOST_STORES]
    requires { CanOpen start.now vertices.old edges.old stores v e }
    ensures { Opened start.now result vertices.old vertices.new edges.old
        edges.new stores v e }
{
    let empty = Store::start(Head::default());
    let mut all = [empty; MOST_STORES];
    let mut at = 0;
    for i in 0..stores {
        let n = first_length(&start[at..]);
        all[i] = begin(
            &start[at..at + n],
            &mut vertices[i * v..i * v + v],
            &mut edges[i * e..i * e + e],
        );
        at += n;
    }
    all
}
