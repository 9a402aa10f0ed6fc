// Distinct edges at a vertex, and its degree: walks along its list by a cursor.
// A caller has tables that hold a graph, and names that are in it.
ghost use Rattle.std.specs.Prelude.{◌≡◌, ◌/◌, ◌%◌, true, List, ℕ};
ghost use Rattle.lists.specs.Choice.{to_bit};
ghost use Rattle.graph_tables.specs.Tables.{EdgeRowIn};
ghost use Rattle.walks.specs.Walks.{CanWalk, counted_at, distinct_edges_at};
ghost use Rattle.walks.specs.Walks.{degree_one, degree_at, side_number};
ghost use Rattle.type_rows.specs.Types.{below};
ghost use Rattle.type_rows.specs.Rows.{good_rows};
ghost use Rattle.type_rows.specs.Closure.{closure_words, bit_of};

use crate::Side;
use crate::cursor::Cursor;
use graph_tables::TablesView;
use graph_tables::fields::{EDGE_TYPE, HALF_THIS};
use graph_tables::rows::{edge_field, half_field};

// Is w the word at which its edge is counted: the out word of a loop, either word of another edge.
#[inline(always)]
fn is_counted(tables: &TablesView<'_>, w: u32) -> bool
    requires { EdgeRowIn tables.now.edges.now (w / 2) }
    ensures { to_bit result ≡ counted_at tables.now.edges.now w }
{
    w % 2 == 0
        || half_field(tables.edges, w - 1, HALF_THIS) != half_field(tables.edges, w, HALF_THIS)
}

// Two walks count, by another test each: one over a closure is no plainer, since its clause would say of every word that
// it has its edge's row, and add the test's own.

/// How many distinct edges are at vertex v: a walk along its list.
pub fn count_edges(tables: &TablesView<'_>, v: u32) -> u32
    requires { CanWalk tables.now.vertices.now tables.now.edges.now v }
    ensures { result ≡ distinct_edges_at tables.now.vertices.now tables.now.edges.now v }
{
    let mut n = 0;
    let mut cursor = Cursor::first(tables, v);
    while cursor.word != 0 {
        n += u32::from(is_counted(tables, cursor.word));
        cursor.step();
    }
    n
}

// 1 where word w is on the side and its edge is in class t by the words, else 0. A class is below 64, which is tested once,
// before the walk; so it is asked for modulo 64, which costs nothing. The type is read of words on the side alone, and the
// bit is the number that is added: as a `bool` it costs a branch more (tried, misses the bar of speed).
#[inline(always)]
fn in_degree(words: &[u64; 64], tables: &TablesView<'_>, w: u32, t: u32, side: Side) -> u32
    requires { EdgeRowIn tables.now.edges.now (w / 2) }
    ensures { result ≡ degree_one (λ s. bit_of words.now s (t % 64)) (side_number side) tables.now.edges.now w }
{
    if !side.has(w) {
        return 0;
    }
    let sort = edge_field(tables.edges, w / 2, EDGE_TYPE);
    if 64 <= sort {
        return 0;
    }
    ((words[sort as usize] >> (t % 64)) % 2) as u32
}

// The degree on a side, of a class modulo 64: a cursor goes along the list, from its first word on.
fn degree_from(words: &[u64; 64], tables: &TablesView<'_>, v: u32, t: u32, side: Side) -> u32
    requires { CanWalk tables.now.vertices.now tables.now.edges.now v }
    ensures { result ≡ degree_at (λ s. bit_of words.now s (t % 64)) (side_number side)
        tables.now.vertices.now tables.now.edges.now v }
{
    let mut n = 0;
    let mut cursor = Cursor::first(tables, v);
    while cursor.word != 0 {
        n += in_degree(words, tables, cursor.word, t, side);
        cursor.step();
    }
    n
}

/// The degree of vertex v in class t on the side c, 0 where no side has that number: a walk along its list. Type s is in
/// class t where bit t of word s is set; so it is where s is below t, if the words are a closure. c stays a number, which
/// may not change: TRACE 5.4 names this, and any number may be asked for.
pub fn degree(words: &[u64; 64], tables: &TablesView<'_>, v: u32, t: u32, c: u32) -> u32
    requires { CanWalk tables.now.vertices.now tables.now.edges.now v }
    ensures value { result ≡ degree_at (λ s. bit_of words.now s t) c tables.now.vertices.now tables.now.edges.now v }
    ensures by_index { (rows : List ℕ) → good_rows rows ≡ true → words.now ≡ closure_words rows
        → result ≡ degree_at (λ s. below rows s t) c tables.now.vertices.now tables.now.edges.now v }
{
    if 63 < t {
        return 0;
    }
    let Ok(side) = Side::try_from(c) else {
        return 0;
    };
    degree_from(words, tables, v, t, side)
}
