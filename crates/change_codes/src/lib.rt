// Codes 2 to 9 of a change, read off the tables: the lowest that applies is why it is refused. Kind 2 has its code 4 in
// vertex_deletion. Each contract says the code of any words, and then that it is the code of the graph that they hold.
// What asks for vertices and what asks for edges stay apart: they differ in look-up, refusal and what a graph says of
// them, and one function over a trait of these would be no shorter than two of two lines.
#![tactic(auto)]

ghost use Rattle.std.specs.Prelude.{◌≡◌, not, ◌||◌, ◌/◌, leb, length, ◌==◌};
ghost use Rattle.lists.specs.Choice.{◌⇒◌else◌, within};
ghost use Rattle.graph.specs.Graph.{Graph, has_vertex, has_edge, edge_of, is_reading};
ghost use Rattle.graph.specs.Graph as chart;
ghost use Rattle.graph_tables.specs.Tables.{lookup_vertex, lookup_edge, vertex_code, edge_code};
ghost use Rattle.machine.specs.Codes.{lacks_vertex, lacks_edge};
ghost use Rattle.machine.specs.Rules.{first_code};
ghost use Rattle.commands.specs.Refusals.{refusal_code, code_if_refused};
ghost use Rattle.graph_tables.specs.Holds.{HoldsV, HoldsE, HoldsVE};
ghost use Rattle.change_codes.specs.Refusals.{number_code, used_code, type_code, reading_code, twice_code};
ghost use Rattle.change_codes.specs.Refusals.{vertices_code, edges_code, words_code};

use commands::refusal::Refusal;
use graph_tables::fields::{EDGE_WORDS, HALF_THIS, VERTEX_WORDS};
use graph_tables::lookups::{find_edge, find_vertex, find_word};
use graph_tables::rows::half_field;
use graph_tables::{Lookup, TablesView};

// Refused with this, where it applies.
#[inline(always)]
fn refuse_if(applies: bool, refusal: Refusal) -> Result<(), Refusal>
    ensures { code_if_refused result ≡ (applies ⇒ refusal_code refusal else 0) }
{
    if applies { Err(refusal) } else { Ok(()) }
}

/// Code 4: a vertex that is named; kind 7 has no other.
#[inline(always)]
pub fn check_vertex(vertices: &[u32], v: u32) -> Result<(), Refusal>
    ensures value { code_if_refused result ≡ vertex_code (lookup_vertex vertices.now v) }
    ensures of_graph { (g : Graph) → HoldsV vertices.now g
        → code_if_refused result ≡ (lacks_vertex g v ⇒ 4 else 0) }
{
    let Lookup::Found(_) = find_vertex(vertices, v) else {
        return Err(Refusal::NoVertex);
    };
    Ok(())
}

/// Code 5: an edge that is named; kind 4 has no other.
#[inline(always)]
pub fn check_edge(edges: &[u32], e: u32) -> Result<(), Refusal>
    ensures value { code_if_refused result ≡ edge_code (lookup_edge edges.now e) }
    ensures of_graph { (g : Graph) → HoldsE edges.now g
        → code_if_refused result ≡ (lacks_edge g e ⇒ 5 else 0) }
{
    let Lookup::Found(_) = find_edge(edges, e) else {
        return Err(Refusal::NoEdge);
    };
    Ok(())
}

// Code 4: two vertices that are named.
#[inline(always)]
fn check_vertices(vertices: &[u32], x: u32, y: u32) -> Result<(), Refusal>
    ensures { code_if_refused result ≡ vertices_code vertices.now x y }
{
    check_vertex(vertices, x)?;
    check_vertex(vertices, y)
}

// Code 5: two edges that are named.
#[inline(always)]
fn check_edges(edges: &[u32], x: u32, y: u32) -> Result<(), Refusal>
    ensures { code_if_refused result ≡ edges_code edges.now x y }
{
    check_edge(edges, x)?;
    check_edge(edges, y)
}

// Code 5: an oriented word that is named, whose edge has to be there.
#[inline(always)]
fn check_word(edges: &[u32], w: u32) -> Result<(), Refusal>
    ensures { code_if_refused result ≡ edge_code (lookup_edge edges.now (w / 2)) }
{
    refuse_if(
        matches!(find_word(edges, w), Lookup::Missing),
        Refusal::NoEdge,
    )
}

// Code 5: two words that are named.
#[inline(always)]
fn check_words(edges: &[u32], x: u32, y: u32) -> Result<(), Refusal>
    ensures { code_if_refused result ≡ edges_code edges.now (x / 2) (y / 2) }
{
    check_word(edges, x)?;
    check_word(edges, y)
}

// Code 6: a type that is named.
#[inline(always)]
fn check_type(types: u32, t: u32) -> Result<(), Refusal>
    ensures { code_if_refused result ≡ type_code types t }
{
    refuse_if(types <= t, Refusal::NoType)
}

// Code 2: a number that is made, of a capacity.
#[inline(always)]
fn check_number(capacity: usize, n: u32) -> Result<(), Refusal>
    ensures { code_if_refused result ≡ number_code capacity n }
{
    refuse_if(n == 0 || capacity < n as usize, Refusal::NumberOutside)
}

// Code 7: kind and decimetres of a reading, as the words of the call, which may be any.
#[inline(always)]
fn check_reading(k: u32, d: u32) -> Result<(), Refusal>
    ensures { code_if_refused result ≡ reading_code k d }
{
    refuse_if(
        !matches!((k, d), (0 | 1, 0) | (2, 0..=9999)),
        Refusal::NoReading,
    )
}

// Code 9: the same twice.
#[inline(always)]
fn check_distinct(a: u32, b: u32) -> Result<(), Refusal>
    ensures { code_if_refused result ≡ twice_code a b }
{
    refuse_if(a == b, Refusal::SameTwice)
}

/// Kind 1: codes 2, 3, 6.
#[inline(always)]
pub fn create_vertex(vertices: &[u32], types: u32, n: u32, t: u32) -> Result<(), Refusal>
    ensures value { code_if_refused result
        ≡ first_code (number_code (length vertices.now / 8) n)
        (first_code (used_code (lookup_vertex vertices.now n)) (type_code types t)) }
    ensures of_graph { (g : Graph) → HoldsV vertices.now g → code_if_refused result
        ≡ (not (within 1 (length vertices.now / 8) n) ⇒ 2 else has_vertex g n ⇒ 3 else
        leb types t ⇒ 6 else 0) }
{
    check_number(vertices.len() / VERTEX_WORDS, n)?;
    let Lookup::Missing = find_vertex(vertices, n) else {
        return Err(Refusal::NumberInUse);
    };
    check_type(types, t)
}

/// Kind 3: codes 2, 3, 4, 6.
#[inline(always)]
pub fn create_edge(
    tables: &TablesView<'_>,
    types: u32,
    n: u32,
    x: u32,
    y: u32,
    t: u32,
) -> Result<(), Refusal>
    ensures value { code_if_refused result
        ≡ first_code (number_code (length tables.now.edges.now / 12) n)
        (first_code (used_code (lookup_edge tables.now.edges.now n))
        (first_code (vertices_code tables.now.vertices.now x y) (type_code types t))) }
    ensures of_graph { (g : Graph) → HoldsVE tables.now.vertices.now tables.now.edges.now g
        → code_if_refused result
        ≡ (not (within 1 (length tables.now.edges.now / 12) n) ⇒ 2 else has_edge g n ⇒ 3 else
        (lacks_vertex g x || lacks_vertex g y) ⇒ 4 else leb types t ⇒ 6 else 0) }
{
    check_number(tables.edges.len() / EDGE_WORDS, n)?;
    let Lookup::Missing = find_edge(tables.edges, n) else {
        return Err(Refusal::NumberInUse);
    };
    check_vertices(tables.vertices, x, y)?;
    check_type(types, t)
}

/// Kind 5: codes 4, 6.
#[inline(always)]
#[tactic(auto, using(crate::proofs::Meanings::vertex_then))]
pub fn retype_vertex(vertices: &[u32], types: u32, n: u32, t: u32) -> Result<(), Refusal>
    ensures value { code_if_refused result
        ≡ first_code (vertex_code (lookup_vertex vertices.now n)) (type_code types t) }
    ensures of_graph { (g : Graph) → HoldsV vertices.now g
        → code_if_refused result ≡ (lacks_vertex g n ⇒ 4 else leb types t ⇒ 6 else 0) }
{
    check_vertex(vertices, n)?;
    check_type(types, t)
}

/// Kind 6: codes 5, 6.
#[inline(always)]
#[tactic(auto, using(crate::proofs::Meanings::edge_then))]
pub fn retype_edge(edges: &[u32], types: u32, n: u32, t: u32) -> Result<(), Refusal>
    ensures value { code_if_refused result
        ≡ first_code (edge_code (lookup_edge edges.now n)) (type_code types t) }
    ensures of_graph { (g : Graph) → HoldsE edges.now g
        → code_if_refused result ≡ (lacks_edge g n ⇒ 5 else leb types t ⇒ 6 else 0) }
{
    check_edge(edges, n)?;
    check_type(types, t)
}

/// Kind 8: codes 5, 7.
#[inline(always)]
#[tactic(auto, using(crate::proofs::Meanings::edge_then))]
pub fn set_reading(edges: &[u32], n: u32, k: u32, d: u32) -> Result<(), Refusal>
    ensures value { code_if_refused result
        ≡ first_code (edge_code (lookup_edge edges.now n)) (reading_code k d) }
    ensures of_graph { (g : Graph) → HoldsE edges.now g
        → code_if_refused result ≡ (lacks_edge g n ⇒ 5 else not (is_reading k d) ⇒ 7 else 0) }
{
    check_edge(edges, n)?;
    check_reading(k, d)
}

/// Kinds 9 and 10: codes 4, 5.
#[inline(always)]
#[tactic(auto, using(crate::proofs::Meanings::set_end_means))]
pub fn set_end(tables: &TablesView<'_>, n: u32, v: u32) -> Result<(), Refusal>
    ensures value { code_if_refused result
        ≡ first_code (vertex_code (lookup_vertex tables.now.vertices.now v))
        (edge_code (lookup_edge tables.now.edges.now n)) }
    ensures of_graph { (g : Graph) → HoldsVE tables.now.vertices.now tables.now.edges.now g
        → code_if_refused result ≡ (lacks_vertex g v ⇒ 4 else lacks_edge g n ⇒ 5 else 0) }
{
    check_vertex(tables.vertices, v)?;
    check_edge(tables.edges, n)
}

/// Kinds 11 and 12: codes 4, 9.
#[inline(always)]
pub fn order_vertices(vertices: &[u32], x: u32, y: u32) -> Result<(), Refusal>
    ensures value { code_if_refused result
        ≡ first_code (vertices_code vertices.now x y) (twice_code x y) }
    ensures of_graph { (g : Graph) → HoldsV vertices.now g → code_if_refused result
        ≡ ((lacks_vertex g x || lacks_vertex g y) ⇒ 4 else (x == y) ⇒ 9 else 0) }
{
    check_vertices(vertices, x, y)?;
    check_distinct(x, y)
}

/// Kinds 13 and 14: codes 5, 9.
#[inline(always)]
pub fn order_edges(edges: &[u32], x: u32, y: u32) -> Result<(), Refusal>
    ensures value { code_if_refused result
        ≡ first_code (edges_code edges.now x y) (twice_code x y) }
    ensures of_graph { (g : Graph) → HoldsE edges.now g → code_if_refused result
        ≡ ((lacks_edge g x || lacks_edge g y) ⇒ 5 else (x == y) ⇒ 9 else 0) }
{
    check_edges(edges, x, y)?;
    check_distinct(x, y)
}

/// Kinds 15 and 16: codes 5, 8, 9.
#[inline(always)]
pub fn order_words(edges: &[u32], x: u32, y: u32) -> Result<(), Refusal>
    ensures value { code_if_refused result
        ≡ first_code (words_code edges.now x y) (twice_code x y) }
    ensures of_graph { (g : Graph) → HoldsE edges.now g → code_if_refused result
        ≡ ((lacks_edge g (edge_of x) || lacks_edge g (edge_of y)) ⇒ 5 else
        not (chart.this g x == chart.this g y) ⇒ 8 else (x == y) ⇒ 9 else 0) }
{
    check_words(edges, x, y)?;
    refuse_if(
        half_field(edges, x, HALF_THIS) != half_field(edges, y, HALF_THIS),
        Refusal::OtherList,
    )?;
    check_distinct(x, y)
}
