// The answers to questions. Where a name is missing, the look-up says so and the function leaves with the refusal.
// A caller has tables that hold a graph; the words of the question may be any.
#![tactic(auto)]

ghost use Rattle.std.specs.Prelude.{◌≡◌, List, ℕ, ◌<◌, ◌/◌, true};
ghost use Rattle.graph.specs.Graph.{Graph};
ghost use Rattle.type_rows.specs.Rows.{good_rows};
ghost use Rattle.type_rows.specs.Closure.{closure_words};
ghost use Rattle.graph.specs.WellFormed.{Bounds};
ghost use Rattle.graph_tables.specs.Capacities.{Sized};
ghost use Rattle.graph_tables.specs.Tables.{view_state, lookup_vertex, lookup_edge};
ghost use Rattle.graph_tables.specs.Holds.{Holds};
ghost use Rattle.commands.specs.declared.Question.TheVariants as ask;
ghost use Rattle.commands.specs.declared.refusal.Refusal.TheVariants as refusal;
ghost use Rattle.commands.specs.Answers.{answer_of};
ghost use Rattle.commands.specs.Refusals.{answer_by};
ghost use Rattle.machine.specs.Codes.{question_code};
ghost use Rattle.machine.specs.Machine.{question_number};
ghost use Rattle.question_calls.specs.Words.{row_or, vertex_word, edge_word, half_word, that_word};

use commands::refusal::Refusal;
use commands::{Answer, Question};
use graph_tables::fields::{
    EDGE_ALPHA, EDGE_DECIMETRES, EDGE_KIND, EDGE_NEXT, EDGE_OMEGA, EDGE_TYPE, HALF_NEXT, HALF_THIS,
    VERTEX_FIRST, VERTEX_NEXT, VERTEX_TYPE, VERTEX_VALUE,
};
use graph_tables::lookups::{find_edge, find_vertex, find_word};
use graph_tables::rows::half_field;
use graph_tables::{Head, Lookup, TablesView};
use type_rows::is_below;
use walks::Side;
use walks::counting::degree;
use walks::orders::{edge_before, vertex_before, word_before};

// What asks for vertices and what asks for edges stay apart: table, refusal and words of a row differ, in functions of two
// and three lines, so that one over a trait is no plainer.

// Where the row of vertex a starts.
#[inline(always)]
fn vertex_row(tables: &TablesView<'_>, a: u32) -> Result<usize, Refusal>
    ensures { result ≡ row_or refusal.NoVertex (lookup_vertex tables.now.vertices.now a) }
{
    let Lookup::Found(at) = find_vertex(tables.vertices, a) else {
        return Err(Refusal::NoVertex);
    };
    Ok(at)
}

// Where the row of edge a starts.
#[inline(always)]
fn edge_row(tables: &TablesView<'_>, a: u32) -> Result<usize, Refusal>
    ensures { result ≡ row_or refusal.NoEdge (lookup_edge tables.now.edges.now a) }
{
    let Lookup::Found(at) = find_edge(tables.edges, a) else {
        return Err(Refusal::NoEdge);
    };
    Ok(at)
}

// Where the row of the edge of word w starts.
#[inline(always)]
fn word_row(tables: &TablesView<'_>, w: u32) -> Result<usize, Refusal>
    ensures { result ≡ row_or refusal.NoEdge (lookup_edge tables.now.edges.now (w / 2)) }
{
    let Lookup::Found(at) = find_word(tables.edges, w) else {
        return Err(Refusal::NoEdge);
    };
    Ok(at)
}

// A word of the row of vertex a.
#[inline(always)]
fn vertex_word(tables: &TablesView<'_>, a: u32, field: usize) -> Result<u32, Refusal>
    requires { field < 8 }
    ensures { answer_by result ≡ vertex_word tables.now.vertices.now a field }
{
    let at = vertex_row(tables, a)?;
    Ok(tables.vertices[at + field])
}

// A word of the row of edge a.
#[inline(always)]
fn edge_word(tables: &TablesView<'_>, a: u32, field: usize) -> Result<u32, Refusal>
    requires { field < 12 }
    ensures { answer_by result ≡ edge_word tables.now.edges.now a field }
{
    let at = edge_row(tables, a)?;
    Ok(tables.edges[at + field])
}

// A word of the half of oriented word w.
#[inline(always)]
fn half_word(tables: &TablesView<'_>, w: u32, field: usize) -> Result<u32, Refusal>
    requires { field < 6 }
    ensures { answer_by result ≡ half_word tables.now.edges.now w field }
{
    edge_word(tables, w / 2, 6 * (w % 2) as usize + field)
}

// The vertex that the other half is seen from.
#[inline(always)]
fn that_word(tables: &TablesView<'_>, w: u32) -> Result<u32, Refusal>
    ensures { answer_by result ≡ that_word tables.now.edges.now w }
{
    edge_word(tables, w / 2, EDGE_OMEGA - 6 * (w % 2) as usize)
}

// Kind 46.
#[inline(always)]
fn order_of_vertices(head: Head, tables: &TablesView<'_>, a: u32, b: u32) -> Result<u32, Refusal>
    requires { (g : Graph) × Holds (view_state head tables.now) g }
    ensures { (g : Graph) → (n : ℕ) → (rows : List ℕ) → Holds (view_state head tables.now) g
        → answer_by result ≡ answer_of (question_code n g (ask.VertexOrder a b)) (question_number rows g (ask.VertexOrder a b)) }
{
    vertex_row(tables, a)?;
    vertex_row(tables, b)?;
    Ok(u32::from(vertex_before(tables.vertices, head, a, b)))
}

// Kind 47.
#[inline(always)]
fn order_of_edges(head: Head, tables: &TablesView<'_>, a: u32, b: u32) -> Result<u32, Refusal>
    requires { (g : Graph) × Holds (view_state head tables.now) g }
    ensures { (g : Graph) → (n : ℕ) → (rows : List ℕ) → Holds (view_state head tables.now) g
        → answer_by result ≡ answer_of (question_code n g (ask.EdgeOrder a b)) (question_number rows g (ask.EdgeOrder a b)) }
{
    edge_row(tables, a)?;
    edge_row(tables, b)?;
    Ok(u32::from(edge_before(tables.edges, head, a, b)))
}

// Kind 48.
#[inline(always)]
fn order_of_words(tables: &TablesView<'_>, a: u32, b: u32) -> Result<u32, Refusal>
    requires { (head : Head) × (g : Graph) × Holds (view_state head tables.now) g }
    ensures { (g : Graph) → (n : ℕ) → (rows : List ℕ) → (head : Head) → Holds (view_state head tables.now) g
        → answer_by result ≡ answer_of (question_code n g (ask.WordOrder a b)) (question_number rows g (ask.WordOrder a b)) }
{
    word_row(tables, a)?;
    word_row(tables, b)?;
    if half_field(tables.edges, a, HALF_THIS) != half_field(tables.edges, b, HALF_THIS) {
        return Err(Refusal::OtherList);
    }
    Ok(u32::from(word_before(tables, a, b)))
}

// Kind 45.
#[inline(always)]
fn degree_of(
    tables: &TablesView<'_>,
    closed: &[u64; 64],
    types: u32,
    a: u32,
    t: u32,
    c: u32,
) -> Result<u32, Refusal>
    requires { (b : Bounds) × (head : Head) × (g : Graph) × Sized b (view_state head tables.now)
        × Holds (view_state head tables.now) g }
    ensures { (g : Graph) → (rows : List ℕ) → (b : Bounds) → (head : Head)
        → Sized b (view_state head tables.now) → Holds (view_state head tables.now) g → good_rows rows ≡ true
        → closed.now ≡ closure_words rows
        → answer_by result ≡ answer_of (question_code types g (ask.Degree a t c)) (question_number rows g (ask.Degree a t c)) }
{
    vertex_row(tables, a)?;
    if types <= t {
        return Err(Refusal::NoType);
    }
    if Side::try_from(c).is_err() {
        return Err(Refusal::NoSide);
    }
    Ok(degree(closed, tables, a, t, c))
}

// Kind 52.
#[inline(always)]
fn below_of(closed: &[u64; 64], types: u32, s: u32, t: u32) -> Result<u32, Refusal>
    ensures { (g : Graph) → (rows : List ℕ) → good_rows rows ≡ true → closed.now ≡ closure_words rows
        → answer_by result ≡ answer_of (question_code types g (ask.Below s t)) (question_number rows g (ask.Below s t)) }
{
    if types <= s || types <= t {
        return Err(Refusal::NoType);
    }
    Ok(u32::from(is_below(closed, s, t)))
}

// The number that a question asks for.
#[inline(always)]
fn number_of(
    head: Head,
    tables: &TablesView<'_>,
    closed: &[u64; 64],
    types: u32,
    question: Question,
) -> Result<u32, Refusal>
    requires sized { (b : Bounds) × (g : Graph) × Sized b (view_state head tables.now)
        × Holds (view_state head tables.now) g }
    ensures { (g : Graph) → (rows : List ℕ) → (b : Bounds) → Sized b (view_state head tables.now)
        → Holds (view_state head tables.now) g → good_rows rows ≡ true → closed.now ≡ closure_words rows
        → answer_by result ≡ answer_of (question_code types g question) (question_number rows g question) }
{
    match question {
        Question::FirstVertex => Ok(head.vfirst),
        Question::NextVertex(a) => vertex_word(tables, a, VERTEX_NEXT),
        Question::FirstEdge => Ok(head.efirst),
        Question::NextEdge(a) => edge_word(tables, a, EDGE_NEXT),
        Question::FirstWord(a) => vertex_word(tables, a, VERTEX_FIRST),
        Question::NextWord(a) => half_word(tables, a, HALF_NEXT),
        Question::Alpha(a) => edge_word(tables, a, EDGE_ALPHA),
        Question::Omega(a) => edge_word(tables, a, EDGE_OMEGA),
        Question::This(a) => half_word(tables, a, HALF_THIS),
        Question::That(a) => that_word(tables, a),
        Question::VertexType(a) => vertex_word(tables, a, VERTEX_TYPE),
        Question::EdgeType(a) => edge_word(tables, a, EDGE_TYPE),
        Question::Value(a) => vertex_word(tables, a, VERTEX_VALUE),
        Question::ReadingKind(a) => edge_word(tables, a, EDGE_KIND),
        Question::Decimetres(a) => edge_word(tables, a, EDGE_DECIMETRES),
        Question::Degree(a, t, c) => degree_of(tables, closed, types, a, t, c),
        Question::VertexOrder(a, b) => order_of_vertices(head, tables, a, b),
        Question::EdgeOrder(a, b) => order_of_edges(head, tables, a, b),
        Question::WordOrder(a, b) => order_of_words(tables, a, b),
        Question::Below(s, t) => below_of(closed, types, s, t),
    }
}

/// The answer to a question; `types` is their number, `closed` the closure of some rows.
pub fn reply(
    head: Head,
    tables: &TablesView<'_>,
    closed: &[u64; 64],
    types: u32,
    question: Question,
) -> Answer
    requires sized { (b : Bounds) × (g : Graph) × Sized b (view_state head tables.now)
        × Holds (view_state head tables.now) g }
    requires by_index { (rows : List ℕ) × (good_rows rows ≡ true) × (closed.now ≡ closure_words rows) }
    ensures { (g : Graph) → (rows : List ℕ) → (b : Bounds) → Sized b (view_state head tables.now)
        → Holds (view_state head tables.now) g → good_rows rows ≡ true → closed.now ≡ closure_words rows
        → result ≡ answer_of (question_code types g question) (question_number rows g question) }
{
    Answer::from(number_of(head, tables, closed, types, question))
}
