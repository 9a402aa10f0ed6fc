// Any order wanted of an image's vertices, of its edges or of one vertex's list, as a list of calls.
#![tactic(auto)]

ghost use Rattle.std.specs.Prelude.{◌≡◌, [], ◌∷◌, ◌+◌, ◌*◌, ◌-◌, ◌≤◌, ◌<◌, ◌^◌, ℕ, length, get_or, set};
ghost use Rattle.std.proofs.lemmas.List.Edits.{sets};
ghost use Rattle.lists.specs.Lists.{member};
ghost use Rattle.graph.specs.WellFormed.{words_at};
ghost use Rattle.image.specs.Image.{numbers_in, edges_from};
ghost use Rattle.arrangement.specs.Orders.{call_words, outcome, vertex_order, edge_order, word_order};
ghost use Rattle.arrangement.specs.Orders.{kind_number, not_arranged_code, told};
ghost use Rattle.arrangement.specs.declared.NotArranged.TheVariants.{Image};
ghost use Rattle.arrangement.specs.Scratch.{marked, seen_from, taken, settled};

use graph::MOST_EDGES;
use image::by_name::Part;
use image::layout::{EDGE, record_size};
use image_check::{BadImage, check_saved};
use lists::get;
use lists::words::put;

/// Why there are no calls for an order.
#[derive(Clone, Copy, Debug, PartialEq, Eq)]
pub enum NotArranged {
    /// The words do not load.
    Image(BadImage),
    /// There is no vertex of that number.
    NoVertex,
    /// Those wanted are not the items, each once.
    OtherItems,
    /// The list is too short for the calls.
    Short,
}

impl NotArranged {
    /// The code of the words that do not load, or 4, 111, 112.
    pub fn code(self) -> u32
        ensures { result ≡ not_arranged_code self }
    {
        match self {
            NotArranged::Image(bad) => bad.code(),
            NotArranged::NoVertex => 4,
            NotArranged::OtherItems => 111,
            NotArranged::Short => 112,
        }
    }
}

impl From<BadImage> for NotArranged {
    ghost from_gives = { λ cause not. not ≡ Image cause };

    fn from(cause: BadImage) -> NotArranged {
        NotArranged::Image(cause)
    }
}

/// What C is told: a code, and how many calls were written; with a code none.
#[repr(C)]
#[derive(Clone, Copy, Debug, PartialEq, Eq)]
pub struct Arrangement {
    pub code: u32,
    pub calls: usize,
}

impl From<Result<usize, NotArranged>> for Arrangement {
    ghost from_gives = { λ came answer. answer ≡ told came };

    fn from(came: Result<usize, NotArranged>) -> Arrangement {
        match came {
            Ok(calls) => Arrangement { code: 0, calls },
            Err(refusal) => Arrangement {
                code: refusal.code(),
                calls: 0,
            },
        }
    }
}

/// The calls that put an item directly behind another, by what is put.
#[derive(Clone, Copy, Debug, PartialEq, Eq)]
enum Kind {
    Vertex = 12,
    Edge = 14,
    Word = 16,
}

impl Kind {
    fn number(self) -> u32
        ensures { result ≡ kind_number self }
    {
        self as u32
    }
}

// Scratch with a byte for each number and each oriented word: the stack stays below that of a run.
const ITEMS: usize = 2 * (MOST_EDGES as usize + 1);

/// The byte at a place; past the end it is 0.
fn look(items: &[u8], i: usize) -> u8
    ensures { result ≡ get_or items.now i 0 }
{
    items.get(i).copied().unwrap_or(0)
}

// ---- the items

/// Marks the numbers of records of size words.
fn mark_numbers(part: &[u32], size: usize, items: &mut [u8])
    requires { 3 ≤ size }
    ensures { (count : ℕ) → size * count ≡ length part.now → items.new ≡ marked (numbers_in size count part.now) items.old }
{
    for record in part.chunks_exact(size) {
        put(items, record[0] as usize, 1);
    }
}

/// Marks the word of an end that is seen from the vertex; how many words that are.
fn mark_end(vertex: u32, end: u32, word: usize, items: &mut [u8]) -> usize
    ensures { (result ≡ length (seen_from vertex end word)) × (result ≤ 1)
        × (items.new ≡ marked (seen_from vertex end word) items.old) }
{
    if vertex == end {
        put(items, word, 1);
        return 1;
    }
    0
}

/// Marks the words of edge records that are seen from the vertex; how many they are.
fn mark_words(part: &[u32], vertex: u32, items: &mut [u8]) -> usize
    ensures few { result ≤ length part.now }
    ensures value { (count : ℕ) → 6 * count ≡ length part.now
        → result ≡ length (words_at (edges_from count part.now) vertex) }
    ensures marked { (count : ℕ) → 6 * count ≡ length part.now
        → items.new ≡ marked (words_at (edges_from count part.now) vertex) items.old }
{
    let mut found = 0;
    for record in part.chunks_exact(EDGE) {
        let word = 2 * record[0] as usize;
        let out = mark_end(vertex, record[1], word, items);
        let back = mark_end(vertex, record[2], word + 1, items);
        found += out + back;
    }
    found
}

/// Whether one of the records of size words has the number. A `for`: with `any` the law on one turn would stand in a
/// closure's clause, no plainer.
fn has_number(part: &[u32], size: usize, number: u32) -> bool
    requires { 3 ≤ size }
    ensures { (count : ℕ) → size * count ≡ length part.now → result ≡ member number (numbers_in size count part.now) }
{
    for record in part.chunks_exact(size) {
        if record[0] == number {
            return true;
        }
    }
    false
}

// ---- the wanted words

/// Whether each wanted word in turn is marked; it is then no more. What a turn finds depends on those before it, so `all`
/// is no plainer.
fn take_off(wanted: &[u32], items: &mut [u8]) -> bool
    ensures { result ≡ taken wanted.now items.old }
{
    for &number in wanted {
        let w = number as usize;
        if look(items, w) != 1 {
            return false;
        }
        put(items, w, 0);
    }
    true
}

/// One call: a is put directly after b.
fn write_call(list: &mut [u32], at: usize, kind: Kind, a: u32, b: u32)
    requires { at + 5 ≤ length list.old }
    ensures { list.new ≡ sets list.old at (kind_number kind ∷ a ∷ b ∷ 0 ∷ 0 ∷ []) }
{
    list[at..at + 5].copy_from_slice(&[kind.number(), a, b, 0, 0]);
}

/// A call for each wanted word but the first.
fn write_calls(kind: Kind, wanted: &[u32], list: &mut [u32])
    requires { 5 * (length wanted.now - 1) ≤ length list.old }
    ensures { list.new ≡ sets list.old 0 (call_words (kind_number kind) wanted.now) }
{
    let Some((&first, behind)) = wanted.split_first() else {
        return;
    };
    let mut before = first;
    for (k, &next) in behind.iter().enumerate() {
        write_call(list, 5 * k, kind, next, before);
        before = next;
    }
}

/// The order of so many items, which are marked: how many calls it takes.
fn settle(
    kind: Kind,
    wanted: &[u32],
    count: usize,
    items: &mut [u8],
    list: &mut [u32],
) -> Result<usize, NotArranged>
    requires { count < 2 ^ 61 }
    ensures { outcome (told result) list.new
        ≡ settled (kind_number kind) wanted.now count items.old list.old }
{
    if wanted.len() != count || !take_off(wanted, items) {
        return Err(NotArranged::OtherItems);
    }
    let calls = count.saturating_sub(1);
    if list.len() < 5 * calls {
        return Err(NotArranged::Short);
    }
    write_calls(kind, wanted, list);
    Ok(calls)
}

// ---- the three
// What is wanted and the list stay apart: each clause is one equation of the list before and after, and a struct that is
// lent both would have to promise besides that it keeps that list. Vertices and edges differ in part, size and kind alone:
// `order_numbers` is what they share, and C calls each by name.

/// Items that are the numbers of records.
fn order_numbers(
    kind: Kind,
    part: &[u32],
    size: usize,
    count: u32,
    wanted: &[u32],
    items: &mut [u8],
    list: &mut [u32],
) -> Result<usize, NotArranged>
    requires size { 3 ≤ size }
    requires whole { size * count ≡ length part.now }
    ensures { outcome (told result) list.new ≡ settled (kind_number kind) wanted.now count
        (marked (numbers_in size count part.now) items.old) list.old }
{
    mark_numbers(part, size, items);
    settle(kind, wanted, count as usize, items, list)
}

/// Items that are the words seen from a vertex.
fn order_words(
    part: &[u32],
    vertex: u32,
    wanted: &[u32],
    items: &mut [u8],
    list: &mut [u32],
) -> Result<usize, NotArranged>
    ensures { (count : ℕ) → 6 * count ≡ length part.now → outcome (told result) list.new ≡ settled 16 wanted.now
        (length (words_at (edges_from count part.now) vertex))
        (marked (words_at (edges_from count part.now) vertex) items.old) list.old }
{
    let found = mark_words(part, vertex, items);
    settle(Kind::Word, wanted, found, items, list)
}

/// Vseq in the order wanted, by calls of kind 12 at the front of list: how many. Words that do not load are refused
/// first, then those wanted that are not the vertices each once, then a list that is too short. A refusal writes nothing.
pub fn arrange_vertices(
    words: &[u32],
    wanted: &[u32],
    list: &mut [u32],
) -> Result<usize, NotArranged>
    ensures { outcome (told result) list.new
        ≡ vertex_order words.now wanted.now list.old }
{
    check_saved(words)?;
    let mut items = [0u8; ITEMS];
    order_numbers(
        Kind::Vertex,
        Part::Vertices.within(words),
        record_size(words),
        get(words, 0),
        wanted,
        &mut items,
        list,
    )
}

/// Eseq, by calls of kind 14.
pub fn arrange_edges(words: &[u32], wanted: &[u32], list: &mut [u32]) -> Result<usize, NotArranged>
    ensures { outcome (told result) list.new
        ≡ edge_order words.now wanted.now list.old }
{
    check_saved(words)?;
    let mut items = [0u8; ITEMS];
    order_numbers(
        Kind::Edge,
        Part::Edges.within(words),
        EDGE,
        get(words, 1),
        wanted,
        &mut items,
        list,
    )
}

/// The list of a vertex, by calls of kind 16. A vertex that is missing is refused before those wanted.
pub fn arrange_words(
    words: &[u32],
    vertex: u32,
    wanted: &[u32],
    list: &mut [u32],
) -> Result<usize, NotArranged>
    ensures { outcome (told result) list.new
        ≡ word_order words.now vertex wanted.now list.old }
{
    check_saved(words)?;
    if !has_number(Part::Vertices.within(words), record_size(words), vertex) {
        return Err(NotArranged::NoVertex);
    }
    let mut items = [0u8; ITEMS];
    order_words(Part::Edges.within(words), vertex, wanted, &mut items, list)
}
