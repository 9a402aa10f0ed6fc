#![tactic(auto)]

ghost use Rattle.std.specs.Prelude.{◌≡◌};
ghost use Rattle.graph.specs.Graph.{reading_kind, decimetres, reading_of};

// The most that a run is lent for, types among it, and how many marks and benches there are.

/// How many vertices a chart has at most.
pub const MOST_VERTICES: u32 = 1000;

/// How many edges it has at most.
pub const MOST_EDGES: u32 = 4000;

/// How many rows a journal has at most.
pub const MOST_CHANGES: u32 = 20000;

/// How many types there are at most.
pub const MOST_TYPES: u32 = 64;

/// How many marks there are.
pub const MOST_MARKS: u32 = 64;

/// How many benches there are; they have the numbers from 0 on.
pub const MOST_BENCHES: u32 = 100;

/// The reading of an edge: untested, silent, or heard at some decimetres.
#[derive(Clone, Copy, Debug, PartialEq, Eq)]
pub enum Reading {
    Untested,
    Silent,
    Heard(u32),
}

impl Reading {
    /// The reading of a kind and decimetres that are one; each kind but 0 and 1 is taken for heard.
    #[inline(always)]
    pub fn from_words(kind: u32, decimetres: u32) -> Reading
        ensures { result ≡ reading_of kind decimetres }
    {
        match kind {
            0 => Reading::Untested,
            1 => Reading::Silent,
            _ => Reading::Heard(decimetres),
        }
    }

    /// Its kind, as a word.
    #[inline(always)]
    pub fn kind(self) -> u32
        ensures { result ≡ reading_kind self }
    {
        match self {
            Reading::Untested => 0,
            Reading::Silent => 1,
            Reading::Heard(_) => 2,
        }
    }

    /// Its decimetres, 0 where none were heard.
    #[inline(always)]
    pub fn decimetres(self) -> u32
        ensures { result ≡ decimetres self }
    {
        match self {
            Reading::Untested | Reading::Silent => 0,
            Reading::Heard(decimetres) => decimetres,
        }
    }
}

/// A change of one edit, kinds 1 and 3 to 16 in their order; the words of a reading as the call has them.
#[derive(Clone, Copy, Debug, PartialEq, Eq)]
pub enum SingleChange {
    // number, type, value
    CreateVertex(u32, u32, u32),
    // number, alpha, omega, type
    CreateEdge(u32, u32, u32, u32),
    DeleteEdge(u32),
    // number, type
    RetypeVertex(u32, u32),
    RetypeEdge(u32, u32),
    // number, value
    SetValue(u32, u32),
    // number, reading kind, decimetres
    SetReading(u32, u32, u32),
    // edge, vertex
    SetAlpha(u32, u32),
    SetOmega(u32, u32),
    // what is put, and before or after what
    VertexBefore(u32, u32),
    VertexAfter(u32, u32),
    EdgeBefore(u32, u32),
    EdgeAfter(u32, u32),
    WordBefore(u32, u32),
    WordAfter(u32, u32),
}

/// A change of the graph, kinds 1 to 16: one edit, or, kind 2, a vertex deleted together with the edges at it.
#[derive(Clone, Copy, Debug, PartialEq, Eq)]
pub enum Change {
    Single(SingleChange),
    DeleteVertex(u32),
}

/// A reversible edit. A place is the number, or the oriented word, that stands directly before; 0 is the front.
#[derive(Clone, Copy, Debug, PartialEq, Eq)]
pub enum Edit {
    // number, type, value; after which vertex
    InsertVertex(u32, u32, u32, u32),
    RemoveVertex(u32, u32, u32, u32),
    // number, alpha, omega, type, reading; after which edge, which out word and which in word
    InsertEdge(u32, u32, u32, u32, Reading, u32, u32, u32),
    RemoveEdge(u32, u32, u32, u32, Reading, u32, u32, u32),
    // number, old type and value, new ones
    SetVertex(u32, u32, u32, u32, u32),
    // number, old type and reading, new ones
    SetEdge(u32, u32, Reading, u32, Reading),
    // number, old place, new place
    MoveVertex(u32, u32, u32),
    MoveEdge(u32, u32, u32),
    // oriented word, old vertex and place, new ones
    MoveWord(u32, u32, u32, u32, u32),
}
