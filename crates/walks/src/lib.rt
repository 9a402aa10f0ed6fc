// Walks along the lists of the lent tables.
#![tactic(auto)]

pub mod cursor; // a cursor in a vertex's incidence list
pub mod orders; // is a before b
pub mod counting; // how many edges are at a vertex, and its degree

ghost use Rattle.std.specs.Prelude.{◌≡◌};
ghost use Rattle.graph.specs.Questions.{on_side};
ghost use Rattle.walks.specs.Walks.{side_number, NumberOf};

/// Which words of a vertex's list count: all, the out words or the in words.
#[derive(Clone, Copy, Debug, PartialEq, Eq)]
pub enum Side {
    All,
    Out,
    In,
}

/// A number that no side has.
#[derive(Clone, Copy, Debug, PartialEq, Eq)]
pub struct NoSide;

impl Side {
    /// Is word w on this side?
    #[inline(always)]
    pub fn has(self, w: u32) -> bool
        ensures { result ≡ on_side (side_number self) w }
    {
        match self {
            Side::All => true,
            Side::Out => w % 2 == 0,
            Side::In => w % 2 != 0,
        }
    }
}

impl TryFrom<u32> for Side {
    type Error = NoSide;

    ghost try_from_gives = { NumberOf };

    #[inline(always)]
    fn try_from(c: u32) -> Result<Side, NoSide> {
        match c {
            0 => Ok(Side::All),
            1 => Ok(Side::Out),
            2 => Ok(Side::In),
            _ => Err(NoSide),
        }
    }
}
