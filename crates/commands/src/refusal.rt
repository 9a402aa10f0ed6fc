// Why a call is refused.
ghost use Rattle.std.specs.Prelude.{◌≡◌, ◌<◌};
ghost use Rattle.commands.specs.Refusals.{refusal_code};

/// Why a call is refused. The number is the code that C is answered (REFERENCE 7).
#[derive(Clone, Copy, Debug, PartialEq, Eq)]
pub enum Refusal {
    UnknownKind = 1,
    NumberOutside = 2,
    NumberInUse = 3,
    NoVertex = 4,
    NoEdge = 5,
    NoType = 6,
    NoReading = 7,
    OtherList = 8,
    SameTwice = 9,
    NoRoom = 10,
    NoMark = 11,
    MarkStands = 12,
    MarkGone = 13,
    AtTheEnd = 14,
    NoSide = 15,
    NothingHeard = 16,
    NoPriceList = 17,
    NoName = 18,
    NameUnknown = 19,
    NoBench = 20,
    NoStore = 21,
}

impl Refusal {
    /// Its code, 1 to 21.
    #[inline(always)]
    pub fn code(self) -> u32
        ensures { result ≡ refusal_code self }
    {
        self as u32
    }
}
