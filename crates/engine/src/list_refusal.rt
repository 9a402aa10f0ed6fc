// Why a list is refused.
ghost use Rattle.std.specs.Prelude.{◌≡◌};
ghost use Rattle.engine.specs.Refusals.{list_code, list_offset, of_image};

use image_check::BadImage;

/// Why a list is refused: one run of it, a recorded run or a reduction (REFERENCE 8).
#[derive(Clone, Copy, Debug, PartialEq, Eq)]
pub enum ListRefusal {
    /// The words of the calls are not a whole number of calls.
    BadCalls,
    /// There are fewer than two words for the answer to each call.
    ShortAnswers,
    /// A capacity, or the number of stores, is 0 or above its limit.
    BadCapacity,
    /// There is no type row, there are too many, or one has a bit that no type has.
    BadRows,
    /// The header or a count of a start image is bad, or words are left over behind the images.
    BadStart,
    /// The end image is shorter than one as large as the capacities allow.
    ShortImage,
    /// The word at this offset, in a record of a start image.
    BadRecord(usize),
    /// The word at this offset, in a list of a start image.
    BadIncidence(usize),
    /// More calls may make a copy than there is room for copies.
    ShortCopies,
    /// A list to be reduced has too many calls, or there is no room to write it.
    BadList,
    /// A list to be reduced has no call, or its last call is accepted.
    NoFailure,
}

impl ListRefusal {
    /// The code that C is told.
    pub fn code(self) -> u32
        ensures { result ≡ list_code self }
    {
        match self {
            ListRefusal::BadCalls => 101,
            ListRefusal::ShortAnswers => 102,
            ListRefusal::BadCapacity => 103,
            ListRefusal::BadRows => 104,
            ListRefusal::BadStart => 105,
            ListRefusal::ShortImage => 106,
            ListRefusal::BadRecord(_) => 108,
            ListRefusal::BadIncidence(_) => 109,
            ListRefusal::ShortCopies => 113,
            ListRefusal::BadList => 114,
            ListRefusal::NoFailure => 115,
        }
    }

    /// The number beside the code: the offset of the first bad word, in words from the first of the start, else 0.
    pub fn number(self) -> usize
        ensures { result ≡ list_offset self }
    {
        match self {
            ListRefusal::BadRecord(offset) | ListRefusal::BadIncidence(offset) => offset,
            _ => 0,
        }
    }
}

/// Of a start image whose first word is the first of the start.
impl From<BadImage> for ListRefusal {
    ghost from_gives = { λ bad r. r ≡ of_image bad };

    fn from(bad: BadImage) -> ListRefusal {
        match bad {
            BadImage::Header => ListRefusal::BadStart,
            BadImage::Record(offset) => ListRefusal::BadRecord(offset as usize),
            BadImage::Incidence(offset) => ListRefusal::BadIncidence(offset as usize),
        }
    }
}
