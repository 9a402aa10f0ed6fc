// The parts by name.
ghost use Rattle.std.specs.Prelude.{◌≡◌};
ghost use Rattle.image.specs.Image.{part as part_of};
ghost use Rattle.image.specs.Parts.{part_start, LiesAt};
ghost use Rattle.image.specs.Named.{part_number};

use crate::part;

/// A part of an image.
#[derive(Clone, Copy, Debug, PartialEq, Eq)]
pub enum Part {
    Vertices = 1,
    Edges = 2,
    Incidences = 3,
}

impl Part {
    /// The part of words with a sound header, as it lies in these very words; of others it is empty.
    #[inline(always)]
    pub fn within(self, words: &[u32]) -> &[u32]
        ensures { (result.now ≡ part_of (part_number self) words.now)
            × LiesAt (part_start (part_number self) words.now) words.entry result }
    {
        part(words, self as u32)
    }
}
