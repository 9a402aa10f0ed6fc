// The room for the next row.
ghost use Rattle.std.specs.Prelude.{◌≡◌, ◌≢◌, ◌+◌, ◌*◌, ◌≤◌, length, set};
ghost use Rattle.journal.specs.Rows.{store_from};

use crate::put_row;

/// Where the next row goes, and how many rows are free from there on.
#[derive(Drop)]
pub struct Room<'j> {
    pub journal: &'j mut [u32],
    pub row: u32,
    pub free: u32,
    pub ghost fits: { free ≢ 0 → 12 * row + 12 ≤ length journal.now },
}

impl<'j> Room<'j> {
    ghost use Rattle.journal.specs.Rooms.{SameRoom};

    /// Writes the words of an edit down as the next row, a step of this cost.
    #[inline(always)]
    pub fn put(&mut self, cost: u32, words: [u32; 10])
        requires { self.old.free ≢ 0 }
        ensures row { self.new.journal.now
            ≡ set (store_from (12 * self.old.row) words self.old.journal.now) (12 * self.old.row + 10) cost }
        ensures same_room { SameRoom self.old self.new }
    {
        put_row(self.journal, self.row, cost, words);
    }
}
