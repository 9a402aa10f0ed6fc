// May a mark be set, dropped, named or gone to: read off the set and the words of the marks.
ghost use Rattle.std.specs.Prelude.{◌≡◌, length};
ghost use Rattle.commands.specs.Refusals.{code_if_refused};
ghost use Rattle.marks.specs.Marked.{mark_words};
ghost use Rattle.marks.specs.Named.{name_of};
ghost use Rattle.marks.specs.Codes.{standing_code, new_code, both_code, name_code};

use crate::{MarkSet, Name, is_mark};
use commands::refusal::Refusal;

/// The code of two marks that must stand, from the code of each: 11 of either, then 13 of the first, else that of the
/// second. Of numbers, which may not change (TRACE 7.11 and 7.13 name it); `check_both` says it of two marks of a set.
#[inline(always)]
pub fn both_code(c: u32, d: u32) -> u32
    ensures { result ≡ both_code c d }
{
    if c == 11 || d == 11 {
        11
    } else if c == 13 {
        13
    } else {
        d
    }
}

impl MarkSet {
    /// Mark a must stand.
    ///
    /// # Errors
    /// `NoMark` where a is no mark, `MarkGone` where it does not stand.
    #[inline(always)]
    pub fn check_standing(self, a: u32) -> Result<(), Refusal>
        ensures { code_if_refused result ≡ standing_code self.bits a }
    {
        if !is_mark(a) {
            return Err(Refusal::NoMark);
        }
        if !self.has(a) {
            return Err(Refusal::MarkGone);
        }
        Ok(())
    }

    /// Mark a must not stand.
    ///
    /// # Errors
    /// `NoMark` where a is no mark, `MarkStands` where it stands.
    #[inline(always)]
    pub fn check_new(self, a: u32) -> Result<(), Refusal>
        ensures { code_if_refused result ≡ new_code self.bits a }
    {
        if !is_mark(a) {
            return Err(Refusal::NoMark);
        }
        if self.has(a) {
            return Err(Refusal::MarkStands);
        }
        Ok(())
    }

    /// Marks a and b must stand.
    ///
    /// # Errors
    /// `NoMark` where one of them is no mark, `MarkGone` where one does not stand.
    #[inline(always)]
    pub fn check_both(self, a: u32, b: u32) -> Result<(), Refusal>
        ensures { code_if_refused result ≡ both_code (standing_code self.bits a) (standing_code self.bits b) }
    {
        if !is_mark(a) || !is_mark(b) {
            return Err(Refusal::NoMark);
        }
        self.check_standing(a)?;
        self.check_standing(b)
    }

    /// Mark a must stand, and the words be a name that no other mark has.
    ///
    /// # Errors
    /// `NoMark`, `MarkGone` as above, `NoName` where it is no name, or another mark's.
    #[inline(always)]
    pub fn check_name(self, words: &[u32], a: u32, name: Name) -> Result<(), Refusal>
        requires { length words.now ≡ mark_words }
        ensures { code_if_refused result ≡ name_code self.bits words.now a (name_of name) }
    {
        self.check_standing(a)?;
        if !name.is_given() || self.holder(words, a, name).is_some() {
            return Err(Refusal::NoName);
        }
        Ok(())
    }
}
