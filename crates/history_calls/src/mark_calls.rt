// Kinds 17, 18, 49, 50 and 56, calls on marks, and kind 22, the commit, after which none stands: each is given by an
// equation.
ghost use Rattle.std.specs.Prelude.{◌≡◌, length};
ghost use Rattle.marks.specs.Marked.{mark_words};
ghost use Rattle.marks.specs.Named.{name_of};
ghost use Rattle.history_calls.specs.Outcomes.{
  called,
  stored,
  mark_set,
  places_set,
  mark_dropped,
  committed,
  between_marks,
  marks_standing,
  mark_named,
  names_set,
};

use crate::{Called, Store};
use commands::refusal::Refusal;
use marks::{Name, place_of};

impl Store {
    /// Kind 17: mark a at the present place.
    ///
    /// # Errors
    /// `NoMark`, `MarkStands`; the words stay as they were.
    #[inline(always)]
    pub fn set_mark(self, marks: &mut [u32], a: u32) -> Result<Store, Refusal>
        requires { length marks.old ≡ mark_words }
        ensures value { stored self result ≡ mark_set self a }
        ensures marks_after { marks.new ≡ places_set self a marks.old }
    {
        self.set.check_new(a)?;
        let set = self.set.set_mark(marks, a, self.current.position.place);
        Ok(Store { set, ..self })
    }

    /// Kind 56: mark a has this name.
    ///
    /// # Errors
    /// `NoMark`, `MarkGone`, and `NoName` for what is no name or another mark's; the words stay as they were.
    #[inline(always)]
    pub fn name_mark(self, marks: &mut [u32], a: u32, name: Name) -> Result<Store, Refusal>
        requires { length marks.old ≡ mark_words }
        ensures value { stored self result ≡ mark_named self marks.old a (name_of name) }
        ensures marks_after { marks.new ≡ names_set self a (name_of name) marks.old }
    {
        self.set.check_name(marks, a, name)?;
        marks::name_mark(marks, a, name);
        Ok(self)
    }

    /// Kind 18: mark a goes.
    ///
    /// # Errors
    /// `NoMark`, `MarkGone`.
    #[inline(always)]
    pub fn drop_mark(self, a: u32) -> Result<Store, Refusal>
        ensures { stored self result ≡ mark_dropped self a }
    {
        self.set.check_standing(a)?;
        Ok(Store {
            set: self.set.without(a),
            ..self
        })
    }

    /// Kind 22: the present graph is the start, and no mark stands; the bench stays. Its number is the place that was.
    #[inline(always)]
    pub fn commit(self) -> Called
        ensures { result ≡ committed self }
    {
        let store = Store {
            bench: self.bench,
            ..Store::start(self.current.head)
        };
        store.answer(Ok(self.current.position.place))
    }

    /// Kind 49: the steps between marks a and b.
    ///
    /// # Errors
    /// `NoMark`, `MarkGone` where one of them is none, or does not stand.
    #[inline(always)]
    pub fn between(self, marks: &[u32], a: u32, b: u32) -> Result<u32, Refusal>
        requires { length marks.now ≡ mark_words }
        ensures { called self result ≡ between_marks self marks.now a b }
    {
        self.set.check_both(a, b)?;
        Ok(marks::between(place_of(marks, a), place_of(marks, b)))
    }

    /// Kind 50: how many marks stand.
    #[inline(always)]
    pub fn standing(self) -> Called
        ensures { result ≡ marks_standing self }
    {
        self.answer(Ok(self.set.len()))
    }
}
