// The graph with its history: each history call on the tables, the journal and the marks.
// A caller has a store and lent words that stand for a machine; any call may be asked for.
#![tactic(auto)]

ghost use Rattle.std.specs.Prelude.{◌≡◌, ℕ, ◌^◌, ◌<◌, length, ltb};
ghost use Rattle.graph.specs.Graph.{Graph};
ghost use Rattle.graph.specs.WellFormed.{Bounds, Within};
ghost use Rattle.history.specs.Machine.{Timeline, fresh, placed, distance};
ghost use Rattle.marks.specs.Marked.{mark_words};
ghost use Rattle.graph_tables.specs.Tables.{state_of, SameLoan};
ghost use Rattle.graph_tables.specs.Holds.{Holds};
ghost use Rattle.graph_tables.specs.Capacities.{Sized};
ghost use Rattle.timeline.specs.JournalRows.{shifted, Reach};
ghost use Rattle.timeline.specs.Steps.{Journal};
ghost use Rattle.history_calls.specs.Memory.{Memory, memory_of, tables_of};
ghost use Rattle.history_calls.specs.Represents.{Represents, Stands, Performs};
ghost use Rattle.history_calls.specs.Outcomes.{
  done,
  called,
  stored,
  begun_at,
  step_way,
  Leads,
  way_of,
  Comes,
  Leaves,
};

use commands::refusal::Refusal;
use commands::{Answer, HistoryCall};
use graph_tables::{Head, Tables};
use marks::{MarkSet, Name, place_of};
use timeline::{Current, Position};

pub mod benches; // kinds 58 and 59
pub mod mark_calls; // kinds 17, 18, 22, 49, 50 and 56

/// The record that every change updates, the set of standing marks, and the bench of later steps.
#[derive(Clone, Copy, Debug, PartialEq, Eq)]
pub struct Store {
    pub current: Current,
    pub set: MarkSet,
    pub bench: u32,
}

/// The store after a call, and the answer to it.
#[derive(Clone, Copy, Debug, PartialEq, Eq)]
pub struct Called {
    pub answer: Answer,
    pub store: Store,
}

/// Where kinds 19, 20, 21 and 57 lead: so many steps back or on.
#[derive(Clone, Copy, Debug, PartialEq, Eq)]
pub struct Way {
    pub back: bool,
    pub steps: u32,
}

// One step, unless the place is at this end.
#[inline(always)]
fn one_step(back: bool, place: u32, end: u32) -> Result<Way, Refusal>
    ensures { Comes (step_way back place end) result }
{
    if place == end {
        return Err(Refusal::AtTheEnd);
    }
    Ok(Way { back, steps: 1 })
}

// From place p to place q.
#[inline(always)]
fn way_between(p: u32, q: u32) -> Way
    ensures { (result.back ≡ ltb q p) × (result.steps ≡ distance p q) }
{
    Way {
        back: q < p,
        steps: marks::between(p, q),
    }
}

impl Store {
    /// No step yet, no mark, and bench 0.
    #[inline(always)]
    pub fn start(head: Head) -> Store
        ensures value { result ≡ begun_at head }
        ensures represents { (b : Bounds) → (mem : Memory) → (g : Graph) → Sized b (tables_of result mem) → Within b g
            → Holds (tables_of result mem) g → length mem.journal < 2 ^ 32 → length mem.marks ≡ mark_words
            → Represents b result mem (fresh g) }
    {
        Store {
            current: Current {
                head,
                position: timeline::begin(),
            },
            set: MarkSet::none(),
            bench: 0,
        }
    }

    /// The same store, built word by word, so that the compiler keeps the words in registers (tried as a copy, and slower:
    /// DECISIONS 71; see graph_tables::same).
    #[inline(always)]
    pub fn same(&self) -> Store
        ensures { result ≡ self.now }
    {
        Store {
            current: Current {
                head: graph_tables::same(self.current.head),
                position: Position {
                    place: self.current.position.place,
                    steps: self.current.position.steps,
                    used: self.current.position.used,
                },
            },
            set: MarkSet {
                bits: self.set.bits,
            },
            bench: self.bench,
        }
    }

    /// After a call that changes nothing and has this answer, as the two words that a question's answer is (C's words:
    /// DECISIONS 71).
    #[inline(always)]
    pub fn stay(&self, code: u32, number: u32) -> Called
        ensures { result ≡ done self.now code number }
    {
        Called {
            store: self.same(),
            answer: Answer { code, number },
        }
    }

    /// After a call of which this came.
    #[inline(always)]
    pub fn answer(&self, came: Result<u32, Refusal>) -> Called
        ensures { result ≡ called self.now came }
    {
        Called {
            store: self.same(),
            answer: Answer::from(came),
        }
    }

    // After a call that has no number: the store that came of it, or this one where it is refused.
    #[inline(always)]
    fn settle(self, came: Result<Store, Refusal>) -> Called
        ensures { result ≡ stored self came }
    {
        match came {
            Ok(store) => store.answer(Ok(0)),
            Err(refusal) => self.answer(Err(refusal)),
        }
    }

    /// Kind 19 is one step back, kind 20 one step on, kind 21 leads to the place of a mark, kind 57 to that of the mark
    /// with a name. No other call leads anywhere. Before a call copies::leads_to asks this too;
    /// store_calls::guard::place_ahead reads the place off the call's words.
    ///
    /// # Errors
    /// `AtTheEnd` where there is no step, `NoMark`, `MarkGone`, `NameUnknown` where there is no such mark.
    #[inline(always)]
    pub fn way_of(self, marks: &[u32], call: HistoryCall) -> Result<Way, Refusal>
        requires { length marks.now ≡ mark_words }
        ensures { Comes (way_of self marks.now call) result }
    {
        let position = self.current.position;
        match call {
            HistoryCall::Undo => one_step(true, position.place, 0),
            HistoryCall::Redo => one_step(false, position.place, position.steps),
            HistoryCall::GoTo(a) => {
                self.set.check_standing(a)?;
                Ok(way_between(position.place, place_of(marks, a)))
            }
            HistoryCall::GoToName(first, second) => {
                let name = Name { first, second };
                let Some(a) = self.set.holder(marks, 0, name) else {
                    return Err(Refusal::NameUnknown);
                };
                Ok(way_between(position.place, place_of(marks, a)))
            }
            _ => Ok(Way {
                back: false,
                steps: 0,
            }),
        }
    }

    // So many steps back or on.
    #[inline(always)]
    fn moved(self, tables: &mut Tables<'_>, journal: &[u32], way: Way) -> Current
        requires reach { Reach way.back way.steps self.current.position.place self.current.position.steps }
        requires journal { (b : Bounds) × (l : Timeline)
            × Journal b self.current.position (state_of self.current.head tables.old) journal.now l }
        ensures gone { (b : Bounds) → (l : Timeline)
            → Journal b self.current.position (state_of self.current.head tables.old) journal.now l
            → Journal b result.position (state_of result.head tables.new) journal.now
            (placed (shifted way.back way.steps l.place) l) }
        ensures same_loan { SameLoan tables.old tables.new }
    {
        if way.back {
            timeline::go::<true>(tables, self.current, journal, way.steps)
        } else {
            timeline::go::<false>(tables, self.current, journal, way.steps)
        }
    }

    // Kinds 19, 20, 21 and 57: the steps on the way are undone or redone. Refused, it leaves every word; else those of
    // the tables are left open, but for the graph that they hold.
    #[inline(always)]
    fn go(
        self,
        tables: &mut Tables<'_>,
        journal: &[u32],
        marks: &[u32],
        call: HistoryCall,
    ) -> Called
        requires { Leads call × Stands self (memory_of tables.old journal.now marks.now) }
        ensures leaves { Leaves self (memory_of tables.old journal.now marks.now) result
            (memory_of tables.new journal.now marks.now) }
        ensures by_index { (free : ℕ) → Performs call free self (memory_of tables.old journal.now marks.now) result
            (memory_of tables.new journal.now marks.now) }
        ensures same_loan { SameLoan tables.old tables.new }
    {
        match self.way_of(marks, call) {
            Ok(way) => {
                let current = self.moved(tables, journal, way);
                Store { current, ..self }.answer(Ok(way.steps))
            }
            Err(refusal) => self.answer(Err(refusal)),
        }
    }

    /// Any history call, where so many changes are free. Tables, journal and marks stay three: the journal is read alone. A refused one leaves every lent word; else those of the tables
    /// and marks are left open, but for the machine that they stand for.
    #[inline(always)]
    pub fn perform(
        self,
        tables: &mut Tables<'_>,
        journal: &[u32],
        marks: &mut [u32],
        free: u32,
        call: HistoryCall,
    ) -> Called
        requires { Stands self (memory_of tables.old journal.now marks.old) }
        ensures leaves { Leaves self (memory_of tables.old journal.now marks.old) result
            (memory_of tables.new journal.now marks.new) }
        ensures performs { Performs call free self (memory_of tables.old journal.now marks.old) result
            (memory_of tables.new journal.now marks.new) }
        ensures same_loan { SameLoan tables.old tables.new }
    {
        match call {
            HistoryCall::SetMark(a) => self.settle(self.set_mark(marks, a)),
            HistoryCall::DropMark(a) => self.settle(self.drop_mark(a)),
            HistoryCall::Commit => self.commit(),
            HistoryCall::Between(a, b) => self.answer(self.between(marks, a, b)),
            HistoryCall::Standing => self.standing(),
            HistoryCall::Free => self.answer(Ok(free)),
            HistoryCall::NameMark(a, first, second) => {
                self.settle(self.name_mark(marks, a, Name { first, second }))
            }
            HistoryCall::SetBench(bench) => self.settle(self.set_bench(bench)),
            HistoryCall::MadeBy(a, b, bench) => {
                self.answer(self.made_by(journal, marks, a, b, bench))
            }
            _ => self.go(tables, journal, marks, call),
        }
    }
}
