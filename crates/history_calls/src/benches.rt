// Kinds 58 and 59: the bench of later steps, and how many steps a bench made between two marks.
ghost use Rattle.std.specs.Prelude.{◌≡◌, ℕ, List};
ghost use Rattle.graph.specs.Graph.{Graph};
ghost use Rattle.history.specs.Machine.{Step, steps_between, made_by};
ghost use Rattle.timeline.specs.Steps.{Behind};
ghost use Rattle.commands.specs.Refusals.{code_if_refused};
ghost use Rattle.history_calls.specs.Memory.{memory};
ghost use Rattle.history_calls.specs.Represents.{Stands, Performs};
ghost use Rattle.history_calls.specs.Outcomes.{called, stored, bench_code, bench_set, made_code};

use crate::Store;
use commands::HistoryCall;
use commands::refusal::Refusal;
use graph::MOST_BENCHES;
use marks::{MarkSet, place_of};

// It must be a bench.
#[inline(always)]
fn check_bench(bench: u32) -> Result<(), Refusal>
    ensures { code_if_refused result ≡ bench_code bench }
{
    if MOST_BENCHES <= bench {
        return Err(Refusal::NoBench);
    }
    Ok(())
}

// Of kind 59: two marks that stand, and a bench.
#[inline(always)]
fn check_made(set: MarkSet, a: u32, b: u32, bench: u32) -> Result<(), Refusal>
    ensures { code_if_refused result ≡ made_code set.bits a b bench }
{
    set.check_both(a, b)?;
    check_bench(bench)
}

// The steps that a bench made between two places, in either order.
fn made_between(journal: &[u32], p: u32, q: u32, bench: u32) -> u32
    requires { (g : Graph) × (ss : List Step) × (u : ℕ) × (v : ℕ) × Behind journal.now g ss p u
        × Behind journal.now g ss q v }
    ensures { (g : Graph) → (ss : List Step) → (u v : ℕ) → Behind journal.now g ss p u
        → Behind journal.now g ss q v → result ≡ made_by bench (steps_between p q ss) }
{
    if q < p {
        timeline::made_by(journal, q, p, bench)
    } else {
        timeline::made_by(journal, p, q, bench)
    }
}

impl Store {
    /// Kind 58: later steps are made by this bench.
    ///
    /// # Errors
    /// `NoBench` where there is none of this number.
    #[inline(always)]
    pub fn set_bench(self, bench: u32) -> Result<Store, Refusal>
        ensures { stored self result ≡ bench_set self bench }
    {
        check_bench(bench)?;
        Ok(Store { bench, ..self })
    }

    /// Kind 59: of the steps that lie between two marks, how many a bench made.
    ///
    /// # Errors
    /// `NoMark`, `MarkGone` where one of the marks is none, or does not stand; `NoBench`.
    #[inline(always)]
    pub fn made_by(
        self,
        journal: &[u32],
        marks: &[u32],
        a: u32,
        b: u32,
        bench: u32,
    ) -> Result<u32, Refusal>
        requires { (vertices edges : List ℕ) × Stands self (memory vertices edges journal.now marks.now) }
        ensures { (vertices edges : List ℕ) → (free : ℕ) → Performs (HistoryCall.MadeBy a b bench) free self
            (memory vertices edges journal.now marks.now) (called self result)
            (memory vertices edges journal.now marks.now) }
    {
        check_made(self.set, a, b, bench)?;
        let p = place_of(marks, a);
        let q = place_of(marks, b);
        Ok(made_between(journal, p, q, bench))
    }
}
