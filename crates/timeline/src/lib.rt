// The steps in the journal: undo, redo, going to a place, and steps that are added.
// A caller has tables and journal that stand for a timeline.
#![tactic(auto)]

ghost use Rattle.std.specs.Prelude.{◌≡◌, true, false, ◌&&◌, List, ℕ, ◌+◌, ◌-◌, ◌^◌, ◌<◌, ◌≤◌, leb, ltb, length, take, drop, ◌==◌};
ghost use Rattle.lists.specs.Choice.{to_bit};
ghost use Rattle.graph.specs.Graph.{Graph};
ghost use Rattle.graph.specs.WellFormed.{Bounds, Within};
ghost use Rattle.history.specs.Machine.{Step, Timeline, begun, placed, onward, made_by};
ghost use Rattle.graph_tables.specs.Tables.{State, state_of, SameLoan};
ghost use Rattle.graph_tables.specs.Capacities.{Sized};
ghost use Rattle.graph_tables.specs.Holds.{Holds};
ghost use Rattle.timeline.specs.Current.{no_steps, after_step, at_place};
ghost use Rattle.timeline.specs.JournalRows.{shifted, Reach, crossed, JournalRows};
ghost use Rattle.timeline.specs.Steps.{rows_to, Journal, Behind, Unfinished, Advances, Aims};

use graph_tables::{Head, Tables};

/// The place p, the number of steps m, and the rows of steps 1 to p.
#[derive(Clone, Copy, Debug, Default, PartialEq, Eq)]
pub struct Position {
    pub place: u32,
    pub steps: u32,
    pub used: u32,
}

/// What every change updates: ends and counts of the graph, and the position. The order of the two is chosen by counts
/// of instructions.
#[derive(Clone, Copy, Debug, PartialEq, Eq)]
pub struct Current {
    pub position: Position,
    pub head: Head,
}

impl Current {
    /// Goes on by a step of so many rows that left this head: what lay after p is cut. A caller has a place and rows that
    /// stay words of 32 bits after the step, as those of a journal within the limits do.
    #[inline(always)]
    pub fn step(&mut self, head: Head, rows: u32)
        requires place { self.old.position.place + 1 < 2 ^ 32 }
        requires used { self.old.position.used + rows < 2 ^ 32 }
        ensures { self.new ≡ after_step self.old.position head rows }
    {
        let place = self.position.place + 1;
        self.head = head;
        self.position = Position {
            place,
            steps: place,
            used: self.position.used + rows,
        };
    }

    /// Goes to a place with this head and so many rows before it: the steps stay.
    #[inline(always)]
    pub fn move_to(&mut self, head: Head, place: u32, used: u32)
        ensures { self.new ≡ at_place self.old.position head place used }
    {
        self.head = head;
        self.position.place = place;
        self.position.used = used;
    }
}

// The rows up to which the present step leads, and how many steps come after it.
#[derive(Clone, Copy, Debug, PartialEq, Eq)]
struct Ahead {
    end: u32,
    left: u32,
}

impl Ahead {
    // Is a row left to go through, where u rows lie behind?
    #[inline(always)]
    fn is_unfinished(self, u: u32) -> bool
        ensures unfinished { result ≡ true → Unfinished u self }
        ensures left_value { result ≡ false → (self.left ≡ 0) × (u ≡ self.end) }
    {
        self.left != 0 || u != self.end
    }

    // The step that u rows behind are in; at its end, the next one. A step's first row and its last have its cost. What
    // goes on is built word by word: a pair that is passed through whole is moved as one word and split again (DECISIONS 61, 164).
    #[inline(always)]
    fn next(self, journal: &[u32], u: u32, back: bool) -> Ahead
        requires { (g : Graph) × (ss : List Step) × (q : ℕ) × Unfinished u self × Aims journal.now g ss back q u self }
        ensures by_index { (g : Graph) → (ss : List Step) → (q : ℕ) → Aims journal.now g ss back q u self
            → Aims journal.now g ss back q u result × (u ≡ result.end → ⊥) }
        ensures advances { Advances u self result }
    {
        if u != self.end {
            return Ahead {
                end: self.end,
                left: self.left,
            };
        }
        let cost = journal::cost_at(journal, row_crossed(u, back));
        Ahead {
            end: shifted_by(u, cost, back),
            left: self.left - 1,
        }
    }
}

// The number n before u, or n after it.
#[inline(always)]
fn shifted_by(u: u32, n: u32, back: bool) -> u32
    requires { Reach back n u 4294967295 }
    ensures { result ≡ shifted back n u }
{
    if back { u - n } else { u + n }
}

// The row that is taken back or carried out next, where u rows lie behind.
#[inline(always)]
fn row_crossed(u: u32, back: bool) -> u32
    requires { Reach back 1 u 4294967295 }
    ensures { result ≡ crossed back u }
{
    if back { u - 1 } else { u }
}

// Takes one row back, or carries one out.
#[inline(always)]
fn go_row<const BACK: bool>(tables: &mut Tables<'_>, head: Head, journal: &[u32], u: u32) -> Head
    requires { (b : Bounds) × (g : Graph) × (n : ℕ) × Reach BACK 1 u n
        × JournalRows b journal.now g n (state_of head tables.old) u }
    ensures rows { (b : Bounds) → (g : Graph) → (n : ℕ) → Reach BACK 1 u n
        → JournalRows b journal.now g n (state_of head tables.old) u
        → JournalRows b journal.now g n (state_of result tables.new) (shifted BACK 1 u) }
    ensures same_loan { SameLoan tables.old tables.new }
{
    let i = row_crossed(u, BACK);
    let e = journal::row_at(journal, i, BACK);
    tables.apply(head, e)
}

/// So many steps back or on, row by row. A caller has so many there. Which words of the tables hold the graph then is
/// left open. Back and on are two loops, each with its own edits in it, so that each is compiled as one piece. The loop
/// has no count: it ends where the rows and the steps do.
#[inline(always)]
pub fn go<const BACK: bool>(
    tables: &mut Tables<'_>,
    current: Current,
    journal: &[u32],
    steps: u32,
) -> Current
    requires reach { Reach BACK steps current.position.place current.position.steps }
    requires journal { (b : Bounds) × (l : Timeline)
        × Journal b current.position (state_of current.head tables.old) journal.now l }
    ensures gone { (b : Bounds) → (l : Timeline)
        → Journal b current.position (state_of current.head tables.old) journal.now l
        → Journal b result.position (state_of result.head tables.new) journal.now
        (placed (shifted BACK steps l.place) l) }
    ensures same_loan { SameLoan tables.old tables.new }
{
    let mut head = current.head;
    let mut u = current.position.used;
    let mut ahead = Ahead {
        end: u,
        left: steps,
    };
    while ahead.is_unfinished(u) {
        ahead = ahead.next(journal, u, BACK);
        head = go_row::<BACK>(tables, head, journal, u);
        u = shifted_by(u, 1, BACK);
    }
    let place = shifted_by(current.position.place, steps, BACK);
    let mut there = current;
    there.move_to(head, place, u);
    there
}

// The rows behind the place so many steps on.
fn rows_on(journal: &[u32], used: u32, steps: u32) -> u32
    requires { (g : Graph) × (ss : List Step) × (p : ℕ) × Behind journal.now g ss p used
        × Reach false steps p (length ss) }
    ensures { (g : Graph) → (ss : List Step) → (p : ℕ) → Behind journal.now g ss p used
        → Reach false steps p (length ss) → result ≡ rows_to 0 (p + steps) ss }
{
    let mut ahead = Ahead {
        end: used,
        left: steps,
    };
    for _ in 0..steps {
        ahead = ahead.next(journal, ahead.end, false);
    }
    ahead.end
}

/// Do so many steps on cost more than is free? Where all rows that are not used are free, there is room for every step,
/// and none is counted.
pub fn too_far(position: Position, journal: &[u32], free: u32, steps: u32) -> bool
    requires steps_bound { position.place + steps ≤ position.steps }
    requires journal { (b : Bounds) × (s : State) × (l : Timeline) × Journal b position s journal.now l }
    ensures { (b : Bounds) → (s : State) → (l : Timeline) → Journal b position s journal.now l
        → result ≡ ltb free (onward (l.place + steps) l) }
{
    position.used as usize + (free as usize) < journal.len() / 12
        && free < rows_on(journal, position.used, steps) - position.used
}

// Does the step after place p lie above `low`, and is the bench that made it the one asked for?
#[inline(always)]
fn counted(p: u32, low: u32, made: u32, bench: u32) -> bool
    ensures { result ≡ (leb low p && (made == bench)) }
{
    low <= p && made == bench
}

/// For kind 59: how many of the steps above place `low`, up to place `high`, a bench made. The steps are gone through
/// from the first on.
pub fn made_by(journal: &[u32], low: u32, high: u32, bench: u32) -> u32
    requires { (g : Graph) × (ss : List Step) × (u : ℕ) × Behind journal.now g ss high u }
    ensures { (g : Graph) → (ss : List Step) → (u : ℕ) → Behind journal.now g ss high u
        → result ≡ made_by bench (take (high - low) (drop low ss)) }
{
    let mut row: u32 = 0;
    let mut count = 0;
    for p in 0..high {
        let made = journal::bench_at(journal, row);
        count += u32::from(counted(p, low, made, bench));
        row += journal::cost_at(journal, row);
    }
    count
}

/// No step yet: at the start, and after a commit.
pub fn begin() -> Position
    ensures value { result ≡ no_steps }
    ensures by_index { (b : Bounds) → (s : State) → (t : List ℕ) → (g : Graph) → Sized b s → Within b g → Holds s g
        → length t < 2 ^ 32 → Journal b result s t (begun g) }
{
    Position::default()
}
