// The price list, read off the lent tables.
// A caller has tables that hold a graph; the words of the call may be any.
#![tactic(auto)]

mod grades; // grades.rt: the printed limits, and the grade of a range

ghost use Rattle.std.specs.Prelude.{◌≡◌, ◌/◌};
ghost use Rattle.graph.specs.Graph.{Graph};
ghost use Rattle.graph_tables.specs.declared.Head.{Head};
ghost use Rattle.graph_tables.specs.Tables.{EdgeRowIn, view_state};
ghost use Rattle.graph.specs.WellFormed.{Bounds};
ghost use Rattle.graph_tables.specs.Capacities.{Sized};
ghost use Rattle.graph_tables.specs.Holds.{Holds};
ghost use Rattle.commands.specs.declared.PriceCall.TheVariants as price;
ghost use Rattle.commands.specs.Answers.{answer_of};
ghost use Rattle.commands.specs.Refusals.{answer_by};
ghost use Rattle.machine.specs.Codes.{price_code};
ghost use Rattle.machine.specs.Machine.{price_number};
ghost use Rattle.walks.specs.Walks.{CanWalk};
ghost use Rattle.prices.specs.Prices.{later};
ghost use Rattle.price_calls.specs.Ways.{reading_to, way_at, both_ways, price_at};

use commands::refusal::Refusal;
use commands::{Answer, PriceCall};
use grades::PriceList;
use graph::Reading;
use graph_tables::fields::HALF_THIS;
use graph_tables::lookups::find_vertex;
use graph_tables::rows::{half_field, reading_at};
use graph_tables::{Lookup, TablesView};
use walks::cursor::Cursor;

// A way after one reading more: the last that is not untested decides.
#[inline(always)]
fn with_reading(way: Reading, reading: Reading) -> Reading
    ensures { result ≡ later way reading }
{
    match reading {
        Reading::Untested => way,
        Reading::Silent | Reading::Heard(_) => reading,
    }
}

// The reading of the edge of word w where it goes out to b, else untested.
#[inline(always)]
#[tactic(auto, unfolding(lists::specs::Choice::if_equal))]
fn reading_to(tables: &TablesView<'_>, b: u32, w: u32) -> Reading
    requires { EdgeRowIn tables.now.edges.now (w / 2) }
    ensures { result ≡ reading_to tables.now.edges.now b w }
{
    if w % 2 == 0 && half_field(tables.edges, w + 1, HALF_THIS) == b {
        reading_at(tables.edges, w / 2)
    } else {
        Reading::Untested
    }
}

// One way from a to b: a walk along the list of a by a cursor, and so a `while` (see walks::cursor).
fn one_way(tables: &TablesView<'_>, a: u32, b: u32) -> Reading
    requires { CanWalk tables.now.vertices.now tables.now.edges.now a }
    ensures { result ≡ way_at tables.now.vertices.now tables.now.edges.now a b }
{
    let mut way = Reading::Untested;
    let mut cursor = Cursor::first(tables, a);
    while cursor.word != 0 {
        way = with_reading(way, reading_to(tables, b, cursor.word));
        cursor.step();
    }
    way
}

// Two ways together: the smaller of both, where both are heard.
#[inline(always)]
fn both_ways(there: Reading, back: Reading) -> Result<u32, Refusal>
    ensures { answer_by result ≡ both_ways there back }
{
    match (there, back) {
        (Reading::Heard(x), Reading::Heard(y)) => Ok(x.min(y)),
        _ => Err(Refusal::NothingHeard),
    }
}

// The two-way range of two vertices that are there.
#[inline(always)]
fn price_of(tables: &TablesView<'_>, a: u32, b: u32) -> Result<u32, Refusal>
    requires there { CanWalk tables.now.vertices.now tables.now.edges.now a }
    requires back { CanWalk tables.now.vertices.now tables.now.edges.now b }
    ensures { answer_by result ≡ price_at tables.now.vertices.now tables.now.edges.now a b }
{
    both_ways(one_way(tables, a, b), one_way(tables, b, a))
}

// Kind 53: the two-way range of a and b.
#[inline(always)]
fn range(tables: &TablesView<'_>, a: u32, b: u32) -> Result<u32, Refusal>
    requires { (z : Bounds) × (head : Head) × (g : Graph) × Sized z (view_state head tables.now)
        × Holds (view_state head tables.now) g }
    ensures { (head : Head) → (g : Graph) → Holds (view_state head tables.now) g
        → answer_by result ≡ answer_of (price_code g (price.Range a b)) (price_number g (price.Range a b)) }
{
    let Lookup::Found(_) = find_vertex(tables.vertices, a) else {
        return Err(Refusal::NoVertex);
    };
    let Lookup::Found(_) = find_vertex(tables.vertices, b) else {
        return Err(Refusal::NoVertex);
    };
    price_of(tables, a, b)
}

// Kind 54: the grade of a and b by price list c. That there is no such list comes behind what the range is refused by.
#[inline(always)]
fn grade(tables: &TablesView<'_>, a: u32, b: u32, c: u32) -> Result<u32, Refusal>
    requires { (z : Bounds) × (head : Head) × (g : Graph) × Sized z (view_state head tables.now)
        × Holds (view_state head tables.now) g }
    ensures { (head : Head) → (g : Graph) → Holds (view_state head tables.now) g
        → answer_by result ≡ answer_of (price_code g (price.Grade a b c)) (price_number g (price.Grade a b c)) }
{
    let decimetres = range(tables, a, b)?;
    let list = PriceList::try_from(c)?;
    Ok(list.grade(decimetres))
}

// The number that a call of the price list asks for.
#[inline(always)]
fn number_of(tables: &TablesView<'_>, call: PriceCall) -> Result<u32, Refusal>
    requires { (z : Bounds) × (head : Head) × (g : Graph) × Sized z (view_state head tables.now)
        × Holds (view_state head tables.now) g }
    ensures { (head : Head) → (g : Graph) → Holds (view_state head tables.now) g
        → answer_by result ≡ answer_of (price_code g call) (price_number g call) }
{
    match call {
        PriceCall::Range(a, b) => range(tables, a, b),
        PriceCall::Grade(a, b, c) => grade(tables, a, b, c),
    }
}

/// The answer to any call of the price list.
pub fn quote(tables: &TablesView<'_>, call: PriceCall) -> Answer
    requires { (z : Bounds) × (head : Head) × (g : Graph) × Sized z (view_state head tables.now)
        × Holds (view_state head tables.now) g }
    ensures { (head : Head) → (g : Graph) → Holds (view_state head tables.now) g
        → result ≡ answer_of (price_code g call) (price_number g call) }
{
    Answer::from(number_of(tables, call))
}
