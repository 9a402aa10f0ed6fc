// The command that one call's five words are, in families.
#![tactic(auto)]

pub mod refusal; // refusal.rt: why a call is refused

ghost use Rattle.std.specs.Prelude.{◌≡◌};
ghost use Rattle.commands.specs.Calls.{call_at, five};
ghost use Rattle.commands.specs.Answers.{accepts, refuses};
ghost use Rattle.commands.specs.Commands.{command_of};
ghost use Rattle.commands.specs.Refusals.{answer_by};

use crate::refusal::Refusal;
use graph::{Change, SingleChange};
use lists::get;

/// Kinds 17 to 22, 49 to 51 and 56 to 59; a name is two words.
#[derive(Clone, Copy, Debug, PartialEq, Eq)]
pub enum HistoryCall {
    SetMark(u32),
    DropMark(u32),
    Undo,
    Redo,
    GoTo(u32),
    Commit,
    Between(u32, u32),
    Standing,
    Free,
    NameMark(u32, u32, u32),
    GoToName(u32, u32),
    SetBench(u32),
    MadeBy(u32, u32, u32),
}

/// Kinds 30 to 48 and 52.
#[derive(Clone, Copy, Debug, PartialEq, Eq)]
pub enum Question {
    FirstVertex,
    NextVertex(u32),
    FirstEdge,
    NextEdge(u32),
    FirstWord(u32),
    NextWord(u32),
    Alpha(u32),
    Omega(u32),
    This(u32),
    That(u32),
    VertexType(u32),
    EdgeType(u32),
    Value(u32),
    ReadingKind(u32),
    Decimetres(u32),
    Degree(u32, u32, u32),
    VertexOrder(u32, u32),
    EdgeOrder(u32, u32),
    WordOrder(u32, u32),
    Below(u32, u32),
}

/// Kinds 53 and 54; the third word of a grade is its price list.
#[derive(Clone, Copy, Debug, PartialEq, Eq)]
pub enum PriceCall {
    Range(u32, u32),
    Grade(u32, u32, u32),
}

/// A call by what answers it: a change, a history call, a question, a call of the price list, or a kind that is not
/// named.
#[derive(Clone, Copy, Debug, PartialEq, Eq)]
pub enum Command {
    Alter(Change),
    History(HistoryCall),
    Ask(Question),
    Quote(PriceCall),
    Unknown,
}

/// What a call is answered by: code 0 and a number, or the code of a refusal and 0: the two words that C is given, made
/// of a `Result` by `From`.
#[derive(Clone, Copy, Debug, PartialEq, Eq)]
pub struct Answer {
    pub code: u32,
    pub number: u32,
}

// The command of the words k, a, b, c, d. One flat choice by kind, families and all: the compiler joins it with the
// choices that answer the call into one jump.
fn command_of(k: u32, a: u32, b: u32, c: u32, d: u32) -> Command
    ensures { result ≡ command_of (five k a b c d) }
{
    match k {
        1 => Command::Alter(Change::Single(SingleChange::CreateVertex(a, b, c))),
        2 => Command::Alter(Change::DeleteVertex(a)),
        3 => Command::Alter(Change::Single(SingleChange::CreateEdge(a, b, c, d))),
        4 => Command::Alter(Change::Single(SingleChange::DeleteEdge(a))),
        5 => Command::Alter(Change::Single(SingleChange::RetypeVertex(a, b))),
        6 => Command::Alter(Change::Single(SingleChange::RetypeEdge(a, b))),
        7 => Command::Alter(Change::Single(SingleChange::SetValue(a, b))),
        8 => Command::Alter(Change::Single(SingleChange::SetReading(a, b, c))),
        9 => Command::Alter(Change::Single(SingleChange::SetAlpha(a, b))),
        10 => Command::Alter(Change::Single(SingleChange::SetOmega(a, b))),
        11 => Command::Alter(Change::Single(SingleChange::VertexBefore(a, b))),
        12 => Command::Alter(Change::Single(SingleChange::VertexAfter(a, b))),
        13 => Command::Alter(Change::Single(SingleChange::EdgeBefore(a, b))),
        14 => Command::Alter(Change::Single(SingleChange::EdgeAfter(a, b))),
        15 => Command::Alter(Change::Single(SingleChange::WordBefore(a, b))),
        16 => Command::Alter(Change::Single(SingleChange::WordAfter(a, b))),
        17 => Command::History(HistoryCall::SetMark(a)),
        18 => Command::History(HistoryCall::DropMark(a)),
        19 => Command::History(HistoryCall::Undo),
        20 => Command::History(HistoryCall::Redo),
        21 => Command::History(HistoryCall::GoTo(a)),
        22 => Command::History(HistoryCall::Commit),
        30 => Command::Ask(Question::FirstVertex),
        31 => Command::Ask(Question::NextVertex(a)),
        32 => Command::Ask(Question::FirstEdge),
        33 => Command::Ask(Question::NextEdge(a)),
        34 => Command::Ask(Question::FirstWord(a)),
        35 => Command::Ask(Question::NextWord(a)),
        36 => Command::Ask(Question::Alpha(a)),
        37 => Command::Ask(Question::Omega(a)),
        38 => Command::Ask(Question::This(a)),
        39 => Command::Ask(Question::That(a)),
        40 => Command::Ask(Question::VertexType(a)),
        41 => Command::Ask(Question::EdgeType(a)),
        42 => Command::Ask(Question::Value(a)),
        43 => Command::Ask(Question::ReadingKind(a)),
        44 => Command::Ask(Question::Decimetres(a)),
        45 => Command::Ask(Question::Degree(a, b, c)),
        46 => Command::Ask(Question::VertexOrder(a, b)),
        47 => Command::Ask(Question::EdgeOrder(a, b)),
        48 => Command::Ask(Question::WordOrder(a, b)),
        49 => Command::History(HistoryCall::Between(a, b)),
        50 => Command::History(HistoryCall::Standing),
        51 => Command::History(HistoryCall::Free),
        52 => Command::Ask(Question::Below(a, b)),
        53 => Command::Quote(PriceCall::Range(a, b)),
        54 => Command::Quote(PriceCall::Grade(a, b, c)),
        56 => Command::History(HistoryCall::NameMark(a, b, c)),
        57 => Command::History(HistoryCall::GoToName(a, b)),
        58 => Command::History(HistoryCall::SetBench(a)),
        59 => Command::History(HistoryCall::MadeBy(a, b, c)),
        _ => Command::Unknown,
    }
}

/// The command of one call's five words, which are a part of the list of calls. Words that are not there are 0, so that
/// no pattern of five words serves.
pub fn decode(words: &[u32]) -> Command
    ensures { result ≡ command_of (call_at words.now) }
{
    let k = get(words, 0);
    let a = get(words, 1);
    let b = get(words, 2);
    let c = get(words, 3);
    let d = get(words, 4);
    command_of(k, a, b, c, d)
}

/// The answer of an accepted call.
pub fn accepted(number: u32) -> Answer
    ensures { result ≡ accepts number }
{
    Answer { code: 0, number }
}

/// The answer of a refused call, of any code: what may not change, as pages name it so.
pub fn refused(code: u32) -> Answer
    ensures { result ≡ refuses code }
{
    Answer { code, number: 0 }
}

impl From<Result<u32, Refusal>> for Answer {
    ghost from_gives = { λ came answer. answer ≡ answer_by came };

    #[inline(always)]
    fn from(came: Result<u32, Refusal>) -> Answer {
        match came {
            Ok(number) => accepted(number),
            Err(refusal) => refused(refusal.code()),
        }
    }
}
