// One line of a script of calls, and the line that answers it. A call is a verb and its numbers, separated by one space; specs/Line.antt says what each line
// means, specs/Reply.antt what each answer's line is, byte for byte. Nothing here knows a graph: a program reads lines, hands `parse` each, makes the call,
// and hands what it answered to `put_reply`.
#![tactic(auto)]

ghost use Rattle.std.specs.Prelude.{◌≤◌};
ghost use Rattle.script.specs.Fields.{most_numbers};

// A line of more bytes is no call.
const LONGEST: usize = 4096;

// A line of more numbers is no call: room for 22 children, of which more than eight are refused by the call.
pub const NUMBERS: usize = 24;

// The names of the calls are the Rust's. A line that is to be passed over is Skip; one that is no call is Bad. They are verbs, and no enum around a `Call`,
// since `parse` answers a `Call` of any line (docs/PROMISES.md), and what `line_of` of specs/Line.antt says has a verb for each line.
#[derive(Clone, Copy, Debug, PartialEq, Eq)]
pub enum Verb {
    Setup,
    Add,
    AddUncanonical,
    Lookup,
    Find,
    Union,
    Rebuild,
    Classes,
    ClassesForOp,
    Nodes,
    IdToNode,
    IsEmpty,
    Clean,
    NumberOfClasses,
    TotalNumberOfNodes,
    FindBestCost,
    FindBest,
    Skip,
    Bad,
}

// A call: its verb, and the first `count` of `numbers`; the places past them mean nothing. No vector of a fixed
// capacity, which has no heap either: it is no `Copy` as a `Call` is, and `Says` (what `parse` promises) and `MadeBy` of replaying speak of both fields.
#[derive(Clone, Copy)]
pub struct Call {
    pub verb: Verb,
    pub count: usize,
    pub numbers: [u32; NUMBERS],
    pub ghost few: { count ≤ most_numbers },
}

// What a call answered, for the line that says so. The words of a list or a form stand in a slice beside it, as `put_reply` takes them (docs/PROMISES.md).
#[derive(Clone, Copy, Debug, PartialEq, Eq)]
pub enum Reply {
    Done,
    Number(u64),
    Yes,
    No,
    None,
    Words,
    Sized(u64),
    Refused(u32),
    Bad,
    Skip,
}

// A verb, and the least and the most numbers that it takes.
#[derive(Clone, Copy)]
struct Shape {
    verb: Verb,
    least: usize,
    most: usize,
}

mod fields;
mod lines;
mod replies;
mod verbs;

pub use lines::{keep, parse};
pub use replies::put_reply;
