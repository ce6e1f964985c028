// Two pupils' answers, 0.50 and 0.05, marked against the key 0.5 by the library's own calls, as a marker would make them.
// examples/half.script asks the same as a script.
//
// Any call may be refused, for want of room say. What rests on a refused call is not marked: a refusal says nothing about the answer.
// The sheet is marked twice, with room for 16 forms and with room for 5, where the last form of 0.50 does not fit.
//
// The words are an array of `main`'s. It is handed on by reference, and the calls that take the words as a slice stand in functions of
// their own: by reference a million words are proved as these are. With such a call in `main` itself the check still proves an array of
// 100,000 words, and runs out of stack at a million.
#![tactic(auto)]

ghost use Rattle.std.specs.Prelude.{Ok, None, Some, ◌≡◌, ◌≤◌, length};
ghost use Rattle.language.specs.Term.{places};
ghost use Rattle.marking.specs.Marks.{Added, AddedOver, Begun, Earned, Marked, RootSays, Stated, childless, mark_of};

use egraph::Refusal;
use language::{Id, Node, Op};
use std::{fmt, io};

// What 16 forms with 32 children in all need: 32 + 28 * 16 + 4 * 32.
const WORDS: usize = 608;

// The numbers of operators are the author's own: 1 is a digit, and its payload says which.
const DIGIT: Op = Op(1);

// 2 is what stands behind the point, and its children are the digits.
const PLACES: Op = Op(2);

// 3 is a decimal number, and its children are the digit before the point and what stands behind it.
const DECIMAL: Op = Op(3);

// What is said of an answer, where no call that the mark rests on was refused.
#[derive(Clone, Copy, PartialEq, Eq, Debug)]
enum Mark {
    Right,
    Wrong,
}

impl fmt::Display for Mark {
    fn fmt<W: fmt::Write>(&self, f: &mut fmt::Formatter<W>) -> fmt::Result {
        match self {
            Mark::Right => write!(f, "right"),
            Mark::Wrong => write!(f, "wrong"),
        }
    }
}

// The marks of 0.50 and of 0.05, where they could be given.
#[derive(Clone, Copy, Default)]
struct Marks {
    careful: Option<Mark>,
    mistaken: Option<Mark>,
}

// A form without children.
fn leaf(ws: &mut [u32; WORDS], op: Op, payload: u32) -> Result<Id, Refusal>
    ensures { Added (childless op.0 payload) ws.old result ws.new }
{
    egraph::add(ws, Node::leaf(op, payload))
}

// A form over others. What `add` answered of each, an id or a refusal, is handed in as it is: a form over a refused one is refused too.
fn over(ws: &mut [u32; WORDS], op: Op, children: &[Result<Id, Refusal>]) -> Result<Id, Refusal>
    requires { length children.now ≤ places }
    ensures { AddedOver ws.old (childless op.0 0) children.now result ws.new }
{
    let mut node = Node::leaf(op, 0);
    for child in children {
        let id = (*child)?;
        node = node.with(id);
    }
    egraph::add(ws, node)
}

// The author states that two forms are equal, and what follows is drawn.
fn state(
    ws: &mut [u32; WORDS],
    one: Result<Id, Refusal>,
    other: Result<Id, Refusal>,
) -> Result<(), Refusal>
    ensures { result ≡ Ok tt → Stated ws.old ws.new }
{
    egraph::union(ws, one?, other?)?;
    egraph::rebuild(ws)?;
    Ok(())
}

// The root of a form's class; of a refused form its refusal.
fn root(ws: &[u32; WORDS], form: Result<Id, Refusal>) -> Result<Id, Refusal>
    ensures { RootSays ws.now form result }
{
    egraph::find(ws, form?)
}

// Right where both have one root, wrong where they have two, and no mark where either was refused. So `==` of the two answers does not say it: two
// refusals may be equal.
fn compare(answer: Result<Id, Refusal>, key: Result<Id, Refusal>) -> Option<Mark>
    ensures { result ≡ mark_of answer key }
{
    if answer.ok()? == key.ok()? {
        return Some(Mark::Right);
    }
    Some(Mark::Wrong)
}

fn mark_answer(
    ws: &[u32; WORDS],
    answer: Result<Id, Refusal>,
    key: Result<Id, Refusal>,
) -> Option<Mark>
    ensures { Marked ws.now answer key result }
{
    compare(root(ws, answer), root(ws, key))
}

// Marks both answers in words that were set up. Without the author's statement a right answer may look wrong: where it was refused, neither
// is marked.
fn mark_both(ws: &mut [u32; WORDS]) -> Marks
    requires { Begun ws.old }
    ensures { Earned result.careful × Earned result.mistaken }
{
    let zero = leaf(ws, DIGIT, 0);
    let five = leaf(ws, DIGIT, 5);
    let half = over(ws, PLACES, &[five]);
    let key = over(ws, DECIMAL, &[zero, half]);
    let padded = over(ws, PLACES, &[five, zero]);
    let careful = over(ws, DECIMAL, &[zero, padded]);
    let small = over(ws, PLACES, &[zero, five]);
    let mistaken = over(ws, DECIMAL, &[zero, small]);
    match state(ws, half, padded) {
        Ok(()) => Marks {
            careful: mark_answer(ws, careful, key),
            mistaken: mark_answer(ws, mistaken, key),
        },
        Err(_) => Marks::default(),
    }
}

// Marks the sheet with room for n forms: a limit of the graph, and not how many words there are.
fn mark_sheet(ws: &mut [u32; WORDS], n: usize) -> Marks
    ensures { Earned result.careful × Earned result.mistaken }
{
    match egraph::setup(ws, n, 32) {
        Ok(()) => mark_both(ws),
        Err(_) => Marks::default(),
    }
}

fn say(rt: &impl Print, answer: &str, mark: Option<Mark>) -> io::Result<()> {
    match mark {
        Some(m) => println!(rt; "{answer} is {m}"),
        None => println!(rt; "{answer} is not marked"),
    }
}

fn tell(rt: &impl Print, marks: Marks) -> io::Result<()> {
    say(rt, "0.50", marks.careful)?;
    say(rt, "0.05", marks.mistaken)
}

fn main(rt: HostRuntime) -> io::Result<()> {
    let mut ws = [0u32; WORDS];
    println!(rt; "With room for 16 forms:")?;
    tell(&rt, mark_sheet(&mut ws, 16))?;
    println!(rt; "With room for 5 forms:")?;
    tell(&rt, mark_sheet(&mut ws, 5))
}
