// Each open call, with small arguments as they are drawn: whether it was refused, and why.
ghost use Rattle.std.specs.Prelude.{◌<◌};

use super::building::some_node;
use super::words::{draw, draw_word, next};
use egraph::Refusal;
use language::{Id, Node, Op};

// An open call; `keeps_words` tells those that only read the graph from those that write it. Not script's `Verb`, which names the same calls: two of its
// values are lines that are no call, and its names stand in a table of its parser's.
#[derive(Clone, Copy, PartialEq, Eq)]
pub enum Call {
    Find,
    Lookup,
    IdToNode,
    IsEmpty,
    Clean,
    NumberOfClasses,
    TotalNumberOfNodes,
    Setup,
    Add,
    AddUncanonical,
    Union,
    Rebuild,
    FindBestCost,
    Classes,
    ClassesForOp,
    Nodes,
    FindBest,
}

// All of them with their names, in the order in which the program writes them.
pub const CALLS: [(&str, Call); 17] = [
    ("find", Call::Find),
    ("lookup", Call::Lookup),
    ("id_to_node", Call::IdToNode),
    ("is_empty", Call::IsEmpty),
    ("clean", Call::Clean),
    ("number_of_classes", Call::NumberOfClasses),
    ("total_number_of_nodes", Call::TotalNumberOfNodes),
    ("setup", Call::Setup),
    ("add", Call::Add),
    ("add_uncanonical", Call::AddUncanonical),
    ("union", Call::Union),
    ("rebuild", Call::Rebuild),
    ("find_best_cost", Call::FindBestCost),
    ("classes", Call::Classes),
    ("classes_for_op", Call::ClassesForOp),
    ("nodes", Call::Nodes),
    ("find_best", Call::FindBest),
];

fn id(seed: u64) -> Id {
    Id(draw_word(seed, 40, 10))
}

fn op(seed: u64) -> Op {
    Op(draw_word(seed, 44, 5))
}

// A node that may have more children than there are places in its row.
fn node(seed: u64) -> Node {
    let mut node = some_node(next(seed));
    if draw(seed, 41, 16) == 0 {
        node.count = 9;
    }
    node
}

// The limits of a setup, which may be 0.
pub fn limit_ids(seed: u64) -> u32
    ensures { result < 14 }
{
    draw_word(seed, 42, 14)
}

pub fn limit_places(seed: u64) -> u32
    ensures { result < 26 }
{
    draw_word(seed, 43, 26)
}

// Document 01's case O: `find` on no words at all.
pub fn find_in_no_words() -> Result<(), Refusal> {
    let ws = [0u32; 1];
    egraph::find(&ws[..0], id(0)).map(drop)
}

fn setup(ws: &mut [u32], seed: u64) -> Result<(), Refusal> {
    let n = limit_ids(seed) as usize;
    let m = limit_places(seed) as usize;
    egraph::setup(ws, n, m)
}

impl Call {
    // Whether a call changes no word of the graph, whatever it answers.
    pub fn keeps_words(self) -> bool {
        !matches!(
            self,
            Call::Setup | Call::Add | Call::AddUncanonical | Call::Union | Call::Rebuild
        )
    }

    // What it answers on these words, with arguments that the seed gives; `out` is the slice for a list.
    pub fn answer(self, ws: &mut [u32], out: &mut [u32], seed: u64) -> Result<(), Refusal> {
        match self {
            Call::Find => egraph::find(ws, id(seed)).map(drop),
            Call::Lookup => egraph::lookup(ws, node(seed)).map(drop),
            Call::IdToNode => egraph::id_to_node(ws, id(seed)).map(drop),
            Call::IsEmpty => egraph::is_empty(ws).map(drop),
            Call::Clean => egraph::clean(ws).map(drop),
            Call::NumberOfClasses => egraph::number_of_classes(ws).map(drop),
            Call::TotalNumberOfNodes => egraph::total_number_of_nodes(ws).map(drop),
            Call::Setup => setup(ws, seed),
            Call::Add => egraph::add(ws, node(seed)).map(drop),
            Call::AddUncanonical => egraph::add_uncanonical(ws, node(seed)).map(drop),
            Call::Union => egraph::union(ws, id(seed), id(next(seed))).map(drop),
            Call::Rebuild => egraph::rebuild(ws).map(drop),
            Call::FindBestCost => extract::find_best_cost(ws, id(seed)).map(drop),
            Call::Classes => egraph::classes(ws, out).map(drop),
            Call::ClassesForOp => egraph::classes_for_op(ws, op(seed), out).map(drop),
            Call::Nodes => egraph::nodes(ws, out).map(drop),
            Call::FindBest => extract::find_best(ws, id(seed), out).map(drop),
        }
    }
}
