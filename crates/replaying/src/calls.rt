// One call made, and what it answered as a reply; the words of a list or a form stand at the start of `list`.
ghost use Rattle.std.specs.Prelude.{◌≤◌};
ghost use Rattle.spelling.specs.Given.{GivenNode};
ghost use Rattle.replaying.specs.Calls.{MadeBy, Sound, kids_of, number};

use super::Told;
use super::replies::{Words, plain};
use language::{Id, Node, Op};
use script::{Call, Reply, Verb};

// The node of a call that takes one.
fn node_of(call: Call) -> Node
    requires { 2 ≤ call.count }
    ensures { GivenNode (number call 0) (number call 1) (kids_of call.count call.numbers) result }
{
    let n = call.numbers;
    spelling::node_of(n[0], n[1], &n[2..call.count])
}

// One call.
pub fn make(ws: &mut [u32], list: &mut [u32], call: Call) -> Told
    requires { Sound call }
    ensures { MadeBy call.verb call ws.old list.old result ws.new list.new }
{
    let n = call.numbers;
    match call.verb {
        Verb::Skip => plain(Reply::Skip),
        Verb::Bad => plain(Reply::Bad),
        Verb::Setup => Told::from(egraph::setup(ws, n[0] as usize, n[1] as usize)),
        Verb::Add => Told::from(egraph::add(ws, node_of(call))),
        Verb::AddUncanonical => Told::from(egraph::add_uncanonical(ws, node_of(call))),
        Verb::Lookup => Told::from(egraph::lookup(ws, node_of(call))),
        Verb::Find => Told::from(egraph::find(ws, Id(n[0]))),
        Verb::Union => Told::from(egraph::union(ws, Id(n[0]), Id(n[1]))),
        Verb::Rebuild => Told::from(egraph::rebuild(ws)),
        Verb::Nodes => Told::from(egraph::nodes(ws, list).map(Words)),
        Verb::IdToNode => Told::from(egraph::spell_node(ws, Id(n[0]), list).map(Words)),
        Verb::IsEmpty => Told::from(egraph::is_empty(ws)),
        Verb::Clean => Told::from(egraph::clean(ws)),
        Verb::NumberOfClasses => Told::from(egraph::number_of_classes(ws)),
        Verb::Classes => Told::from(egraph::classes(ws, list).map(Words)),
        Verb::ClassesForOp => Told::from(egraph::classes_for_op(ws, Op(n[0]), list).map(Words)),
        Verb::TotalNumberOfNodes => Told::from(egraph::total_number_of_nodes(ws)),
        Verb::FindBestCost => Told::from(extract::find_best_cost(ws, Id(n[0]))),
        Verb::FindBest => Told::from(extract::find_best(ws, Id(n[0]), list)),
    }
}
