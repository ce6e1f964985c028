// The calls that change a graph.
ghost use Rattle.egraph.specs.Adds.{AddSays, UncanonicalSays};
ghost use Rattle.egraph.specs.Answers.{id_says, count_says, flag_says};
ghost use Rattle.egraph.specs.Rebuilds.{RebuildSays};
ghost use Rattle.egraph.specs.Unions.{UnionSays};
ghost use Rattle.capi.specs.Answered.{Answered, AnsweredNode};

use super::Reply;
use language::Id;

// The root of the node's class.
#[unsafe(no_mangle)]
pub extern "C" fn rimo_add(ws: &mut [u32], op: u32, payload: u32, kids: &[u32]) -> Reply
    ensures { AnsweredNode op payload kids.now (λ x a. AddSays ws.old x a ws.new) id_says result }
{
    Reply::from(egraph::add(ws, spelling::node_of(op, payload, kids)))
}

// The id that the node has, which need not be a root.
#[unsafe(no_mangle)]
pub extern "C" fn rimo_add_uncanonical(ws: &mut [u32], op: u32, payload: u32, kids: &[u32]) -> Reply
    ensures { AnsweredNode op payload kids.now (λ x a. UncanonicalSays ws.old x a ws.new) id_says result }
{
    Reply::from(egraph::add_uncanonical(ws, spelling::node_of(op, payload, kids)))
}

// 1 where this joined two classes, 0 where the two ids were of one class before.
#[unsafe(no_mangle)]
pub extern "C" fn rimo_union(ws: &mut [u32], id1: u32, id2: u32) -> Reply
    ensures { Answered (λ a. UnionSays ws.old id1 id2 a ws.new) flag_says result }
{
    Reply::from(egraph::union(ws, Id(id1), Id(id2)))
}

// How many of the unions that it made joined two classes.
#[unsafe(no_mangle)]
pub extern "C" fn rimo_rebuild(ws: &mut [u32]) -> Reply
    ensures { Answered (λ a. RebuildSays ws.old a ws.new) count_says result }
{
    Reply::from(egraph::rebuild(ws))
}
