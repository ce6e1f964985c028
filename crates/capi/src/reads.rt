// The calls that answer one number and change nothing.
ghost use Rattle.egraph.specs.Adds.{LookupSays};
ghost use Rattle.egraph.specs.Answers.{count_says, id_says, flag_says, lookup_says};
ghost use Rattle.egraph.specs.ClassLists.{TotalSays};
ghost use Rattle.egraph.specs.Reads.{CleanSays, CountSays, EmptySays, FindSays};
ghost use Rattle.capi.specs.Answered.{Answered, AnsweredNode};

use super::Reply;
use language::Id;

// The root of the node's class; no value where the table has no such node.
#[unsafe(no_mangle)]
pub extern "C" fn rimo_lookup(ws: &[u32], op: u32, payload: u32, kids: &[u32]) -> Reply
    ensures { AnsweredNode op payload kids.now (λ x a. LookupSays ws.now x a) lookup_says result }
{
    Reply::from(egraph::lookup(ws, spelling::node_of(op, payload, kids)))
}

// The root of the id's class.
#[unsafe(no_mangle)]
pub extern "C" fn rimo_find(ws: &[u32], id: u32) -> Reply
    ensures { Answered (FindSays ws.now id) id_says result }
{
    Reply::from(egraph::find(ws, Id(id)))
}

// 1 or 0.
#[unsafe(no_mangle)]
pub extern "C" fn rimo_is_empty(ws: &[u32]) -> Reply
    ensures { Answered (EmptySays ws.now) flag_says result }
{
    Reply::from(egraph::is_empty(ws))
}

// 1 or 0.
#[unsafe(no_mangle)]
pub extern "C" fn rimo_clean(ws: &[u32]) -> Reply
    ensures { Answered (CleanSays ws.now) flag_says result }
{
    Reply::from(egraph::clean(ws))
}

#[unsafe(no_mangle)]
pub extern "C" fn rimo_number_of_classes(ws: &[u32]) -> Reply
    ensures { Answered (CountSays ws.now) count_says result }
{
    Reply::from(egraph::number_of_classes(ws))
}

#[unsafe(no_mangle)]
pub extern "C" fn rimo_total_number_of_nodes(ws: &[u32]) -> Reply
    ensures { Answered (TotalSays ws.now) count_says result }
{
    Reply::from(egraph::total_number_of_nodes(ws))
}
