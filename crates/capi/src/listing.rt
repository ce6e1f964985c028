// The calls that write a list of words at the start of a lent slice; the value is how many they wrote.
ghost use Rattle.egraph.specs.Answers.{count_says};
ghost use Rattle.egraph.specs.ClassLists.{ClassesSays, ForOpSays};
ghost use Rattle.egraph.specs.Listing.{NodesSays};
ghost use Rattle.capi.specs.Answered.{Answered};
ghost use Rattle.capi.specs.NodeTold.{AnsweredWords};

use super::Reply;
use language::{Id, Op};

#[unsafe(no_mangle)]
pub extern "C" fn rimo_classes(ws: &[u32], list: &mut [u32]) -> Reply
    ensures { Answered (λ a. ClassesSays ws.now list.old a list.new) count_says result }
{
    Reply::from(egraph::classes(ws, list))
}

#[unsafe(no_mangle)]
pub extern "C" fn rimo_classes_for_op(ws: &[u32], op: u32, list: &mut [u32]) -> Reply
    ensures { Answered (λ a. ForOpSays ws.now op list.old a list.new) count_says result }
{
    Reply::from(egraph::classes_for_op(ws, Op(op), list))
}

#[unsafe(no_mangle)]
pub extern "C" fn rimo_nodes(ws: &[u32], list: &mut [u32]) -> Reply
    ensures { Answered (λ a. NodesSays ws.now list.old a list.new) count_says result }
{
    Reply::from(egraph::nodes(ws, list))
}

// The node of an id is a list of its words here, and is refused by 8 like the other lists, where the slice is too short.
#[unsafe(no_mangle)]
pub extern "C" fn rimo_id_to_node(ws: &[u32], id: u32, list: &mut [u32]) -> Reply
    ensures { AnsweredWords ws.now id list.old result list.new }
{
    Reply::from(egraph::spell_node(ws, Id(id), list))
}
