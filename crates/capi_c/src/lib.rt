// The library for C, as an archive: each open call of `capi` exported under its name, with the same promise. include/rimodaveck.h declares
// these functions, and bindings/test holds that page against this crate, declaration by declaration. What each call answers is said in `capi`,
// whose `Reply` every call but rimo_need answers.
//
// No call has a `requires`. What a caller in C owes is what Rattle reads off a signature and C cannot show: a slice's pointer leads to as many
// words as its length says, aligned to four bytes, and no word that one argument may write is reached by another.
#![tactic(auto)]

ghost use Rattle.capi.specs.Answered.{Answered, AnsweredNode};
ghost use Rattle.capi.specs.Needs.{Needs};
ghost use Rattle.capi.specs.NodeTold.{AnsweredWords};
ghost use Rattle.egraph.specs.Adds.{AddSays, LookupSays, UncanonicalSays};
ghost use Rattle.egraph.specs.Answers.{id_says, count_says, flag_says, lookup_says, setup_says};
ghost use Rattle.egraph.specs.ClassLists.{ClassesSays, ForOpSays, TotalSays};
ghost use Rattle.egraph.specs.Listing.{NodesSays};
ghost use Rattle.egraph.specs.Reads.{CleanSays, CountSays, EmptySays, FindSays};
ghost use Rattle.egraph.specs.Rebuilds.{RebuildSays};
ghost use Rattle.egraph.specs.Setup.{SetupSays};
ghost use Rattle.egraph.specs.Unions.{UnionSays};
ghost use Rattle.extract.specs.Cost.{CostSays};
ghost use Rattle.extract.specs.Form.{form_says, FormSays};

use capi::Reply;

// The room that a graph needs, and a fresh graph in it: the limits n and m go beside the words, since a caller may lend more words than they need.

#[unsafe(no_mangle)]
pub extern "C" fn rimo_need(n: usize, m: usize) -> usize
    ensures { Needs n m result }
{
    capi::room::rimo_need(n, m)
}

#[unsafe(no_mangle)]
pub extern "C" fn rimo_setup(ws: &mut [u32], n: usize, m: usize) -> Reply
    ensures { Answered (λ a. SetupSays ws.old n m a ws.new) setup_says result }
{
    capi::room::rimo_setup(ws, n, m)
}

// The calls that change a graph.

#[unsafe(no_mangle)]
pub extern "C" fn rimo_add(ws: &mut [u32], op: u32, payload: u32, kids: &[u32]) -> Reply
    ensures { AnsweredNode op payload kids.now (λ x a. AddSays ws.old x a ws.new) id_says result }
{
    capi::changes::rimo_add(ws, op, payload, kids)
}

#[unsafe(no_mangle)]
pub extern "C" fn rimo_add_uncanonical(ws: &mut [u32], op: u32, payload: u32, kids: &[u32]) -> Reply
    ensures { AnsweredNode op payload kids.now (λ x a. UncanonicalSays ws.old x a ws.new) id_says result }
{
    capi::changes::rimo_add_uncanonical(ws, op, payload, kids)
}

#[unsafe(no_mangle)]
pub extern "C" fn rimo_union(ws: &mut [u32], id1: u32, id2: u32) -> Reply
    ensures { Answered (λ a. UnionSays ws.old id1 id2 a ws.new) flag_says result }
{
    capi::changes::rimo_union(ws, id1, id2)
}

#[unsafe(no_mangle)]
pub extern "C" fn rimo_rebuild(ws: &mut [u32]) -> Reply
    ensures { Answered (λ a. RebuildSays ws.old a ws.new) count_says result }
{
    capi::changes::rimo_rebuild(ws)
}

// The calls that answer one number and change nothing.

#[unsafe(no_mangle)]
pub extern "C" fn rimo_lookup(ws: &[u32], op: u32, payload: u32, kids: &[u32]) -> Reply
    ensures { AnsweredNode op payload kids.now (λ x a. LookupSays ws.now x a) lookup_says result }
{
    capi::reads::rimo_lookup(ws, op, payload, kids)
}

#[unsafe(no_mangle)]
pub extern "C" fn rimo_find(ws: &[u32], id: u32) -> Reply
    ensures { Answered (FindSays ws.now id) id_says result }
{
    capi::reads::rimo_find(ws, id)
}

#[unsafe(no_mangle)]
pub extern "C" fn rimo_is_empty(ws: &[u32]) -> Reply
    ensures { Answered (EmptySays ws.now) flag_says result }
{
    capi::reads::rimo_is_empty(ws)
}

#[unsafe(no_mangle)]
pub extern "C" fn rimo_clean(ws: &[u32]) -> Reply
    ensures { Answered (CleanSays ws.now) flag_says result }
{
    capi::reads::rimo_clean(ws)
}

#[unsafe(no_mangle)]
pub extern "C" fn rimo_number_of_classes(ws: &[u32]) -> Reply
    ensures { Answered (CountSays ws.now) count_says result }
{
    capi::reads::rimo_number_of_classes(ws)
}

#[unsafe(no_mangle)]
pub extern "C" fn rimo_total_number_of_nodes(ws: &[u32]) -> Reply
    ensures { Answered (TotalSays ws.now) count_says result }
{
    capi::reads::rimo_total_number_of_nodes(ws)
}

// The calls that write a list of words at the start of a lent slice; the value is how many they wrote.

#[unsafe(no_mangle)]
pub extern "C" fn rimo_classes(ws: &[u32], list: &mut [u32]) -> Reply
    ensures { Answered (λ a. ClassesSays ws.now list.old a list.new) count_says result }
{
    capi::listing::rimo_classes(ws, list)
}

#[unsafe(no_mangle)]
pub extern "C" fn rimo_classes_for_op(ws: &[u32], op: u32, list: &mut [u32]) -> Reply
    ensures { Answered (λ a. ForOpSays ws.now op list.old a list.new) count_says result }
{
    capi::listing::rimo_classes_for_op(ws, op, list)
}

#[unsafe(no_mangle)]
pub extern "C" fn rimo_nodes(ws: &[u32], list: &mut [u32]) -> Reply
    ensures { Answered (λ a. NodesSays ws.now list.old a list.new) count_says result }
{
    capi::listing::rimo_nodes(ws, list)
}

#[unsafe(no_mangle)]
pub extern "C" fn rimo_id_to_node(ws: &[u32], id: u32, list: &mut [u32]) -> Reply
    ensures { AnsweredWords ws.now id list.old result list.new }
{
    capi::listing::rimo_id_to_node(ws, id, list)
}

// Sizes and cheapest forms.

#[unsafe(no_mangle)]
pub extern "C" fn rimo_find_best_cost(ws: &mut [u32], id: u32) -> Reply
    ensures { Answered (λ a. CostSays ws.old id a ws.new) count_says result }
{
    capi::sizes::rimo_find_best_cost(ws, id)
}

#[unsafe(no_mangle)]
pub extern "C" fn rimo_find_best(ws: &mut [u32], id: u32, list: &mut [u32]) -> Reply
    ensures { Answered (λ a. FormSays ws.old id list.old a ws.new list.new) form_says result }
{
    capi::sizes::rimo_find_best(ws, id, list)
}
