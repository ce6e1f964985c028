// Nodes in words, written one after the other into a slice that the caller lends. A node at a place takes 3 words and one for each child:
//
//     from       words    what
//     place      1        its operator
//     place + 1  1        its payload
//     place + 2  1        its child count
//     place + 3  count    its children
//
// The place behind it is the next node's. `words` and `spell` of language's specs/Term.antt say the same of plain nodes.
#![tactic(auto)]

ghost use Rattle.std.specs.Prelude.{◌≡◌, ◌+◌, ◌≤◌, length};
ghost use Rattle.language.specs.Term.{words};
ghost use Rattle.language.specs.Fitting.{term};
ghost use Rattle.spelling.specs.Puts.{Puts};
ghost use Rattle.spelling.specs.Alone.{SpellsOne};

use language::{Fit, put_kids};

mod given;

pub use given::node_of;

// How many words a node takes.
pub fn node_length(fit: Fit) -> usize
    ensures { (result ≡ length (words (term fit))) × (result ≡ 3 + fit.node.count) }
{
    3 + fit.node.count as usize
}

// A node's words from a place on; the answer is the place behind them. The whole slice is lent, with the place, since the promise speaks of all of it.
pub fn put_node(out: &mut [u32], at: usize, fit: Fit) -> usize
    requires { at + length (words (term fit)) ≤ length out.old }
    ensures { Puts out.old at fit result out.new }
{
    let Fit { node, .. } = fit;
    let n = node_length(fit);
    out[at..at + 3].copy_from_slice(&[node.op.0, node.payload, node.count]);
    put_kids(out, at + 3, fit);
    at + n
}

// One node's words at the start of a list. Where the list is too short for them it is left as it was.
pub fn spell_one(list: &mut [u32], fit: Fit) -> Option<usize>
    ensures { SpellsOne list.old fit.node result list.new }
{
    let n = node_length(fit);
    if list.len() < n {
        return None;
    }
    Some(put_node(list, 0, fit))
}
