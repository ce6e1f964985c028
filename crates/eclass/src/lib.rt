// The classes of a clean graph, read from its words: how many nodes they have, which of them have an operator, and all of them as words. Nothing is written
// but the slice that the caller lends for a list. These parts of the words are read (layout has their table):
//
//   part      what is read of it
//   members   list r: the ids that stand for the nodes of the class of root r; the list of an id that is no root is empty
//   rows      the key of each of these ids: its node with root children
//
// A list of members is read backwards from its last id. On any words each walk ends: `check` says whether all of them together are no longer than there are
// ids and meet only ids, and a `Classes` is a graph of which it said so. What each function promises: specs/.
#![tactic(auto)]

ghost use Rattle.std.specs.Prelude.{◌<◌, is_ok, length};
ghost use Rattle.lists.specs.Tests.{Says};
ghost use Rattle.layout.specs.Head.{HeadOk};
ghost use Rattle.layout.specs.Seen.{seen};
ghost use Rattle.eclass.specs.Checks.{FineId, FineIn, Totals, UnbrokenIn};

use broken::Broken;
use language::Id;
use layout::Graph;

// How many members all lists have: one for each node of a class.
pub fn count_nodes(g: &Graph<'_>) -> Result<usize, Broken>
    ensures { Totals (seen g.now).members g.now.h.n g.now.h.ids result }
{
    let mut total = 0;
    for i in 0..g.h.ids {
        let k = parts::on_members::len(g, Id(i as u32));
        // each id stands in one list at most
        if g.h.ids - total < k {
            return Err(Broken);
        }
        total += k;
    }
    Ok(total)
}

// What a walk may meet: one of the ids, with a row that is within bounds.
fn check_id(g: &Graph<'_>, id: Id) -> Result<(), Broken>
    ensures { Says (is_ok result) (FineId (seen g.now).rows g.now.h.n g.now.h.m g.now.h.ids id.0) }
{
    if g.h.ids <= id.0 as usize {
        return Err(Broken);
    }
    parts::on_rows::key(g, id)?;
    Ok(())
}

// The walk over the list of an id, which is to be unbroken.
// `Members` asks for a walk that is unbroken, so this one is made step by step. An iterator that may refuse, as `ClassNodes` of egraph, would be these lines
// as its `next`, with a definition of its items, for this one loop.
fn check_class(g: &Graph<'_>, r: Id) -> Result<(), Broken>
    requires { r.0 < g.now.h.ids }
    ensures { Says (is_ok result) (FineIn g.now.h g.now.ws.now r.0) }
{
    let size = parts::on_members::len(g, r);
    let mut id = parts::on_members::last(g, r);
    for passed in 0..size {
        check_id(g, id)?;
        id = parts::on_members::link(g, id);
    }
    Ok(())
}

// All walks, which are to be unbroken, and together no longer than there are ids.
fn check(g: &Graph<'_>) -> Result<(), Broken>
    ensures { Says (is_ok result) (UnbrokenIn g.now.h g.now.ws.now) }
{
    count_nodes(g)?;
    for i in 0..g.h.ids {
        check_class(g, Id(i as u32))?;
    }
    Ok(())
}

mod classes;
mod listing;
mod members;
mod ops;
mod pieces;

pub use classes::Classes;
pub use listing::Whole;
pub use ops::Having;
pub use pieces::Piece;
