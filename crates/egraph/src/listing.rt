// Calls that hand out stored nodes as they were given: `id_to_node`, the node of one id, and `nodes`, all of them, in words. `spell_node` is no
// open call: it is `id_to_node` for those who answer a node as a list of words.
ghost use Rattle.std.specs.Prelude.{◌<◌, ◌≤◌, length};
ghost use Rattle.language.specs.Term.{spell};
ghost use Rattle.layout.specs.Seen.{seen};
ghost use Rattle.egraph.specs.Stored.{stored};
ghost use Rattle.egraph.specs.Listing.{NodeSays, NodeSpelled, RowWords, Measured, NodesSays};
ghost use Rattle.spelling.specs.Pieces.{Wrote};

use super::{Refusal, open, open_known};
use language::{Id, Node};
use layout::Graph;

// The node of an id, as it was given.
pub fn id_to_node(ws: &[u32], id: Id) -> Result<Node, Refusal>
    ensures { NodeSays ws.now id.0 result }
{
    let g = open_known(ws, id)?;
    let given = parts::on_rows::given(&g, id)?;
    Ok(given.node)
}

// The node of an id as words at the start of a list, how many these are, or why not. It is refused by 8 like the other lists, where the slice is too short.
pub fn spell_node(ws: &[u32], id: Id, list: &mut [u32]) -> Result<usize, Refusal>
    ensures { NodeSpelled ws.now id.0 list.old result list.new }
{
    let fit = id_to_node(ws, id)?.fit().unwrap();
    spelling::spell_one(list, fit).ok_or(Refusal::TooLong)
}

// How many words the node of an id takes.
fn row_words(g: &Graph<'_>, id: Id) -> Result<usize, Refusal>
    requires { id.0 < g.now.h.ids }
    ensures { RowWords (seen g.now).rows g.now.h.n g.now.h.m id.0 result }
{
    let given = parts::on_rows::given(g, id)?;
    Ok(spelling::node_length(given))
}

// How many words all stored nodes take, where no row is broken.
fn measure(g: &Graph<'_>) -> Result<usize, Refusal>
    ensures { Measured (seen g.now).rows g.now.h.n g.now.h.m g.now.h.ids result }
{
    let mut total: usize = 0;
    for i in 0..g.h.ids {
        total += row_words(g, Id(i as u32))?;
    }
    Ok(total)
}

// All stored nodes, one after the other.
fn put_nodes(g: &Graph<'_>, out: &mut [u32]) -> usize
    requires { length (spell (stored (seen g.now).rows g.now.h.n g.now.h.m g.now.h.ids)) ≤ length out.old }
    ensures { Wrote out.old 0 (spell (stored (seen g.now).rows g.now.h.n g.now.h.m g.now.h.ids)) result out.new }
{
    let mut at: usize = 0;
    for i in 0..g.h.ids {
        let given = parts::on_rows::given_or_leaf(g, Id(i as u32));
        at = spelling::put_node(out, at, given);
    }
    at
}

// The stored nodes in id order, in words. No `Piece` of eclass says what these words are, though `list_pieces` has the same steps: the rows of a graph that is
// not clean are listed too, whose walks over classes nothing has looked at.
pub fn nodes(ws: &[u32], out: &mut [u32]) -> Result<usize, Refusal>
    ensures { NodesSays ws.now out.old result out.new }
{
    let g = open(ws)?;
    let k = measure(&g)?;
    if out.len() < k {
        return Err(Refusal::TooLong);
    }
    Ok(put_nodes(&g, out))
}
