// Calls on the classes of a clean graph: `total_number_of_nodes`, `classes_for_op`, `classes`.
ghost use Rattle.egraph.specs.Answers.{AsGraph, OpensClean};
ghost use Rattle.egraph.specs.ClassLists.{ClassesSays, ForOpSays, PiecesSay, TotalSays};

use super::{Refusal, open};
use eclass::{Classes, Having, Piece, Whole};
use language::Op;
use layout::Graph;

// The words as a graph that is clean.
fn open_clean(ws: &[u32]) -> Result<Graph<'_>, Refusal>
    ensures { AsGraph (OpensClean ws.now) ws.now result }
{
    let g = open(ws)?;
    if !g.h.clean {
        return Err(Refusal::NotRebuilt);
    }
    Ok(g)
}

// How many nodes the classes have, each class's counted once.
pub fn total_number_of_nodes(ws: &[u32]) -> Result<usize, Refusal>
    ensures { TotalSays ws.now result }
{
    let g = open_clean(ws)?;
    let total = eclass::count_nodes(&g)?;
    Ok(total)
}

// A list of the classes, of whichever list of the graph its pieces make.
fn list_pieces<P: Piece>(ws: &[u32], list: &P, out: &mut [u32]) -> Result<usize, Refusal>
    ensures { PiecesSay (P.piece list.now) ws.now out.old result out.new }
{
    let g = open_clean(ws)?;
    let classes = Classes::of(&g)?;
    let k = classes.measure(list);
    if out.len() < k {
        return Err(Refusal::TooLong);
    }
    Ok(classes.put(list, out))
}

// The roots of the classes that have a node with this operator; an operator that was never added gives an empty list.
pub fn classes_for_op(ws: &[u32], op: Op, out: &mut [u32]) -> Result<usize, Refusal>
    ensures { ForOpSays ws.now op.0 out.old result out.new }
{
    list_pieces(ws, &Having(op), out)
}

// All classes in ascending root id, in words: for each its root, its number of nodes, and these nodes.
pub fn classes(ws: &[u32], out: &mut [u32]) -> Result<usize, Refusal>
    ensures { ClassesSays ws.now out.old result out.new }
{
    list_pieces(ws, &Whole, out)
}
