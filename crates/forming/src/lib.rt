// A cheapest form, written out from its listing in the scratch part (document 01, "The price of a form"): how many words it takes, and the words, in a slice
// that the caller lends. The words are a clean graph's, and k classes are listed; only the slice is written. Of the scratch part are read:
//
//   words of scratch   what
//   0 to 3n - 1        the entry of class c (pricing): an id that has its chosen node
//   3n + c             its place in the listing: 1 and the place
//   4n + p             the class at place p
//
// and of the graph, by the promise of `egraph`, the node of an id with root children. On any words a place that leads nowhere makes `measure_form` answer
// broken; `put_form` asks that there is none.
#![tactic(auto)]

ghost use Rattle.std.specs.Prelude.{ℕ, ◌+◌, ◌<◌, ◌≤◌, length};
ghost use Rattle.language.specs.Fitting.{term};
ghost use Rattle.layout.specs.Head.{HeadOk};
ghost use Rattle.layout.specs.Seen.{seen};
ghost use Rattle.spelling.specs.Pieces.{Wrote, pieces};
ghost use Rattle.forming.specs.Placed.{Place, WithPlaces};
ghost use Rattle.forming.specs.FormNode.{ChosenAt, FineNode, NodeAt, form_piece};
ghost use Rattle.forming.specs.Form.{FormMeasured};

use broken::Broken;
use language::{Fit, Id};
use layout::Graph;

// ---- one node

// The place of a class.
fn place(g: &Graph<'_>, c: Id) -> Result<Id, Broken>
    ensures { Place g.now.h.n (seen g.now).scratch c.0 result }
{
    if g.h.n <= c.0 as usize {
        return Err(Broken);
    }
    let place = pricing::place_of(g, c).ok_or(Broken)?;
    Ok(Id(place as u32))
}

// The node with each child replaced by the place of its class.
fn with_places(g: &Graph<'_>, fit: Fit) -> Result<Fit, Broken>
    ensures { WithPlaces g.now.h.n (seen g.now).scratch (term fit) result }
{
    fit.try_map(|c| place(g, c))
}

// An id that has the chosen node of the class at place p.
fn chosen(g: &Graph<'_>, p: usize) -> Result<Id, Broken>
    requires { p < g.now.h.n }
    ensures { ChosenAt g.now.h.n (seen g.now).scratch p result }
{
    let n = g.h.n;
    let c = layout::scratch(g, 4 * n + p);
    if n <= c {
        return Err(Broken);
    }
    let e = pricing::get_entry(g, Id(c as u32)).ok_or(Broken)?;
    Ok(e.id)
}

// The node at place p.
fn form_node(g: &Graph<'_>, p: usize) -> Result<Fit, Broken>
    requires { p < g.now.h.n }
    ensures { NodeAt g.now.h (seen g.now) p result }
{
    let id = chosen(g, p)?;
    let key = egraph::root_node(g, id)?;
    with_places(g, key)
}

// ---- the form
// The two loops below, and those of egraph over nodes and of eclass over pieces, go over a source of their own, which is one line of each. One pair for all of
// them would take the source, and what it promises of each turn, as parameters.

// How many words the form takes.
pub fn measure_form(g: &Graph<'_>, k: usize) -> Result<usize, Broken>
    requires { k ≤ g.now.h.n }
    ensures { FormMeasured g.now.h (seen g.now) k result }
{
    let mut total = 0;
    for p in 0..k {
        let node = form_node(g, p)?;
        total += spelling::node_length(node);
    }
    Ok(total)
}

// The nodes of the form, first listed first, from the start of a slice that has room for them; the place behind them.
pub fn put_form(g: &Graph<'_>, k: usize, out: &mut [u32]) -> usize
    requires k_le_n { k ≤ g.now.h.n }
    requires by_index { (p : ℕ) → p < k → FineNode g.now.h (seen g.now) p }
    requires k_in_bounds { length (pieces (form_piece g.now.h (seen g.now)) k) ≤ length out.old }
    ensures { Wrote out.old 0 (pieces (form_piece g.now.h (seen g.now)) k) result out.new }
{
    let mut at = 0;
    for p in 0..k {
        let node = form_node(g, p).unwrap();
        at = spelling::put_node(out, at, node);
    }
    at
}
