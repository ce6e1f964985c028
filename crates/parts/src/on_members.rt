// The class nodes, lent their part: lists of ids.
ghost use Rattle.std.specs.Prelude.{◌≡◌, ◌<◌, length, ◌≢◌, ◌+◌};
ghost use Rattle.layout.specs.Cut.{members};
ghost use Rattle.layout.specs.Seen.{seen};
ghost use Rattle.layout.specs.Lent.{Lent};
ghost use Rattle.layout.specs.Did.{Did};
ghost use Rattle.cells.specs.Changes.{Pushed, Joined};
ghost use Rattle.cells.specs.Empty.{Cleared, Emptied};
ghost use Rattle.lists.specs.Reads.{Word};

use broken::Broken;
use cells::Pool;
use language::Id;
use layout::{Graph, GraphMut};

// An id at the end of a list.
pub fn push(g: &mut GraphMut<'_>, list: Id, id: Id) -> Result<(), Broken>
    requires { (list.0 < g.old.h.n) × (id.0 < g.old.h.n) }
    ensures { Did (Lent members g.old.h.n g.old.h.m (λ w w'. Pushed w w' g.old.h.n g.old.h.n list.0 id.0 result)) g.old g.new }
{
    let h = g.h;
    cells::push(
        &mut g.ws[h.members()],
        h.n,
        h.n,
        list.0 as usize,
        id.0 as usize,
    )
}

// The list `lose` goes to the end of the list `stay`.
pub fn join(g: &mut GraphMut<'_>, stay: Id, lose: Id) -> Result<(), Broken>
    requires { (stay.0 < g.old.h.n) × (lose.0 < g.old.h.n) × (stay.0 ≢ lose.0) }
    ensures { Did (Lent members g.old.h.n g.old.h.m (λ w w'. Joined w w' g.old.h.n g.old.h.n stay.0 lose.0 result)) g.old g.new }
{
    let h = g.h;
    let (to, from) = (stay.0 as usize, lose.0 as usize);
    cells::join(&mut g.ws[h.members()], h.n, h.n, to, from)
}

// The lists of a graph, to be read.
fn pool<'a>(g: &Graph<'a>) -> Pool<'a>
    ensures { (result.ws.now ≡ (seen g.now).members) × (result.lists ≡ g.now.h.n) × (result.cells ≡ g.now.h.n) }
{
    Pool {
        ws: &g.ws[g.h.members()],
        lists: g.h.n,
        cells: g.h.n,
    }
}

// The length of a list.
pub fn len(g: &Graph<'_>, list: Id) -> usize
    requires { list.0 < g.now.h.n }
    ensures { Word (seen g.now).members (list.0 + g.now.h.n + g.now.h.n) result }
{
    pool(g).len(list.0 as usize)
}

// The last id of a list; it says nothing of an empty list.
pub fn last(g: &Graph<'_>, list: Id) -> Id
    requires { list.0 < g.now.h.n }
    ensures { Word (seen g.now).members list.0 result.0 }
{
    let last = pool(g).last(list.0 as usize);
    Id(last as u32)
}

// The id before another; it says nothing of the first of a list.
pub fn link(g: &Graph<'_>, id: Id) -> Id
    requires { id.0 < g.now.h.n }
    ensures { Word (seen g.now).members (g.now.h.n + g.now.h.n + g.now.h.n + id.0) result.0 }
{
    let link = pool(g).link(id.0 as usize);
    Id(link as u32)
}

// Every list empty.
pub fn clear(g: &mut GraphMut<'_>)
    ensures { Did (Lent members g.old.h.n g.old.h.m (λ w w'. Cleared w w' g.old.h.n g.old.h.n)) g.old g.new }
{
    let h = g.h;
    cells::clear(&mut g.ws[h.members()], h.n);
}

// A list given up.
pub fn empty(g: &mut GraphMut<'_>, list: Id)
    requires { list.0 < g.old.h.n }
    ensures { Did (Lent members g.old.h.n g.old.h.m (λ w w'. Emptied w w' g.old.h.n list.0)) g.old g.new }
{
    let h = g.h;
    cells::empty(&mut g.ws[h.members()], h.n, list.0 as usize);
}
