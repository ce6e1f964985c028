// The parent lists, lent their part: lists of child places.
ghost use Rattle.std.specs.Prelude.{◌≡◌, ◌<◌, length, ◌≢◌, ◌+◌};
ghost use Rattle.layout.specs.Cut.{uses};
ghost use Rattle.layout.specs.Seen.{seen};
ghost use Rattle.layout.specs.Lent.{Lent};
ghost use Rattle.layout.specs.Did.{Did};
ghost use Rattle.cells.specs.Changes.{Pushed, Joined};
ghost use Rattle.cells.specs.Empty.{Cleared};
ghost use Rattle.lists.specs.Reads.{Word};

use broken::Broken;
use cells::Pool;
use language::Id;
use layout::{Graph, GraphMut};

// A child place at the end of a list.
pub fn push(g: &mut GraphMut<'_>, list: Id, place: usize) -> Result<(), Broken>
    requires { (list.0 < g.old.h.n) × (place < g.old.h.m) }
    ensures { Did (Lent uses g.old.h.n g.old.h.m (λ w w'. Pushed w w' g.old.h.n g.old.h.m list.0 place result)) g.old g.new }
{
    let h = g.h;
    cells::push(&mut g.ws[h.uses()], h.n, h.m, list.0 as usize, place)
}

// The list `lose` goes to the end of the list `stay`.
pub fn join(g: &mut GraphMut<'_>, stay: Id, lose: Id) -> Result<(), Broken>
    requires { (stay.0 < g.old.h.n) × (lose.0 < g.old.h.n) × (stay.0 ≢ lose.0) }
    ensures { Did (Lent uses g.old.h.n g.old.h.m (λ w w'. Joined w w' g.old.h.n g.old.h.m stay.0 lose.0 result)) g.old g.new }
{
    let h = g.h;
    cells::join(
        &mut g.ws[h.uses()],
        h.n,
        h.m,
        stay.0 as usize,
        lose.0 as usize,
    )
}

// The lists of a graph, to be read.
fn pool<'a>(g: &Graph<'a>) -> Pool<'a>
    ensures { (result.ws.now ≡ (seen g.now).uses) × (result.lists ≡ g.now.h.n) × (result.cells ≡ g.now.h.m) }
{
    Pool {
        ws: &g.ws[g.h.uses()],
        lists: g.h.n,
        cells: g.h.m,
    }
}

// The length of a list.
pub fn len(g: &Graph<'_>, list: Id) -> usize
    requires { list.0 < g.now.h.n }
    ensures { Word (seen g.now).uses (list.0 + g.now.h.n + g.now.h.n) result }
{
    pool(g).len(list.0 as usize)
}

// The last place of a list; it says nothing of an empty list.
pub fn last(g: &Graph<'_>, list: Id) -> usize
    requires { list.0 < g.now.h.n }
    ensures { Word (seen g.now).uses list.0 result }
{
    pool(g).last(list.0 as usize)
}

// The place before another; it says nothing of the first of a list.
pub fn link(g: &Graph<'_>, place: usize) -> usize
    requires { place < g.now.h.m }
    ensures { Word (seen g.now).uses (g.now.h.n + g.now.h.n + g.now.h.n + place) result }
{
    pool(g).link(place)
}

// Every list empty.
pub fn clear(g: &mut GraphMut<'_>)
    ensures { Did (Lent uses g.old.h.n g.old.h.m (λ w w'. Cleared w w' g.old.h.n g.old.h.n)) g.old g.new }
{
    let h = g.h;
    cells::clear(&mut g.ws[h.uses()], h.n);
}
