// The sort, lent its work area and the stored nodes.
ghost use Rattle.std.specs.Prelude.{◌*◌, ◌<◌, ◌≤◌, length};
ghost use Rattle.layout.specs.Cut.{sorting};
ghost use Rattle.layout.specs.Seen.{seen};
ghost use Rattle.layout.specs.Lent.{Lent, Stored};
ghost use Rattle.layout.specs.Did.{Did};
ghost use Rattle.layout.specs.Both.{LentBoth};
ghost use Rattle.sorting.specs.Promise.{Sorts};
ghost use Rattle.lists.specs.Reads.{Word};

use broken::Broken;
use language::Id;
use layout::{Graph, GraphMut};

// The id that stands in word i of the work area.
pub fn work(g: &Graph<'_>, i: usize) -> Id
    requires { i < 2 * g.now.h.n }
    ensures { Word (seen g.now).sorting i result.0 }
{
    Id(layout::work(g, i))
}

// An id into word i of the work area.
pub fn set_work(g: &mut GraphMut<'_>, i: usize, id: Id)
    requires { i < 2 * g.old.h.n }
    ensures { Did (Lent sorting g.old.h.n g.old.h.m (Stored i id.0)) g.old g.new }
{
    layout::set_work(g, i, id.0);
}

// The first k words of the work area sorted by the keys of the ids that stand there; the stored nodes are lent with it, and stay as they are.
pub fn sort(g: &mut GraphMut<'_>, k: usize) -> Result<usize, Broken>
    requires { k ≤ g.old.h.n }
    ensures { Did (LentBoth g.old.h.n g.old.h.m (λ w w'. Sorts w w' g.old.h.n g.old.h.m k result)) g.old g.new }
{
    let h = g.h;
    sorting::sort(&mut g.ws[h.rows_and_sorting()], h.n, h.m, k)
}
