// The node table, lent its part, and to be asked the stored nodes beside it.
ghost use Rattle.std.specs.Prelude.{◌<◌, ◌≤◌, length};
ghost use Rattle.layout.specs.Cut.{table};
ghost use Rattle.layout.specs.Seen.{seen};
ghost use Rattle.layout.specs.Lent.{Lent};
ghost use Rattle.layout.specs.Did.{Did};
ghost use Rattle.language.specs.Fitting.{term};
ghost use Rattle.table.specs.Asking.{Answers};
ghost use Rattle.table.specs.Entering.{Entered};
ghost use Rattle.table.specs.Leaving.{Departed};
ghost use Rattle.cells.specs.Empty.{Cleared};

use super::on_rows::nodes;
use broken::Broken;
use language::{Fit, Id};
use layout::{Graph, GraphMut};

// The id in the table that has this key.
pub fn ask(g: &Graph<'_>, key: Fit) -> Result<Option<Id>, Broken>
    ensures { Answers (seen g.now).table (seen g.now).rows g.now.h.n g.now.h.m (term key) result }
{
    table::ask(&g.ws[g.h.table()], &nodes(g), key)
}

// An id goes into a bucket.
pub fn enter(g: &mut GraphMut<'_>, bucket: usize, id: Id) -> Result<(), Broken>
    requires { (bucket < g.old.h.n) × (id.0 < g.old.h.n) }
    ensures { Did (Lent table g.old.h.n g.old.h.m (λ w w'. Entered w w' g.old.h.n bucket id.0 result)) g.old g.new }
{
    let h = g.h;
    table::enter(&mut g.ws[h.table()], h.n, bucket, id)
}

// An id goes out of a bucket, if it is there.
pub fn leave(g: &mut GraphMut<'_>, bucket: usize, id: Id) -> Result<bool, Broken>
    requires { (bucket < g.old.h.n) × (id.0 < g.old.h.n) }
    ensures { Did (Lent table g.old.h.n g.old.h.m (λ w w'. Departed w w' g.old.h.n bucket id.0 result)) g.old g.new }
{
    let h = g.h;
    table::leave(&mut g.ws[h.table()], h.n, bucket, id)
}

// Every bucket empty.
pub fn clear(g: &mut GraphMut<'_>)
    ensures { Did (Lent table g.old.h.n g.old.h.m (λ w w'. Cleared w w' g.old.h.n g.old.h.n)) g.old g.new }
{
    let h = g.h;
    cells::clear(&mut g.ws[h.table()], h.n);
}
