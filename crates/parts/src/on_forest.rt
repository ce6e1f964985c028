// The union-find, lent its part.
ghost use Rattle.std.specs.Prelude.{◌≡◌, ◌<◌, ◌≤◌, length};
ghost use Rattle.layout.specs.Cut.{forest};
ghost use Rattle.layout.specs.Seen.{seen};
ghost use Rattle.layout.specs.Lent.{Lent};
ghost use Rattle.layout.specs.Did.{Did};
ghost use Rattle.unionfind.specs.Promise.{MakesSet, Finds, FindsMut, Unites};
ghost use Rattle.parts.specs.Bare.{bare_found};

use broken::Broken;
use language::Id;
use layout::{Graph, GraphMut};

// One id more, its own root.
pub fn make_set(g: &mut GraphMut<'_>)
    requires { g.old.h.ids < g.old.h.n }
    ensures { Did (Lent forest g.old.h.n g.old.h.m (λ f f'. MakesSet f g.old.h.ids f')) g.old g.new }
{
    let h = g.h;
    unionfind::make_set(&mut g.ws[h.forest()], h.ids);
}

// The root of an id.
pub fn find(g: &Graph<'_>, id: Id) -> Result<Id, Broken>
    requires { id.0 < g.now.h.ids }
    ensures { Finds (seen g.now).forest g.now.h.ids id.0 (bare_found result) }
{
    let root = unionfind::find(&g.ws[g.h.forest()], g.h.ids, id.0 as usize)?;
    Ok(Id(root as u32))
}

// The root of an id, with the way to it shortened.
pub fn find_mut(g: &mut GraphMut<'_>, id: Id) -> Result<Id, Broken>
    requires { id.0 < g.old.h.ids }
    ensures { Did (Lent forest g.old.h.n g.old.h.m (λ f f'. FindsMut f g.old.h.ids id.0 (bare_found result) f')) g.old g.new }
{
    let h = g.h;
    let root = unionfind::find_mut(&mut g.ws[h.forest()], h.ids, id.0 as usize)?;
    Ok(Id(root as u32))
}

// The class of the root `lose` goes to the root `stay`.
pub fn union(g: &mut GraphMut<'_>, stay: Id, lose: Id)
    requires { (stay.0 < g.old.h.n) × (lose.0 < g.old.h.n) }
    ensures { Did (Lent forest g.old.h.n g.old.h.m (λ f f'. Unites f stay.0 lose.0 f')) g.old g.new }
{
    let h = g.h;
    unionfind::union(&mut g.ws[h.forest()], stay.0 as usize, lose.0 as usize);
}
