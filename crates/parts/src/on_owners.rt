// The owners of the child places: a plain array, which layout lends.
ghost use Rattle.std.specs.Prelude.{◌<◌, length};
ghost use Rattle.layout.specs.Cut.{owners};
ghost use Rattle.layout.specs.Seen.{seen};
ghost use Rattle.layout.specs.Lent.{Lent, Stored};
ghost use Rattle.layout.specs.Did.{Did};
ghost use Rattle.lists.specs.Reads.{Word};

use language::Id;
use layout::{Graph, GraphMut};

// The id that owns a child place.
pub fn owner(g: &Graph<'_>, place: usize) -> Id
    requires { place < g.now.h.m }
    ensures { Word (seen g.now).owners place result.0 }
{
    Id(layout::owner(g, place))
}

// The id owns a child place.
pub fn set_owner(g: &mut GraphMut<'_>, place: usize, id: Id)
    requires { place < g.old.h.m }
    ensures { Did (Lent owners g.old.h.n g.old.h.m (Stored place id.0)) g.old g.new }
{
    layout::set_owner(g, place, id.0);
}
