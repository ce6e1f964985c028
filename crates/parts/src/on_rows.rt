// The stored nodes, lent their part.
ghost use Rattle.std.specs.Prelude.{◌≡◌, ◌<◌, ◌≤◌, length, ◌+◌};
ghost use Rattle.layout.specs.Cut.{rows};
ghost use Rattle.layout.specs.Seen.{seen};
ghost use Rattle.layout.specs.Lent.{Lent};
ghost use Rattle.layout.specs.Did.{Did};
ghost use Rattle.language.specs.Fitting.{term};
ghost use Rattle.rows.specs.Read.{given_read, key_read};
ghost use Rattle.rows.specs.Promise.{Given, Key, Stored, Keyed};

use broken::Broken;
use language::{Fit, Id};
use layout::{Graph, GraphMut};
use rows::Nodes;

// The stored nodes of a graph.
pub(crate) fn nodes<'a>(g: &Graph<'a>) -> Nodes<'a>
    ensures { (result.ws.now ≡ (seen g.now).rows) × (result.n ≡ g.now.h.n) × (result.m ≡ g.now.h.m) }
{
    Nodes {
        ws: &g.ws[g.h.rows()],
        n: g.h.n,
        m: g.h.m,
    }
}

// The node of an id, as it was given.
pub fn given(g: &Graph<'_>, id: Id) -> Result<Fit, Broken>
    requires { id.0 < g.now.h.n }
    ensures { Given (seen g.now).rows g.now.h.n g.now.h.m id.0 result }
{
    nodes(g).given(id)
}

// The key of an id.
pub fn key(g: &Graph<'_>, id: Id) -> Result<Fit, Broken>
    requires { id.0 < g.now.h.n }
    ensures { Key (seen g.now).rows g.now.h.n g.now.h.m id.0 result }
{
    nodes(g).key(id)
}

// The node of an id, as it was given, on any words: a row that no call could have written counts as one without children.
pub fn given_or_leaf(g: &Graph<'_>, id: Id) -> Fit
    requires { id.0 < g.now.h.n }
    ensures { term result ≡ given_read (seen g.now).rows g.now.h.n g.now.h.m id.0 }
{
    nodes(g).given_or_leaf(id)
}

// The key of an id, on any words: a row that no call could have written counts as one without children.
pub fn key_or_leaf(g: &Graph<'_>, id: Id) -> Fit
    requires { id.0 < g.now.h.n }
    ensures { term result ≡ key_read (seen g.now).rows g.now.h.n g.now.h.m id.0 }
{
    nodes(g).key_or_leaf(id)
}

// A new id's node, as given, and its key.
pub fn store(g: &mut GraphMut<'_>, id: Id, place: usize, given: Fit, key: Fit)
    requires { (id.0 < g.old.h.n) × (place + given.node.count ≤ g.old.h.m) × (key.node.count ≡ given.node.count) }
    ensures { Did (Lent rows g.old.h.n g.old.h.m (λ w w'. Stored w w' g.old.h.n g.old.h.m id.0 place (term given) (term key))) g.old g.new }
{
    let h = g.h;
    rows::store(&mut g.ws[h.rows()], h.n, h.m, id, place, given, key);
}

// Another key for an id.
pub fn set_key(g: &mut GraphMut<'_>, id: Id, key: Fit) -> Result<(), Broken>
    requires { id.0 < g.old.h.n }
    ensures { Did (Lent rows g.old.h.n g.old.h.m (λ w w'. Keyed w w' g.old.h.n g.old.h.m id.0 (term key) result)) g.old g.new }
{
    let h = g.h;
    rows::set_key(&mut g.ws[h.rows()], h.n, h.m, id, key)
}
