// The steps of an add, inside a call. A step works on these parts of a graph's words (layout has their table):
//
//   part      what a new id does to it
//   forest    the id is its own root
//   rows      its node as it was given, and its key: the node with root children
//   members   it is the one member of its class
//   table     it goes into the bucket of its key
//   owners    it owns its child places, the next ones
//   uses      each of its child places goes to the end of the parent list of that child's root
//   pending   it is pushed
//
// `grow` changes the head beside the words, and the steps before it leave it; the head in the words is written once, at the end of a call. All of them
// answer the error `Broken` on words that no calls could have produced.
#![tactic(auto)]

ghost use Rattle.std.specs.Prelude.{◌≡◌, ℕ, ◌+◌, ◌<◌, ◌≤◌};
ghost use Rattle.lists.specs.Reads.{at};
ghost use Rattle.lists.specs.Tests.{Says};
ghost use Rattle.language.specs.Term.{Known};
ghost use Rattle.language.specs.Fitting.{term};
ghost use Rattle.layout.specs.Did.{Did, SameLoan, headed};
ghost use Rattle.growing.specs.Roots.{WithRoots};
ghost use Rattle.growing.specs.Store.{Stores};
ghost use Rattle.growing.specs.Enter.{Enters};
ghost use Rattle.growing.specs.Link.{Links, LinksAll};
ghost use Rattle.growing.specs.Push.{PushesId};
ghost use Rattle.growing.specs.Connect.{Connects};
ghost use Rattle.growing.specs.Grow.{Grows};

use broken::Broken;
use language::{Fit, Id};
use layout::{Graph, GraphMut};

// Whether every child is one of the first `ids` ids.
pub fn known(fit: Fit, ids: usize) -> bool
    ensures { Says result (Known (term fit) ids) }
{
    fit.node.children().iter().all(|c| (c.0 as usize) < ids)
}

// The node with each child replaced by its root. No way to a root is shortened: an add that is refused leaves all words as they were.
pub fn with_roots(g: &Graph<'_>, given: Fit) -> Result<Fit, Broken>
    requires { Known (term given) g.now.h.ids }
    ensures { WithRoots g.now.ws.now g.now.h given result }
{
    given.try_map(|c| parts::on_forest::find(g, c))
}

// ---- the steps of an add that found nothing

// A new id, the next number: its own root, with its node and key stored, and a member of its own class.
fn store(g: &mut GraphMut<'_>, given: Fit, key: Fit) -> Result<(), Broken>
    requires { (g.old.h.ids < g.old.h.n) × (g.old.h.places + given.node.count ≤ g.old.h.m) × (key.node.count ≡ given.node.count) }
    ensures { Did (Stores g.old.h given.node.count (term given) (term key) result) g.old g.new }
{
    let id = Id(g.h.ids as u32);
    let place = g.h.places;
    parts::on_forest::make_set(g);
    parts::on_rows::store(g, id, place, given, key);
    parts::on_members::push(g, id, id)
}

// The id goes into the table under its key.
fn enter(g: &mut GraphMut<'_>, id: Id, key: Fit) -> Result<(), Broken>
    requires { id.0 < g.old.h.n }
    ensures { Did (Enters g.old.h id.0 (term key) result) g.old g.new }
{
    let bucket = table::bucket(key, g.h.n);
    parts::on_table::enter(g, bucket, id)
}

// The id owns a child place, which goes to the end of the parent list of a root.
fn link_one(g: &mut GraphMut<'_>, place: usize, id: Id, list: Id) -> Result<(), Broken>
    requires { (place < g.old.h.m) × (list.0 < g.old.h.ids) }
    ensures { Did (Links g.old.h place id.0 list.0 result) g.old g.new }
{
    parts::on_owners::set_owner(g, place, id);
    parts::on_uses::push(g, list, place)
}

// The id owns the places of its children, from `base` on, and stands in the parent list of each child's root, once for each place.
fn link_all(g: &mut GraphMut<'_>, base: usize, id: Id, key: Fit) -> Result<(), Broken>
    requires in_places { base + key.node.count ≤ g.old.h.places }
    requires by_index { (i : ℕ) → i < key.node.count → at (term key).kids i < g.old.h.ids }
    ensures { Did (LinksAll g.old.h base id.0 (term key).kids result) g.old g.new }
{
    for (j, root) in key.node.children().iter().enumerate() {
        link_one(g, base + j, id, *root)?;
    }
    Ok(())
}

// The id goes on the pending list.
fn push(g: &mut GraphMut<'_>, id: Id) -> Result<(), Broken>
    ensures { Did (PushesId g.old.h id.0 result) g.old g.new }
{
    let depth = g.h.depth;
    if 2 * g.h.n <= depth {
        return Err(Broken);
    }
    parts::on_pending::push_one(g, depth, id);
    Ok(())
}

// The id is linked to the parent list of each child's root, and goes on the pending list.
fn connect(g: &mut GraphMut<'_>, base: usize, id: Id, key: Fit) -> Result<(), Broken>
    requires in_places { base + key.node.count ≤ g.old.h.places }
    requires by_index { (i : ℕ) → i < key.node.count → at (term key).kids i < g.old.h.ids }
    ensures { Did (Connects g.old.h base id.0 (term key).kids result) g.old g.new }
{
    link_all(g, base, id, key)?;
    push(g, id)
}

// One id more, for a node that was not found: `key` is the node with root children. The new id is the number of ids before.
pub fn grow(g: &mut GraphMut<'_>, given: Fit, key: Fit) -> Result<(), Broken>
    requires ids_lt_n { (g.old.h.ids < g.old.h.n) × (g.old.h.places + given.node.count ≤ g.old.h.m) × (key.node.count ≡ given.node.count) }
    requires by_index { (i : ℕ) → i < key.node.count → at (term key).kids i < g.old.h.ids }
    ensures loan { SameLoan g.old g.new }
    ensures grows { Grows g.old.h (term given) (term key) (headed g.new.h result) g.old.ws.now g.new.ws.now }
{
    let id = Id(g.h.ids as u32);
    let base = g.h.places;
    store(g, given, key)?;
    g.h.ids += 1;
    g.h.places += given.node.count as usize;
    g.h.classes += 1;
    g.h.clean = false;
    enter(g, id, key)?;
    connect(g, base, id, key)?;
    g.h.depth += 1;
    Ok(())
}
