// The steps of a union, inside a call. A step works on these parts of a graph's words (layout has their table):
//
//   part      what a merge does to it
//   uses      the loser's parent list goes to the end of the stayer's
//   pending   the loser's parents are pushed: one stretch of places
//   members   the loser's class nodes go to the end of the stayer's list
//   forest    the loser's root gets the stayer's for its parent
//
// A step changes the head beside the words; the head in the words is written once, at the end of a call. What each function promises: specs/Says.antt.
#![tactic(auto)]

ghost use Rattle.std.specs.Prelude.{◌≢◌, ◌≡◌, ◌<◌};
ghost use Rattle.layout.specs.Did.{SameLoan, headed};
ghost use Rattle.uniting.specs.Says.{MergeSays, JoinSays, UniteSays, united};

use broken::Broken;
use language::Id;
use layout::GraphMut;

// The class of the root `lose` goes into that of the root `stay`.
fn merge(g: &mut GraphMut<'_>, stay: Id, lose: Id) -> Result<(), Broken>
    requires { (stay.0 < g.old.h.ids) × (lose.0 < g.old.h.ids) × (stay.0 ≢ lose.0) }
    ensures loan { SameLoan g.old g.new }
    ensures says { MergeSays g.old.h stay.0 lose.0 g.old.ws.now (headed g.new.h result) g.new.ws.now }
{
    let depth = g.h.depth;
    if 2 * g.h.n <= depth {
        return Err(Broken);
    }
    if g.h.classes == 0 {
        return Err(Broken);
    }
    let seen = g.view();
    let last = parts::on_uses::last(&seen, lose);
    let count = parts::on_uses::len(&seen, lose);
    parts::on_uses::join(g, stay, lose)?;
    let depth = parts::on_pending::push_stretch(g, depth, last, count);
    parts::on_members::join(g, stay, lose)?;
    parts::on_forest::union(g, stay, lose);
    g.h.depth = depth;
    g.h.classes -= 1;
    g.h.clean = false;
    Ok(())
}

// Two roots that differ: the first stays unless its parent list is strictly shorter.
fn join_roots(g: &mut GraphMut<'_>, a: Id, b: Id) -> Result<(), Broken>
    requires { (a.0 < g.old.h.ids) × (b.0 < g.old.h.ids) × (a.0 ≢ b.0) }
    ensures loan { SameLoan g.old g.new }
    ensures says { JoinSays g.old.h a.0 b.0 g.old.ws.now (headed g.new.h result) g.new.ws.now }
{
    let seen = g.view();
    let x = parts::on_uses::len(&seen, a);
    let y = parts::on_uses::len(&seen, b);
    if x < y {
        merge(g, b, a)
    } else {
        merge(g, a, b)
    }
}

// The classes of two ids become one; whether they were two. Of one class already, the graph only becomes unclean.
pub fn unite(g: &mut GraphMut<'_>, i: Id, j: Id) -> Result<bool, Broken>
    requires { (i.0 < g.old.h.ids) × (j.0 < g.old.h.ids) }
    ensures loan { SameLoan g.old g.new }
    ensures says { UniteSays g.old.h i.0 j.0 g.old.ws.now (united g.new.h result) g.new.ws.now }
{
    let x = parts::on_forest::find_mut(g, i)?;
    let y = parts::on_forest::find_mut(g, j)?;
    if x == y {
        g.h.clean = false;
        return Ok(false);
    }
    join_roots(g, x, y)?;
    Ok(true)
}
