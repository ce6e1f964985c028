// The last of pending is taken. A stretch of places stays on pending without the place that was taken.
ghost use Rattle.std.specs.Prelude.{None, Ok, ◌≡◌, ◌<◌, ◌≤◌, ◌^◌};
ghost use Rattle.layout.specs.Did.{SameLoan};
ghost use Rattle.taking.specs.Take.{Hands, LastSays, TakeSays, handed, taken};

use broken::Broken;
use language::Id;
use layout::GraphMut;
use pending::OnTop;

// The id, if it is one; the head beside the words then has the depth that is left.
fn hand(g: &mut GraphMut<'_>, depth: usize, id: Id) -> Result<Id, Broken>
    requires { depth ≤ g.old.h.depth }
    ensures loan { SameLoan g.old g.new }
    ensures words { g.new.ws.now ≡ g.old.ws.now }
    ensures hands { Hands g.old.h depth id.0 (handed g.new.h result) }
{
    if g.h.ids <= id.0 as usize {
        return Err(Broken);
    }
    g.h.depth = depth;
    Ok(id)
}

// Of a stretch of places the last is taken, and the others are put back.
fn take_last(g: &mut GraphMut<'_>, place: usize, count: usize) -> Result<Id, Broken>
    requires { (0 < g.old.h.depth) × (0 < count) × (count < 2 ^ 32) }
    ensures loan { SameLoan g.old g.new }
    ensures says { LastSays g.old.h place count g.old.ws.now (handed g.new.h result) g.new.ws.now }
{
    let h = g.h;
    if h.m <= place {
        return Err(Broken);
    }
    let seen = g.view();
    let id = parts::on_owners::owner(&seen, place);
    let before = parts::on_uses::link(&seen, place);
    let depth = parts::on_pending::push_stretch(g, h.depth - 1, before, count - 1);
    hand(g, depth, id)
}

// The last of pending is taken, if there is one.
pub fn take(g: &mut GraphMut<'_>) -> Result<Option<Id>, Broken>
    ensures loan { SameLoan g.old g.new }
    ensures stays { result ≡ Ok None → g.new.h ≡ g.old.h }
    ensures says { TakeSays g.old.h g.old.ws.now (taken g.new.h result) g.new.ws.now }
{
    let depth = g.h.depth;
    if depth == 0 {
        return Ok(None);
    }
    match parts::on_pending::top(&g.view(), depth) {
        OnTop::TopOne(id) => Ok(Some(hand(g, depth - 1, id)?)),
        OnTop::TopMany(place, count) => Ok(Some(take_last(g, place, count)?)),
    }
}
