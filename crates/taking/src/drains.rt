// Entries closed, one after the other, until none is pending: each is taken (takes.rt), its key is brought up to date (keys.rt), and the id that had this key
// before is united with it.
ghost use Rattle.std.specs.Prelude.{None, Ok, ◌≡◌, ◌<◌};
ghost use Rattle.layout.specs.Did.{SameLoan};
ghost use Rattle.uniting.specs.Says.{united};
ghost use Rattle.taking.specs.Close.{CloseSays};
ghost use Rattle.taking.specs.Entry.{EntrySays, closed};
ghost use Rattle.taking.specs.Drain.{DrainSays, drained};
ghost use Rattle.taking.specs.Enough.{DrainsAll};

use super::Drained;
use super::keys::rekey;
use super::takes::take;
use broken::Broken;
use language::Id;
use layout::GraphMut;

// The table's entry for the key of an id is set to it; if the key had an id before, the two are united. Whether two classes became one.
fn close(g: &mut GraphMut<'_>, id: Id) -> Result<bool, Broken>
    requires { id.0 < g.old.h.ids }
    ensures loan { SameLoan g.old g.new }
    ensures says { CloseSays g.old.h id.0 g.old.ws.now (united g.new.h result) g.new.ws.now }
{
    let Some(old) = rekey(g, id)? else {
        return Ok(false);
    };
    uniting::unite(g, old, id)
}

// One entry of pending, if there is one, and whether two classes became one by it.
fn one_entry(g: &mut GraphMut<'_>) -> Result<Option<bool>, Broken>
    ensures loan { SameLoan g.old g.new }
    ensures stays { result ≡ Ok None → g.new.h ≡ g.old.h }
    ensures says { EntrySays g.old.h g.old.ws.now (closed g.new.h result) g.new.ws.now }
{
    let Some(id) = take(g)? else {
        return Ok(None);
    };
    Ok(Some(close(g, id)?))
}

// Entries are taken until none is pending, but fewer than `fuel`.
fn drain_within(g: &mut GraphMut<'_>, fuel: usize) -> Result<Drained, Broken>
    ensures loan { SameLoan g.old g.new }
    ensures says { DrainSays g.old.h fuel g.old.ws.now (drained g.new.h result) g.new.ws.now }
{
    let mut yes: usize = 0;
    for taken in 0..fuel {
        let Some(joined) = one_entry(g)? else {
            return Ok(Drained { yes, taken });
        };
        yes += usize::from(joined);
    }
    Err(Broken)
}

// Entries are taken until none is pending.
pub fn drain(g: &mut GraphMut<'_>) -> Result<Drained, Broken>
    ensures loan { SameLoan g.old g.new }
    ensures says { DrainsAll g.old.h g.old.ws.now (drained g.new.h result) g.new.ws.now }
{
    let h = g.h;
    let places = h.places;
    let fuel = h.depth * (places + 1) + h.classes * places + 1;
    drain_within(g, fuel)
}
