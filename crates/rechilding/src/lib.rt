// The key rows of a graph brought up to date, at the end of a rebuild: the key of each id becomes its node with root children. It works on these parts of
// the words (layout has their table):
//
//   part      what happens to it
//   forest    read: the roots of the children
//   rows      the key row of an id is set, where it is another
//   table     an id whose key row was out of date leaves, where it still stands under that dead key
//
// What the table says of live keys stays: the id that it has for one is up to date already. The head stays, in the words and beside them. What each function
// promises: specs/.
#![tactic(auto)]

ghost use Rattle.std.specs.Prelude.{◌<◌, ◌≤◌};
ghost use Rattle.language.specs.Fitting.{term};
ghost use Rattle.layout.specs.Did.{Did};
ghost use Rattle.rechilding.specs.Rechild.{RenewSays, RechildSays};
ghost use Rattle.rechilding.specs.All.{RechildsAll};

use broken::Broken;
use language::{Fit, Id};
use layout::GraphMut;

// An id whose key row is out of date leaves the table, and its key row is set.
fn renew(g: &mut GraphMut<'_>, id: Id, key: Fit) -> Result<(), Broken>
    requires { id.0 < g.old.h.ids }
    ensures { Did (λ ws ws'. RenewSays g.old.h id.0 (term key) ws result ws') g.old g.new }
{
    taking::vacate(g, id)?;
    parts::on_rows::set_key(g, id, key)
}

// The key row of an id brought up to date.
fn rechild(g: &mut GraphMut<'_>, id: Id) -> Result<(), Broken>
    requires { id.0 < g.old.h.ids }
    ensures { Did (λ ws ws'. RechildSays g.old.h id.0 ws result ws') g.old g.new }
{
    let seen = g.view();
    let key = taking::fresh_key(&seen, id)?;
    let row = parts::on_rows::key_or_leaf(&seen, id);
    if row.node.same(key.node) {
        return Ok(());
    }
    renew(g, id, key)
}

// The key rows of all ids brought up to date.
pub fn rechild_all(g: &mut GraphMut<'_>) -> Result<(), Broken>
    ensures { Did (λ ws ws'. RechildsAll g.old.h ws result ws') g.old g.new }
{
    for i in 0..g.h.ids {
        rechild(g, Id(i as u32))?;
    }
    Ok(())
}
