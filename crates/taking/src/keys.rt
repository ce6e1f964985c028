// The key of an id brought up to date, in its row and in the table: the id that had this key before leaves the table.
ghost use Rattle.std.specs.Prelude.{◌≡◌, ◌<◌, ◌≤◌};
ghost use Rattle.layout.specs.Did.{Did};
ghost use Rattle.language.specs.Fitting.{term};
ghost use Rattle.taking.specs.Fresh.{FreshSays};
ghost use Rattle.taking.specs.Leave.{OustSays, VacateSays};
ghost use Rattle.taking.specs.Settle.{SettleSays};
ghost use Rattle.taking.specs.Rekey.{RekeySays};

use broken::Broken;
use language::{Fit, Id};
use layout::{Graph, GraphMut};

// The key of an id: its node as it was given, with root children.
pub fn fresh_key(g: &Graph<'_>, id: Id) -> Result<Fit, Broken>
    requires { id.0 < g.now.h.ids }
    ensures { FreshSays g.now.h id.0 g.now.ws.now result }
{
    let given = parts::on_rows::given(g, id)?;
    if !growing::known(given, g.h.ids) {
        return Err(Broken);
    }
    growing::with_roots(g, given)
}

// The id that has this key, if there is one, leaves the table.
fn oust(g: &mut GraphMut<'_>, key: Fit) -> Result<Option<Id>, Broken>
    ensures { Did (λ ws ws'. OustSays g.old.h (term key) ws result ws') g.old g.new }
{
    let Some(old) = parts::on_table::ask(&g.view(), key)? else {
        return Ok(None);
    };
    if g.h.ids <= old.0 as usize {
        return Err(Broken);
    }
    let bucket = table::bucket(key, g.h.n);
    if !parts::on_table::leave(g, bucket, old)? {
        return Err(Broken);
    }
    Ok(Some(old))
}

// An id leaves the table, where it stands under the key that was set last, if it is there.
pub fn vacate(g: &mut GraphMut<'_>, id: Id) -> Result<(), Broken>
    requires { id.0 < g.old.h.ids }
    ensures { Did (λ ws ws'. VacateSays g.old.h id.0 ws result ws') g.old g.new }
{
    let key = parts::on_rows::key(&g.view(), id)?;
    let bucket = table::bucket(key, g.h.n);
    parts::on_table::leave(g, bucket, id)?;
    Ok(())
}

// An id gets another key: it leaves the table under the old one, and goes in under the new one.
fn settle(g: &mut GraphMut<'_>, id: Id, key: Fit) -> Result<(), Broken>
    requires { id.0 < g.old.h.ids }
    ensures { Did (λ ws ws'. SettleSays g.old.h id.0 (term key) ws result ws') g.old g.new }
{
    vacate(g, id)?;
    parts::on_rows::set_key(g, id, key)?;
    let bucket = table::bucket(key, g.h.n);
    parts::on_table::enter(g, bucket, id)
}

// The table's entry for the key of an id is set to it; the answer is the id that had the key before, if there was one.
pub fn rekey(g: &mut GraphMut<'_>, id: Id) -> Result<Option<Id>, Broken>
    requires { id.0 < g.old.h.ids }
    ensures { Did (λ ws ws'. RekeySays g.old.h id.0 ws result ws') g.old g.new }
{
    let key = fresh_key(&g.view(), id)?;
    let was = oust(g, key);
    settle(g, id, key)?;
    was
}
