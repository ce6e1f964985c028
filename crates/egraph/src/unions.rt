// The call that joins two classes: `union`.
ghost use Rattle.std.specs.Prelude.{◌<◌, length};
ghost use Rattle.layout.specs.View.{hd};
ghost use Rattle.layout.specs.Did.{SameLoan, HeadStood};
ghost use Rattle.egraph.specs.Unions.{UnionOpen, UnionSays};

use super::{Refusal, open_known};
use language::Id;
use layout::GraphMut;

// Both ids known.
fn union_open(g: &mut GraphMut<'_>, id1: Id, id2: Id) -> Result<bool, Refusal>
    requires head_is { HeadStood g.old }
    requires id1_lt_ids { (id1.0 < g.old.h.ids) × (id2.0 < g.old.h.ids) }
    ensures loan { SameLoan g.old g.new }
    ensures says { UnionOpen g.old.ws.now id1.0 id2.0 result g.new.ws.now }
{
    let joined = uniting::unite(g, id1, id2)?;
    g.note_head();
    Ok(joined)
}

// The classes of two ids become one: yes, or no if they were one before. The graph is then not clean, even when nothing was joined.
pub fn union(ws: &mut [u32], id1: Id, id2: Id) -> Result<bool, Refusal>
    ensures { UnionSays ws.old id1.0 id2.0 result ws.new }
{
    open_known(ws, id1)?;
    let h = open_known(ws, id2)?.h;
    union_open(&mut GraphMut { ws, h }, id1, id2)
}
