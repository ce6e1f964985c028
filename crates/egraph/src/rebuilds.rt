// The call that closes a graph under congruence: `rebuild`.
ghost use Rattle.std.specs.Prelude.{length};
ghost use Rattle.layout.specs.View.{hd};
ghost use Rattle.layout.specs.Did.{SameLoan, HeadStood};
ghost use Rattle.egraph.specs.Rebuilds.{RebuildOpen, RebuildSays};

use super::{Refusal, read_head};
use layout::GraphMut;

fn rebuild_open(g: &mut GraphMut<'_>) -> Result<usize, Refusal>
    requires { HeadStood g.old }
    ensures loan { SameLoan g.old g.new }
    ensures says { RebuildOpen g.old.ws.now result g.new.ws.now }
{
    let drained = rebuilding::rebuild(g)?;
    g.note_head();
    Ok(drained.yes)
}

// Every congruence that the unions brought about is drawn, and the class lists are made: the graph is clean. The answer is how many unions that took.
pub fn rebuild(ws: &mut [u32]) -> Result<usize, Refusal>
    ensures { RebuildSays ws.old result ws.new }
{
    let h = read_head(ws)?;
    rebuild_open(&mut GraphMut { ws, h })
}
