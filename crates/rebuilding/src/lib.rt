// A rebuild, inside a call: pending entries are taken until there is none (taking), the key rows are brought up to date (rechilding), and each class gets its
// nodes sorted, duplicates dropped (tidying). A step changes the head beside the words; the head in the words is written once, at the end of a call.
// What each function promises: specs/Rebuilding.antt.
#![tactic(auto)]

ghost use Rattle.layout.specs.Did.{SameLoan, headed};
ghost use Rattle.taking.specs.Drain.{drained};
ghost use Rattle.rebuilding.specs.Rebuilding.{FinishSays, RebuildSays};

use broken::Broken;
use layout::GraphMut;
use taking::Drained;

// The end of a rebuild, when nothing is pending: all nodes re-childed with roots, and all classes tidied.
fn finish(g: &mut GraphMut<'_>) -> Result<(), Broken>
    ensures loan { SameLoan g.old g.new }
    ensures says { FinishSays g.old.h g.old.ws.now (headed g.new.h result) g.new.ws.now }
{
    rechilding::rechild_all(g)?;
    tidying::tidy(g)
}

// A whole rebuild: the yes answers of its unions, and the entries taken.
pub fn rebuild(g: &mut GraphMut<'_>) -> Result<Drained, Broken>
    ensures loan { SameLoan g.old g.new }
    ensures says { RebuildSays g.old.h g.old.ws.now (drained g.new.h result) g.new.ws.now }
{
    let counts = taking::drain(g)?;
    finish(g)?;
    Ok(counts)
}
