// Calls that read one thing and change nothing: `find`, `number_of_classes`, `is_empty`, `clean`.
ghost use Rattle.egraph.specs.Reads.{FindSays, CountSays, EmptySays, CleanSays};

use super::{Refusal, open_known, read_head};
use language::Id;

// The root of an id.
pub fn find(ws: &[u32], id: Id) -> Result<Id, Refusal>
    ensures { FindSays ws.now id.0 result }
{
    let g = open_known(ws, id)?;
    let root = parts::on_forest::find(&g, id)?;
    Ok(root)
}

// How many classes there are; a graph that is not clean answers too.
pub fn number_of_classes(ws: &[u32]) -> Result<usize, Refusal>
    ensures { CountSays ws.now result }
{
    let h = read_head(ws)?;
    Ok(h.classes)
}

// Whether there are no ids.
pub fn is_empty(ws: &[u32]) -> Result<bool, Refusal>
    ensures { EmptySays ws.now result }
{
    let h = read_head(ws)?;
    Ok(h.ids == 0)
}

// Whether a rebuild has ended and no node or union has come since.
pub fn clean(ws: &[u32]) -> Result<bool, Refusal>
    ensures { CleanSays ws.now result }
{
    let h = read_head(ws)?;
    Ok(h.clean)
}
