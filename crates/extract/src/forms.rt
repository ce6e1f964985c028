// Cheapest forms: `find_best`, the least AstSize of the class of an id with a form that has it, in words. The prices are worked out as for a size, the form
// is listed by them in the scratch part (walking), measured, and written from there into the slice that the caller lends (forming).
ghost use Rattle.std.specs.Prelude.{◌<◌, ◌≤◌, length};
ghost use Rattle.layout.specs.Did.{Did};
ghost use Rattle.layout.specs.View.{hd};
ghost use Rattle.extract.specs.Form.{FormSays, FormsOut, ListsOut, WritesOut};

use super::{Form, open, price_class};
use broken::Broken;
use egraph::Refusal;
use language::Id;
use layout::{Graph, GraphMut};

// A size, and how many classes are listed.
#[derive(Clone, Copy)]
struct Outline {
    size: u64,
    listed: usize,
}

// The prices and the listing of the class of an id, from a scratch part that is 0.
fn list_out(g: &mut GraphMut<'_>, id: Id) -> Result<Outline, Broken>
    requires { id.0 < g.old.h.ids }
    ensures { Did (λ ws ws'. ListsOut g.old.h id.0 ws result ws') g.old g.new }
{
    let class = price_class(g, id)?;
    let listed = walking::list_form(g, class.root)?;
    Ok(Outline {
        size: class.size,
        listed,
    })
}

// The form of the listed classes, measured, and written if the slice has room.
fn write_out(g: &Graph<'_>, at: Outline, out: &mut [u32]) -> Result<Form, Refusal>
    requires { at.listed ≤ g.now.h.n }
    ensures { WritesOut g.now.h at.size at.listed g.now.ws.now out.old result out.new }
{
    let length = forming::measure_form(g, at.listed)?;
    if out.len() < length {
        return Err(Refusal::TooLong);
    }
    let words = forming::put_form(g, at.listed, out);
    Ok(Form {
        size: at.size,
        words,
    })
}

// The size and the form of the class of an id, from a scratch part that is 0, and is left with the prices and the listing.
fn form_out(g: &mut GraphMut<'_>, id: Id, out: &mut [u32]) -> Result<Form, Refusal>
    requires { id.0 < g.old.h.ids }
    ensures { Did (λ ws ws'. FormsOut g.old.h id.0 ws out.old result ws' out.new) g.old g.new }
{
    let outline = list_out(g, id)?;
    write_out(&g.view(), outline, out)
}

// The least AstSize of any finite form in the class of an id, and a form that has it, in words.
pub fn find_best(ws: &mut [u32], id: Id, out: &mut [u32]) -> Result<Form, Refusal>
    ensures { FormSays ws.old id.0 out.old result ws.new out.new }
{
    let h = open(ws, id)?;
    let mut g = GraphMut { ws, h };
    let answer = form_out(&mut g, id, out);
    layout::clear_scratch(&mut g);
    answer
}
