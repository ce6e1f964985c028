// Sizes of classes and cheapest forms, with AstSize: egg's `Extractor` over words that the caller lends. The graph is read through its promises: the head,
// the root that `class_root` answers, and the nodes of each class, by which `pricing` works the prices out in the scratch part. That part is 0 before the
// work, else the words are broken, and is set to 0 after it: no word changes.
#![tactic(auto)]

ghost use Rattle.std.specs.Prelude.{◌<◌, length};
ghost use Rattle.layout.specs.Did.{Did};
ghost use Rattle.layout.specs.View.{hd};
ghost use Rattle.extract.specs.Opens.{Opens};
ghost use Rattle.extract.specs.Priced.{PricesClass};
ghost use Rattle.extract.specs.Cost.{CostSays, WorksOut};

use broken::Broken;
use egraph::Refusal;
use language::Id;
use layout::{Graph, GraphMut, Head};

// A class, by its root, and its price.
#[derive(Clone, Copy)]
struct Priced {
    root: Id,
    size: u64,
}

// A size, and how many words of a form were written.
#[derive(Clone, Copy, Debug, PartialEq, Eq)]
pub struct Form {
    pub size: u64,
    pub words: usize,
}

// The head of a clean graph that knows the id. A scratch part that is not 0 is not free for the work: no calls left it so.
// Its first two steps are those of egraph's `open_known`: made public, that would be a function of egraph that is none of its calls, for four lines here.
fn open(ws: &[u32], id: Id) -> Result<Head, Refusal>
    ensures { Opens ws.now id.0 result }
{
    let h = layout::read_head(ws).ok_or(Refusal::BadHead)?;
    if h.ids <= id.0 as usize {
        return Err(Refusal::UnknownId);
    }
    if !h.clean {
        return Err(Refusal::NotRebuilt);
    }
    if !layout::scratch_is_clear(&Graph { ws, h }) {
        return Err(Refusal::BrokenWords);
    }
    Ok(h)
}

// The root of an id's class and the price of the class, from a scratch part that is 0, and is left with the prices of all classes.
fn price_class(g: &mut GraphMut<'_>, id: Id) -> Result<Priced, Broken>
    requires { id.0 < g.old.h.ids }
    ensures { Did (λ ws ws'. PricesClass g.old.h id.0 ws result ws') g.old g.new }
{
    let root = egraph::class_root(&g.view(), id)?;
    pricing::find_costs(g)?;
    let e = pricing::get_entry(&g.view(), root).ok_or(Broken)?;
    Ok(Priced {
        root,
        size: e.price,
    })
}

// The size of the class of an id, from a scratch part that is 0.
fn work_out(g: &mut GraphMut<'_>, id: Id) -> Result<u64, Refusal>
    requires { id.0 < g.old.h.ids }
    ensures { Did (λ ws ws'. WorksOut g.old.h id.0 ws result ws') g.old g.new }
{
    let priced = price_class(g, id)?;
    Ok(priced.size)
}

// The least AstSize of any finite form in the class of an id. `find_best` has these four lines too, around its own step: one function for both would take the
// step as a closure, and what it leaves of the words and of another slice as a parameter of its promise, in more lines than these.
pub fn find_best_cost(ws: &mut [u32], id: Id) -> Result<u64, Refusal>
    ensures { CostSays ws.old id.0 result ws.new }
{
    let h = open(ws, id)?;
    let mut g = GraphMut { ws, h };
    let answer = work_out(&mut g, id);
    layout::clear_scratch(&mut g);
    answer
}

pub mod forms;

pub use forms::find_best;
