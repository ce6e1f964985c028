// `setup`: words that hold the fresh graph. `setup` and `set_up` take the limits n and m beside the words, which a caller lends (document 01): it may
// lend more words than the limits need.
ghost use Rattle.std.specs.Prelude.{Ok, ◌<◌, ◌≤◌, length};
ghost use Rattle.layout.specs.Cut.{need};
ghost use Rattle.layout.specs.Did.{Did};
ghost use Rattle.egraph.specs.Setup.{Limits, Emptied, SetupOpen, SetupSays};

use super::Refusal;
use layout::{GraphMut, Head};

fn empty_lists(g: &mut GraphMut<'_>)
    ensures { Did (Emptied g.old.h.n g.old.h.m) g.old g.new }
{
    parts::on_uses::clear(g);
    parts::on_members::clear(g);
    parts::on_table::clear(g);
}

fn set_up(ws: &mut [u32], n: usize, m: usize)
    requires limits { Limits n m }
    requires m_in_bounds { need n m ≤ length ws.old }
    ensures { SetupOpen ws.old n m (Ok tt) ws.new }
{
    let h = Head::fresh(n, m);
    let mut g = GraphMut { ws, h };
    empty_lists(&mut g);
    layout::clear_scratch(&mut g);
    layout::fresh_head(ws, n, m);
}

// A fresh graph with room for n ids and m child places. Words that held a graph are set up anew.
pub fn setup(ws: &mut [u32], n: usize, m: usize) -> Result<(), Refusal>
    ensures { SetupSays ws.old n m result ws.new }
{
    let need = layout::words_for(n, m).ok_or(Refusal::BadLimits)?;
    if ws.len() < need {
        return Err(Refusal::TooFewWords);
    }
    set_up(ws, n, m);
    Ok(())
}
