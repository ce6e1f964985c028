// The room that a graph needs, and a fresh graph in it.
ghost use Rattle.egraph.specs.Answers.{setup_says};
ghost use Rattle.egraph.specs.Setup.{SetupSays};
ghost use Rattle.capi.specs.Answered.{Answered};
ghost use Rattle.capi.specs.Needs.{Needs};

use super::Reply;

// How many words a graph with room for n ids and m child places needs; 0 where setup refuses the limits.
#[unsafe(no_mangle)]
pub extern "C" fn rimo_need(n: usize, m: usize) -> usize
    ensures { Needs n m result }
{
    layout::words_for(n, m).unwrap_or(0)
}

// A fresh graph. No value. The limits n and m go beside the words, since a caller may lend more words than they need.
#[unsafe(no_mangle)]
pub extern "C" fn rimo_setup(ws: &mut [u32], n: usize, m: usize) -> Reply
    ensures { Answered (λ a. SetupSays ws.old n m a ws.new) setup_says result }
{
    Reply::from(egraph::setup(ws, n, m))
}
