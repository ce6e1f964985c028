// Hands every open call thousands of words that no calls could have produced, and writes for each call
//
//     NAME N calls, answered 0: A 3: B ..; 0 words outside changed, 0 calls changed a word that they must keep, 0 good graphs answered 9
//
//     part                                        means
//     answered 0: A 3: B ..                       of N calls A answered 0, B refused by 3, and so on
//     0 words outside changed                     no call changed a word that it was not lent, or one past what the limits need
//     0 calls changed a word that they must keep  none that refused changed a word of the slice for a list, and none but by 9 a word of the graph;
//                                                 all but setup, the adds, union and rebuild changed no word of the graph, whatever they answered
//     0 good graphs answered 9                    on graphs that calls had made, two fifths of the turns, none answered 9
//
// and, first, what `find` answers on no words: 3, as document 01's case O says.
//
// The 0s are what is claimed. A and B are what came out of a run: egg has no words that could be broken so, and no other source says them.
#![tactic(auto)]

mod answers;
mod building;
mod calls;
mod spoiling;
mod tally;
mod text;
mod trials;
mod words;

use calls::CALLS;
use std::io;

const TURNS: u64 = 2000;

fn main(rt: HostRuntime) -> io::Result<()> {
    text::no_words(&rt, calls::find_in_no_words())?;
    for (name, call) in CALLS {
        text::report(&rt, name, &trials::trials(call, TURNS))?;
    }
    Ok(())
}
