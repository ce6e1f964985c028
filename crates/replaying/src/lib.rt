// A script of calls answered: standard input is read in pieces, each line's call is made on one graph, and the line that answers it is
// written. The script's grammar is that of the crate `script`. The programs `replay` and `replay_kept` are this and nothing else.
//
// The words, the room for a list, the line that is being read and the answers that are not written out yet are four arrays of the program,
// lent on from there.
#![tactic(auto)]

use script::Reply;

// What limits n = 8,192 and m = 32,768 need.
pub const WORDS: usize = 360480;

// The longest list of a graph that fits these words has 78,096 words.
pub const LIST: usize = 81920;

// One byte more than the longest line.
pub const LINE: usize = 4097;

// Room for the longest answer behind others that are not written out yet.
pub const OUT: usize = 1048576;

// A reply, and how many words of the list go with it. They stand beside the reply, and are 0 where none go with it, since the reply is script's, whose
// `put_reply` takes the words as a slice of their own (docs/PROMISES.md).
#[derive(Clone, Copy)]
pub struct Told {
    pub reply: Reply,
    pub words: usize,
}

mod calls;
mod input;
mod replies;

pub use input::run;
