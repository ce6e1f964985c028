// One entry of a rebuild, inside a call, and the loop over all of them. An entry works on these parts of a graph's words (layout has their table):
//
//   part      what an entry does to it
//   pending   the last id is taken: an entry of one id, or the last place of a stretch
//   uses      read: which place stands before the one that is taken
//   owners    read: the id that owns the place
//   rows      the key row of the id is set to its node with root children
//   table     the id that had this key leaves, and the id goes in under it
//   forest    if an id had the key, the two are united (crate `uniting`, which also works on uses, pending and members)
//
// A step changes the head beside the words; the head in the words is written once, at the end of a call. What each function promises:
// specs/Take.antt, Rekey.antt, Close.antt and Enough.antt.
#![tactic(auto)]

// Nothing is pending any more: how many unions answered yes, and how many entries were taken.
#[derive(Clone, Copy)]
pub struct Drained {
    pub yes: usize,
    pub taken: usize,
}

mod takes;

pub use takes::take;

mod keys;

pub use keys::{fresh_key, vacate};

mod drains;

pub use drains::drain;
