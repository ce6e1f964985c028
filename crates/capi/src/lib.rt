// The open calls for C, and for every language that can call C. Numbers go by value; words, lists and children go by pointer and length, which
// are Rattle's slices; every answer is one struct of plain numbers. A library exports nothing: the static library crates/capi_c exports each of
// these functions under its name and with its promise, and include/rimodaveck.h declares what that exports. So each stands twice, here with its body and there
// in one line: a crate is a library or a static library, and what is proved of these functions is to be had by other crates.
//
// No call has a `requires`. What a caller in C owes is what Rattle reads off a signature and C cannot show: a slice's pointer leads to as many
// words as its length says, aligned to four bytes, and no word that one argument may write is reached by another. Each promise is the promise
// of the call in `egraph` or `extract`.
//
//     src/room.rt      how many words limits need, and a fresh graph
//     src/changes.rt   calls that change the graph
//     src/reads.rt     calls that answer one number
//     src/listing.rt   calls that write a list
//     src/sizes.rt     sizes and cheapest forms
//     src/replies.rt   an answer as the struct that C reads
#![tactic(auto)]

// Document 01's number, 0 for success, how many values go with it, and the values. A value that is not there is 0.
// C reads this struct, so `count` stands beside two values, and there is no slice and no `Option`.
#[repr(C)]
#[derive(Clone, Copy, Default)]
pub struct Reply {
    pub number: u32,
    pub count: u32,
    pub first: u64,
    pub second: u64,
}

pub mod changes;
pub mod listing;
pub mod reads;
mod replies;
pub mod room;
pub mod sizes;
