// The open calls on the one array of words. A refusal is written out, and the call then gives what its type starts from: 0, or no. What prints and the words
// are two parameters, as in the whole program: the first is the program's own, and the second is all that a call is lent.
use super::{Size, text};
use egraph::Refusal;
use language::{Id, Node};

// What 50,000 ids with 65,000 child places need: 32 + 28 * 50,000 + 4 * 65,000.
pub const WORDS: usize = 1660032;

// What a call answered.
fn answered<T: Default>(rt: &impl Print, answer: Result<T, Refusal>) -> T {
    match answer {
        Ok(value) => value,
        Err(_) => {
            text::refused(rt);
            T::default()
        }
    }
}

// A fresh graph for the ids of a size, with 13 child places for every ten of them.
pub fn setup(rt: &impl Print, ws: &mut [u32; WORDS], size: Size) {
    let ids = size.ids as usize;
    answered(rt, egraph::setup(ws, ids, ids * 13 / 10));
}

// The id of a node.
pub fn add(rt: &impl Print, ws: &mut [u32; WORDS], node: Node) -> u32 {
    answered(rt, egraph::add(ws, node).map(|id| id.0))
}

// Whether two classes became one.
pub fn union(rt: &impl Print, ws: &mut [u32; WORDS], a: Id, b: Id) -> bool {
    answered(rt, egraph::union(ws, a, b))
}

pub fn rebuild(rt: &impl Print, ws: &mut [u32; WORDS]) -> usize {
    answered(rt, egraph::rebuild(ws))
}

pub fn number_of_classes(rt: &impl Print, ws: &[u32; WORDS]) -> usize {
    answered(rt, egraph::number_of_classes(ws))
}
