// The nodes of a graph, and the unions.
ghost use Rattle.std.specs.Prelude.{◌+◌, ◌<◌, ◌≤◌};

use super::calls::WORDS;
use super::{Size, calls};
use drawing::{Draws, below, next};
use language::{Id, Node, Op};

// How many ids there are, and the generator's number.
#[derive(Clone, Copy)]
pub struct Built {
    pub ids: u32,
    pub seed: u64,
}

// Leaf i has the operator 1 and the payload i. `count` says how many leaves are added, and nothing of the words.
fn add_leaves(rt: &impl Print, ws: &mut [u32; WORDS], count: u32) {
    for i in 0..count {
        calls::add(rt, ws, Node::leaf(Op(1), i));
    }
}

// The generator's fourth number from here.
fn fourth(seed: u64) -> u64 {
    next(next(next(next(seed))))
}

// One of four operators over any id and, every other time, a leaf.
fn some_node(b: Built, size: Size) -> Node
    requires { 1 ≤ b.ids }
{
    let a = next(b.seed);
    let two = next(a);
    let c = next(two);
    let one = Node::leaf(Op(2 + below(a, 4)), 0).with(Id(below(c, b.ids)));
    if below(two, 2) == 0 {
        return one;
    }
    one.with(Id(below(next(c), size.leaves)))
}

// A node drawn and added: a new id, unless the node is there already.
fn grow(rt: &impl Print, ws: &mut [u32; WORDS], b: Built, size: Size) -> Built
    requires { (1 ≤ b.ids) × (b.ids < size.ids) }
    ensures { (b.ids ≤ result.ids) × (result.ids ≤ b.ids + 1) }
{
    let id = calls::add(rt, ws, some_node(b, size));
    Built {
        ids: b.ids + u32::from(id == b.ids),
        seed: fourth(b.seed),
    }
}

// Leaves, and nodes over them until there are as many ids as the size has, or twice as many nodes were drawn.
pub fn nodes(rt: &impl Print, ws: &mut [u32; WORDS], size: Size) -> Built {
    add_leaves(rt, ws, size.leaves);
    let mut b = Built {
        ids: size.leaves,
        seed: 1,
    };
    for _ in 0..size.ids + size.ids {
        if size.ids <= b.ids {
            break;
        }
        b = grow(rt, ws, b, size);
    }
    b
}

// Unions of two leaves each, drawn by two numbers one after the other; how many answered yes.
pub fn unions(rt: &impl Print, ws: &mut [u32; WORDS], seed: u64, size: Size, count: u32) -> u32 {
    let mut yes: u32 = 0;
    for a in Draws::new(seed).step_by(2).take(count as usize) {
        let b = next(a);
        yes += u32::from(calls::union(
            rt,
            ws,
            Id(below(a, size.leaves)),
            Id(below(b, size.leaves)),
        ));
    }
    yes
}
