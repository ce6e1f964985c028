// A node in hand, as a value: ids and operators, each of a type of its own, and a node with a fixed row of eight children.
// A node is matched, ordered, compared, hashed and re-childed by its own methods, which hand the changed node back.
// `node_of` of specs/Struct.antt says what a node means: places of the row past the count mean nothing.
#![tactic(auto)]

ghost use Rattle.std.specs.Prelude.{◌≡◌, ◌+◌, ◌≤◌, ◌<◌, ◌^◌, length, map};
ghost use mathlib.Core.List.{[]};
ghost use Rattle.std.proofs.lemmas.List.Edits.{sets};
ghost use Rattle.lists.specs.Reads.{at};
ghost use Rattle.lists.specs.Tests.{Says};
ghost use Rattle.language.specs.Term.{places, Match, grown, rekid};
ghost use Rattle.language.specs.Struct.{node_of};
ghost use Rattle.language.specs.Ordered.{order};
ghost use Rattle.language.specs.Hashed.{hash, mixed};
ghost use Rattle.language.specs.Fitting.{term};

use std::cmp::Ordering;

mod fit; // fit.rt: a node whose row has all its children

pub use fit::Fit;

// How many children a node may have: the one number that a longer row changes, here and in specs/Term.antt.
pub const PLACES: usize = 8;

const FACTOR: u32 = 2654435769;

// That an id is known is asked where it is used, and is no fact of an `Id`: it depends on the graph, and words hold any number. The same is so of a list, a
// place, a depth and an index, and of a node's children; where it is not shown, it is one comparison of two numbers.
// A number is made an id, and an id a number, in Rust's own words, `Id(i as u32)` and `id.0 as usize`: a `From` or a method would be a call, and each proof
// above would have to cite what it promises. So a loop over all ids goes over their numbers, which is what it keeps its promise of.
#[derive(Clone, Copy, Debug, PartialEq, Eq, PartialOrd, Ord, Hash)]
pub struct Id(pub u32);

#[derive(Clone, Copy, Debug, PartialEq, Eq, PartialOrd, Ord, Hash)]
pub struct Op(pub u32);

// The children are the first `count` of `kids`. No vector of a fixed capacity, which has no heap either: it is no `Copy`, and a node in hand may count more
// than eight children, which an open call refuses by 5 (`Gated` of egraph).
#[derive(Clone, Copy)]
pub struct Node {
    pub op: Op,
    pub payload: u32,
    pub count: u32,
    pub kids: [Id; PLACES],
}

// The row's length is the constant of the specs.
pub fn row_length() -> usize
    ensures { result ≡ places }
{
    PLACES
}

// The hash h with one word more.
fn mix(h: u32, w: u32) -> u32
    ensures { result ≡ mixed h w }
{
    h.wrapping_add(w).wrapping_mul(FACTOR)
}

impl Node {
    // A node without children.
    pub fn leaf(op: Op, payload: u32) -> Node
        ensures { (result.count ≡ 0) × (node_of result ≡ record { op = op.0; payload = payload; kids = [] }) }
    {
        Node {
            op,
            payload,
            count: 0,
            kids: [Id(0); PLACES],
        }
    }

    // A node with the children that a slice has, in plain numbers.
    pub fn over(op: Op, payload: u32, kids: &[u32]) -> Node
        requires { length kids.now ≤ places }
        ensures { (result.count ≡ length kids.now) × (node_of result ≡ record { op = op.0; payload = payload; kids = kids.now }) }
    {
        let mut node = Node::leaf(op, payload);
        for kid in kids {
            node = node.with(Id(*kid));
        }
        node
    }

    // The children alone, without the places past the count.
    pub fn children(&self) -> &[Id]
        requires { self.now.count ≤ places }
        ensures { map (λ k. k.0) result.now ≡ (node_of self.now).kids }
    {
        &self.kids[..self.count as usize]
    }

    // One more child, behind the others.
    pub fn with(mut self, id: Id) -> Node
        requires { self.count < places }
        ensures { (result.count ≡ self.count + 1) × (node_of result ≡ grown (node_of self) id.0) }
    {
        self.kids[self.count as usize] = id;
        self.count += 1;
        self
    }

    pub fn child(self, i: usize) -> Id
        requires { (i < self.count) × (self.count ≤ places) }
        ensures { result.0 ≡ at (node_of self).kids i }
    {
        self.kids[i]
    }

    // Another child at place i.
    pub fn with_child(mut self, i: usize, id: Id) -> Node
        requires { (i < self.count) × (self.count ≤ places) }
        ensures { (result.count ≡ self.count) × (node_of result ≡ rekid (node_of self) i id.0) }
    {
        self.kids[i] = id;
        self
    }

    // Equal in operator, payload and child count: less than any `==`.
    pub fn matches(self, other: Node) -> bool
        requires { (self.count ≤ places) × (other.count ≤ places) }
        ensures { Says result (Match (node_of self) (node_of other)) }
    {
        (self.op, self.payload, self.count) == (other.op, other.payload, other.count)
    }

    // Matching, and the children equal: one key of the table. No `==` is derived, since it would compare the places past the count, and none is written, since
    // `==` may be asked of any two nodes, and this of two with at most eight children.
    pub fn same(self, other: Node) -> bool
        requires { (self.count ≤ places) × (other.count ≤ places) }
        ensures { Says result (node_of self ≡ node_of other) }
    {
        self.matches(other) && self.children() == other.children()
    }

    // Node order: operator, payload, child count, children left to right. No `Ord` is derived or written either, for the same reasons.
    pub fn order(self, other: Node) -> Ordering
        requires { (self.count ≤ places) × (other.count ≤ places) }
        ensures { result ≡ order (node_of self) (node_of other) }
    {
        let mine = (self.op, self.payload, self.count, self.children());
        let theirs = (other.op, other.payload, other.count, other.children());
        mine.cmp(&theirs)
    }

    pub fn hash(self) -> u32
        requires { self.count ≤ places }
        ensures { result ≡ hash (node_of self) }
    {
        let start = mix(mix(mix(0, self.op.0), self.payload), self.count);
        self.children().iter().fold(start, |h, k| mix(h, k.0))
    }
}

// A node's children, one after another from a place on. The words are written by index: of a slice that is lent to `iter_mut` a proof knows the length alone
// afterwards.
pub fn put_kids(ws: &mut [u32], place: usize, fit: Fit)
    requires { place + fit.node.count ≤ length ws.old }
    ensures { ws.new ≡ sets ws.old place (term fit).kids }
{
    for (i, k) in fit.node.children().iter().enumerate() {
        ws[place + i] = k.0;
    }
}
