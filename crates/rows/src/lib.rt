// Stored nodes: of each id the node as it was given, and its key, the same node with other children.
// One slice of 4n + 2m words, for n ids and m places of children:
//
//     from        words    what
//     0           n        the operator of each id
//     n           n        its payload
//     2n          n        its child count
//     3n          n        the first of its places
//     4n          m        at each place a child as given
//     4n + m      m        at each place a child of the key
//
// `Nodes`, `store` and `set_key` have n and m beside the words: a caller lends the words (document 01), and their number does not tell both.
// Places are handed out in order, so that the places of two ids never meet. `Rows` of specs/Rows.antt says which nodes the words hold.
#![tactic(auto)]

ghost use Rattle.std.specs.Prelude.{◌≡◌, ◌+◌, ◌≤◌, ◌<◌, ◌^◌, length, take, drop};
ghost use Rattle.language.specs.Fitting.{term};
ghost use Rattle.rows.specs.Rows.{size};
ghost use Rattle.rows.specs.Read.{leaf_at, read, given_read, key_read};
ghost use Rattle.rows.specs.Promise.{Reads, Given, Key, Stored, Keyed};

use broken::Broken;
use language::{Fit, Id, Node, Op, put_kids};

// The words that the rows of n ids and m places take.
pub fn need(n: usize, m: usize) -> usize
    requires { size n m < 2 ^ 64 }
    ensures { result ≡ size n m }
{
    4 * n + 2 * m
}

// Where the children as given begin: behind the four words of each id.
fn given_base(n: usize) -> usize
    requires { n + n + n + n < 2 ^ 64 }
    ensures { result ≡ n + n + n + n }
{
    4 * n
}

// Where the children of the keys begin: behind the children as given.
fn key_base(n: usize, m: usize) -> usize
    requires { n + n + n + n + m < 2 ^ 64 }
    ensures { result ≡ n + n + n + n + m }
{
    given_base(n) + m
}

// The stored nodes, to be read.
#[derive(Clone, Copy)]
pub struct Nodes<'a> {
    pub ws: &'a [u32],
    pub n: usize,
    pub m: usize,
    ghost whole: { length ws.now ≡ size n m },
}

impl Nodes<'_> {
    // An id's operator and payload, as a node without children.
    fn leaf(&self, id: Id) -> Fit
        requires { id.0 < self.now.n }
        ensures { term result ≡ leaf_at self.now.ws.now self.now.n id.0 }
    {
        let i = id.0 as usize;
        let node = Node::leaf(Op(self.ws[i]), self.ws[self.n + i]);
        Fit { node }
    }

    // The node of an id, with the children that stand behind base.
    fn row(&self, id: Id, base: usize) -> Result<Fit, Broken>
        requires { (id.0 < self.now.n) × (base + self.now.m ≤ size self.now.n self.now.m) }
        ensures { Reads self.now.ws.now self.now.n self.now.m id.0 base result }
    {
        let i = id.0 as usize;
        let count = self.ws[2 * self.n + i] as usize;
        let first = self.ws[3 * self.n + i] as usize;
        if count > language::PLACES {
            return Err(Broken);
        }
        if first + count > self.m {
            return Err(Broken);
        }
        let place = base + first;
        let kids = &self.ws[place..place + count];
        let node = Node::over(Op(self.ws[i]), self.ws[self.n + i], kids);
        Ok(Fit { node })
    }

    // The node of an id as it was given.
    pub fn given(&self, id: Id) -> Result<Fit, Broken>
        requires { id.0 < self.now.n }
        ensures { Given self.now.ws.now self.now.n self.now.m id.0 result }
    {
        self.row(id, given_base(self.n))
    }

    // The node of an id with the children that its key row has.
    pub fn key(&self, id: Id) -> Result<Fit, Broken>
        requires { id.0 < self.now.n }
        ensures { Key self.now.ws.now self.now.n self.now.m id.0 result }
    {
        self.row(id, key_base(self.n, self.m))
    }

    // The node of an id with the children that stand behind base, or without children where its row has none that a call could have written.
    fn row_or_leaf(&self, id: Id, base: usize) -> Fit
        requires { (id.0 < self.now.n) × (base + self.now.m ≤ size self.now.n self.now.m) }
        ensures { term result ≡ read self.now.ws.now self.now.n self.now.m id.0 base }
    {
        self.row(id, base).unwrap_or(self.leaf(id))
    }

    // The node of an id as it was given, on any words: a row that no call could have written counts as one without children.
    pub fn given_or_leaf(&self, id: Id) -> Fit
        requires { id.0 < self.now.n }
        ensures { term result ≡ given_read self.now.ws.now self.now.n self.now.m id.0 }
    {
        self.row_or_leaf(id, given_base(self.n))
    }

    // The node of an id with the children that its key row has, on any words: a row that no call could have written counts as one without children.
    pub fn key_or_leaf(&self, id: Id) -> Fit
        requires { id.0 < self.now.n }
        ensures { term result ≡ key_read self.now.ws.now self.now.n self.now.m id.0 }
    {
        self.row_or_leaf(id, key_base(self.n, self.m))
    }
}

// A new id: the node as given, and its key.
pub fn store(ws: &mut [u32], n: usize, m: usize, id: Id, place: usize, given: Fit, key: Fit)
    requires ws_len { (length ws.old ≡ size n m) × (id.0 < n) × (place + given.node.count ≤ m) × (m < 2 ^ 32) }
    requires same_count { key.node.count ≡ given.node.count }
    ensures { Stored ws.old ws.new n m id.0 place (term given) (term key) }
{
    let i = id.0 as usize;
    ws[i] = given.node.op.0;
    ws[n + i] = given.node.payload;
    ws[2 * n + i] = given.node.count;
    ws[3 * n + i] = place as u32;
    put_kids(ws, given_base(n) + place, given);
    put_kids(ws, key_base(n, m) + place, key);
}

// Another key for an id.
pub fn set_key(ws: &mut [u32], n: usize, m: usize, id: Id, key: Fit) -> Result<(), Broken>
    requires { (length ws.old ≡ size n m) × (id.0 < n) }
    ensures { Keyed ws.old ws.new n m id.0 (term key) result }
{
    let i = id.0 as usize;
    let count = ws[2 * n + i];
    let first = ws[3 * n + i] as usize;
    if count != key.node.count {
        return Err(Broken);
    }
    if first + count as usize > m {
        return Err(Broken);
    }
    put_kids(ws, key_base(n, m) + first, key);
    Ok(())
}
