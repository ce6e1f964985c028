// Sorts ids by the node order of their keys, and keeps one of the ids whose keys are equal.
// One slice of 4n + 2m + 2n words, for n ids and m places of children:
//
//     from                       words    what
//     0                          4n + 2m  the rows of the ids, as the crate `rows` has them; only read
//     4n + 2m                    n        the ids to sort: the first k words, and afterwards the first d
//     4n + 2m + n                n        words to work in
//
// `sort` takes n and m beside the words, which a caller lends (document 01): how many there are does not tell both. It makes one `Work` of the three.
// A merge sort from the top down. A merge drops what is equal, so that a run is strictly ascending and needs no last pass.
#![tactic(auto)]

ghost use Rattle.std.specs.Prelude.{◌≡◌, true, ◌+◌, ◌≤◌, ◌<◌, ◌^◌, length};
ghost use Rattle.lists.specs.Reads.{at};
ghost use Rattle.lists.specs.Tests.{Says};
ghost use Rattle.rows.specs.Rows.{size};
ghost use Rattle.sorting.specs.Stretch.{rest};
ghost use Rattle.sorting.specs.Ids.{by, Below};
ghost use Rattle.sorting.specs.Did.{Did};
ghost use Rattle.sorting.specs.Turn.{Waiting, Heads, Shorter, Turned};
ghost use Rattle.sorting.specs.Merge.{Beside, Merges};
ghost use Rattle.sorting.specs.Run.{Area, Ran};
ghost use Rattle.sorting.specs.Join.{Near, Meet, Joins};
ghost use Rattle.sorting.specs.Promise.{Sorts};

use broken::Broken;
use language::Id;
use rows::Nodes;
use std::cmp::Ordering;

// Ids that stand one after another, `len` of them from `start` on. No slice, since the words are written while two stretches of them are in hand; and no
// `Range` of std, which is no `Copy`.
#[derive(Clone, Copy)]
struct Stretch {
    start: usize,
    len: usize,
}

impl Stretch {
    // Without the first id.
    fn rest(self) -> Stretch
        requires { (0 < self.len) × (self.start + self.len < 2 ^ 64) }
        ensures { result ≡ rest self }
    {
        Stretch {
            start: self.start + 1,
            len: self.len - 1,
        }
    }
}

// Two stretches that become one: of equal ids it is the left one's that is kept.
#[derive(Clone, Copy)]
struct Pair {
    left: Stretch,
    right: Stretch,
}

// One turn of a merge: where the next id is, and what is left of the pair.
#[derive(Clone, Copy)]
struct Turn {
    from: usize,
    rest: Pair,
}

// The words, to be written, and n and m, which say what stands where in them.
#[derive(Drop)]
struct Work<'a> {
    ws: &'a mut [u32],
    n: usize,
    m: usize,
}

impl Work<'_> {
    // The order of the ids at i and j: that of their keys. The keys stand in the words, so no derive can compare them.
    fn compare(&self, i: usize, j: usize) -> Ordering
        requires m_in_bounds { (size self.now.n self.now.m ≤ length self.now.ws.now) × (i < length self.now.ws.now) × (j < length self.now.ws.now) }
        requires i_bound { (at self.now.ws.now i < self.now.n) × (at self.now.ws.now j < self.now.n) }
        ensures { result ≡ by self.now.ws.now self.now.n self.now.m (at self.now.ws.now i) (at self.now.ws.now j) }
    {
        let n = self.n;
        let m = self.m;
        let nodes = Nodes {
            ws: &self.ws[..rows::need(n, m)],
            n,
            m,
        };
        let a = nodes.key_or_leaf(Id(self.ws[i]));
        let b = nodes.key_or_leaf(Id(self.ws[j]));
        a.node.order(b.node)
    }

    // The order of the first ids of two stretches, of which one has an id: one without ids comes last.
    fn heads(&self, pair: Pair) -> Ordering
        requires { Waiting self.now.ws.now self.now.n self.now.m pair.left pair.right }
        ensures { Heads self.now.ws.now self.now.n self.now.m pair.left pair.right result }
    {
        if pair.left.len == 0 {
            return Ordering::Greater;
        }
        if pair.right.len == 0 {
            return Ordering::Less;
        }
        self.compare(pair.left.start, pair.right.start)
    }

    // Which id comes next, of those of two stretches. Of two ids with equal keys the right one is passed over.
    fn next(&self, pair: Pair) -> Turn
        requires { Waiting self.now.ws.now self.now.n self.now.m pair.left pair.right }
        ensures shorter { Shorter pair.left pair.right result }
        ensures step { Turned self.now.ws.now self.now.n self.now.m pair.left pair.right result }
    {
        let Pair { left, right } = pair;
        let (from, left, right) = match self.heads(pair) {
            Ordering::Less => (left.start, left.rest(), right),
            Ordering::Equal => (left.start, left.rest(), right.rest()),
            Ordering::Greater => (right.start, left, right.rest()),
        };
        Turn {
            from,
            rest: Pair { left, right },
        }
    }

    // Merges two stretches into the words from `to` on, and answers how many words that are.
    fn merge(&mut self, pair: Pair, to: usize) -> usize
        requires { Beside self.old.ws.now self.old.n self.old.m pair.left pair.right to }
        ensures { Did (λ ws ws' n m. Merges ws ws' n m pair.left pair.right to result) self.old self.new }
    {
        let mut rest = pair;
        let mut d: usize = 0;
        // Not a `for`: how many turns there are depends on how many ids have equal keys.
        while 0 < rest.left.len + rest.right.len {
            let turn = self.next(rest);
            self.ws[to + d] = self.ws[turn.from];
            d += 1;
            rest = turn.rest;
        }
        d
    }

    // Whether the second run starts where the first ends and comes after it, so that nothing is to do.
    fn meets(&self, pair: Pair) -> bool
        requires { Near self.now.ws.now self.now.n self.now.m pair.left pair.right }
        ensures { result ≡ true → Meet self.now.ws.now self.now.n self.now.m pair.left pair.right }
    {
        let Pair { left, right } = pair;
        if left.len == 0 || right.len == 0 || left.start + left.len < right.start {
            return false;
        }
        self.compare(right.start - 1, right.start) == Ordering::Less
    }

    // Makes one run of two, where the first starts, with the words n further on to work in.
    fn join(&mut self, pair: Pair) -> usize
        requires { Near self.old.ws.now self.old.n self.old.m pair.left pair.right }
        ensures { Did (λ ws ws' n m. Joins ws ws' n m pair.left pair.right result) self.old self.new }
    {
        if self.meets(pair) {
            return pair.left.len + pair.right.len;
        }
        let to = pair.left.start + self.n;
        let d = self.merge(pair, to);
        self.ws.copy_within(to..to + d, pair.left.start);
        d
    }

    // Sorts two ids at lo.
    fn sort_two(&mut self, lo: usize) -> usize
        requires { Area self.old.ws.now self.old.n self.old.m lo 2 }
        ensures { Did (λ ws ws' n m. Ran ws ws' n m lo 2 result) self.old self.new }
    {
        let hi = lo + 1;
        match self.compare(lo, hi) {
            Ordering::Less => 2,
            Ordering::Equal => 1,
            Ordering::Greater => {
                self.ws.swap(lo, hi);
                2
            }
        }
    }

    // Sorts the k ids at lo, with the k words n further on to work in.
    fn sort_run(&mut self, lo: usize, k: usize) -> usize
        requires { Area self.old.ws.now self.old.n self.old.m lo k }
        ensures { Did (λ ws ws' n m. Ran ws ws' n m lo k result) self.old self.new }
    {
        if k < 2 {
            return k;
        }
        if k == 2 {
            return self.sort_two(lo);
        }
        let h = k / 2;
        let mid = lo + h;
        let a = self.sort_run(lo, h);
        let b = self.sort_run(mid, k - h);
        self.join(Pair {
            left: Stretch { start: lo, len: a },
            right: Stretch { start: mid, len: b },
        })
    }

    // Whether the k words at base are ids.
    fn are_ids(&self, base: usize, k: usize) -> bool
        requires { base + k ≤ length self.now.ws.now }
        ensures { Says result (Below self.now.ws.now self.now.n base k) }
    {
        self.ws[base..base + k]
            .iter()
            .all(|w| (*w as usize) < self.n)
    }
}

// Sorts the k ids at the start of the work area by the order of their keys, and keeps one of those whose keys are equal.
pub fn sort(ws: &mut [u32], n: usize, m: usize, k: usize) -> Result<usize, Broken>
    requires { (length ws.old ≡ size n m + n + n) × (k ≤ n) }
    ensures { Sorts ws.old ws.new n m k result }
{
    let base = rows::need(n, m);
    let mut work = Work { ws, n, m };
    if !work.are_ids(base, k) {
        return Err(Broken);
    }
    Ok(work.sort_run(base, k))
}
