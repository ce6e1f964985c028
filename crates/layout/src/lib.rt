// The words of a graph, cut into a head and nine parts, for the limits n (ids) and m (child places):
//
//   part     words    from                 what
//   head     32       0                    the numbers of struct Head, and spare words
//   forest   n        32                   union-find
//   rows     4n + 2m  32 +  1n             stored nodes
//   sorting  2n       32 +  5n + 2m        work area of the sort, no meaning between calls
//   uses     3n + m   32 +  7n + 2m        parent lists: cells are child places
//   owners   m        32 + 10n + 3m        the id that owns each child place
//   members  3n + n   32 + 10n + 4m        class nodes: cells are ids
//   table    3n + n   32 + 14n + 4m        buckets of the node table: cells are ids
//   pending  4n       32 + 18n + 4m        2n entries of two words
//   scratch  6n       32 + 22n + 4m        all 0 between calls
//   rest              32 + 28n + 4m        never touched
//
// Words of the head: 0 n, 1 m, 2 ids, 3 places, 4 depth of pending, 5 classes, 6 clean (0 or 1); 7 to 31 are spare, and 0 after setup.
// A head answers the range of each part, so that `&ws[h.owners()]` lends the owners; a function that lends a part promises `Lent` of specs/Lent.antt.
#![tactic(auto)]

pub mod arrays; // arrays.rt: the parts that are plain arrays
mod graph; // graph.rt: a graph as it is read, and as it is written
mod ranges; // ranges.rt: where each part lies

ghost use Rattle.std.specs.Prelude.{◌≡◌, ◌≤◌, length, SomeIff};
ghost use Rattle.lists.specs.Tests.{Says};
ghost use Rattle.layout.specs.Cut.{need as needed};
ghost use Rattle.layout.specs.View.{hd};
ghost use Rattle.layout.specs.Head.{HeadOk, HeadSays};
ghost use Rattle.layout.specs.Written.{written, fresh_numbers, fresh_head, Noted};

pub use arrays::{
    clear_scratch, owner, scratch, scratch_is_clear, set_owner, set_scratch, set_work, work,
};
pub use graph::{Graph, GraphMut};

// The most ids that a graph may be set up for.
pub const MAX_IDS: usize = 65536;

// The most child places that a graph may be set up for.
pub const MAX_PLACES: usize = 262144;

// The words of the head.
const HEAD_WORDS: usize = 32;

// The numbers that stand in the head.
#[derive(Clone, Copy, Debug, PartialEq, Eq)]
pub struct Head {
    pub n: usize,
    pub m: usize,
    pub ids: usize,
    pub places: usize,
    pub depth: usize,
    pub classes: usize,
    pub clean: bool,
}

impl Head {
    // The numbers of a graph without ids.
    pub fn fresh(n: usize, m: usize) -> Head
        ensures { result ≡ fresh_numbers n m }
    {
        Head {
            n,
            m,
            ids: 0,
            places: 0,
            depth: 0,
            classes: 0,
            clean: false,
        }
    }
}

// The words that the limits need. Limits are two numbers, as `setup` and C have them: where they are asked, there is no head yet, or it is made of them.
pub fn need(n: usize, m: usize) -> usize
    requires { (n ≤ 65536) × (m ≤ 262144) }
    ensures { result ≡ needed n m }
{
    HEAD_WORDS + 28 * n + 4 * m
}

// Whether a graph may be set up for n ids and m child places.
pub fn limits_fit(n: usize, m: usize) -> bool
    ensures { Says result ((1 ≤ n) × (n ≤ 65536) × (m ≤ 262144)) }
{
    (1..=MAX_IDS).contains(&n) && m <= MAX_PLACES
}

// How many words the limits need, if they are in range.
pub fn words_for(n: usize, m: usize) -> Option<usize>
    ensures { SomeIff result ((1 ≤ n) × (n ≤ 65536) × (m ≤ 262144)) (needed n m) }
{
    if limits_fit(n, m) {
        Some(need(n, m))
    } else {
        None
    }
}

// Whether the numbers are in range, and `len` words are as many as the limits need.
fn in_range(h: Head, len: usize) -> bool
    ensures { Says result (HeadOk len h) }
{
    (1..=MAX_IDS).contains(&h.n)
        && h.m <= MAX_PLACES
        && h.ids <= h.n
        && h.places <= h.m
        && h.depth <= 2 * h.n
        && h.classes <= h.ids
        && need(h.n, h.m) <= len
}

// The head that stands in the words, if it is a good one of as many words as are lent. The flag is tested by hand, as std makes no bool of a number.
pub fn read_head(ws: &[u32]) -> Option<Head>
    ensures { HeadSays (length ws.now) (hd ws.now) result }
{
    let [n, m, ids, places, depth, classes, clean, ..] = *ws else {
        return None;
    };
    if 1 < clean {
        return None;
    }
    let h = Head {
        n: n as usize,
        m: m as usize,
        ids: ids as usize,
        places: places as usize,
        depth: depth as usize,
        classes: classes as usize,
        clean: clean == 1,
    };
    in_range(h, ws.len()).then_some(h)
}

// The numbers written into the head; its spare words stay.
pub fn write_head(ws: &mut [u32], h: Head)
    requires { HeadOk (length ws.old) h }
    ensures { Noted ws.old ws.new (written (hd ws.old) h) }
{
    ws[..7].copy_from_slice(&[
        h.n as u32,
        h.m as u32,
        h.ids as u32,
        h.places as u32,
        h.depth as u32,
        h.classes as u32,
        u32::from(h.clean),
    ]);
}

// The head of a fresh graph, with all spare words 0. The limits n and m are what it writes: how many words are lent does not tell them.
pub fn fresh_head(ws: &mut [u32], n: usize, m: usize)
    requires { HeadOk (length ws.old) (fresh_numbers n m) }
    ensures { Noted ws.old ws.new (fresh_head n m) }
{
    ws[..HEAD_WORDS].fill(0);
    write_head(ws, Head::fresh(n, m));
}
