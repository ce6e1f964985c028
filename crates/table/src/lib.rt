// The table of keys: which id has a node as its key. A slice of 4n words, a pool of linked cells (crate `cells`) for n ids and n buckets:
//
//     from           words    what
//     0              n        the id that went into each bucket last
//     n              n        the id that went into each bucket first
//     n + n          n        how many ids each bucket has
//     n + n + n      n        the id that went into the same bucket before each id
//
// The key of an id is not here: it is the id's key row in the stored nodes (crate `rows`), whose words `ask` only reads.
// `enter` and `leave` take n beside the words, and no struct of both, as cells has it: a caller lends them (document 01). `ask` has n from the `Nodes` that it
// is lent.
// An id is in one bucket at most, that of its key's hash. `Table` of specs/Table.antt says which table the words hold.
#![tactic(auto)]

ghost use Rattle.std.specs.Prelude.{◌≡◌, ◌≤◌, ◌<◌, length};
ghost use Rattle.language.specs.Fitting.{term};
ghost use Rattle.rows.specs.Rows.{size};
ghost use Rattle.cells.specs.Changes.{Room};
ghost use Rattle.table.specs.Buckets.{Lands};
ghost use Rattle.table.specs.Seeking.{Compares, Sought};
ghost use Rattle.table.specs.Asking.{Answers};
ghost use Rattle.table.specs.Entering.{Entered};
ghost use Rattle.table.specs.Leaving.{Departed};

use broken::Broken;
use cells::Pool;
use language::{Fit, Id};
use rows::Nodes;

const WORDS: u64 = 4294967296;

// In which of n buckets a key is kept: the hash, scaled down from all words to n.
pub fn bucket(key: Fit, n: usize) -> usize
    requires { (1 ≤ n) × (n ≤ 65536) }
    ensures { Lands n (term key) result }
{
    let h = key.node.hash() as u64;
    let r = h * (n as u64) / WORDS;
    r as usize
}

// Whether the key of an id is the one that is looked for. The key stands in the words, so no derive can compare it.
fn compare(nodes: &Nodes<'_>, id: Id, key: Fit) -> Result<bool, Broken>
    requires { id.0 < nodes.now.n }
    ensures { Compares nodes.now.ws.now nodes.now.n nodes.now.m id.0 (term key) result }
{
    let row = nodes.key(id)?;
    Ok(row.node.same(key.node))
}

// The id in one bucket that has a key, from the bucket's end: a walk over linked cells, made step by step for the reason that stands beside `walk` of cells.
fn seek(ts: &[u32], nodes: &Nodes<'_>, bucket: usize, key: Fit) -> Result<Option<Id>, Broken>
    requires room { Room ts.now nodes.now.n nodes.now.n }
    requires bucket_lt_n { bucket < nodes.now.n }
    ensures { Sought ts.now nodes.now.ws.now nodes.now.n nodes.now.m bucket (term key) result }
{
    let n = nodes.n;
    let pool = Pool {
        ws: ts,
        lists: n,
        cells: n,
    };
    let size = pool.len(bucket);
    if size > n {
        return Err(Broken);
    }
    let mut cur = pool.last(bucket);
    for passed in 0..size {
        if cur >= n {
            return Err(Broken);
        }
        let id = Id(cur as u32);
        if compare(nodes, id, key)? {
            return Ok(Some(id));
        }
        cur = pool.link(cur);
    }
    Ok(None)
}

// The id in the table that has this key.
pub fn ask(ts: &[u32], nodes: &Nodes<'_>, key: Fit) -> Result<Option<Id>, Broken>
    requires room { Room ts.now nodes.now.n nodes.now.n }
    requires n_in_range { (1 ≤ nodes.now.n) × (nodes.now.n ≤ 65536) }
    ensures { Answers ts.now nodes.now.ws.now nodes.now.n nodes.now.m (term key) result }
{
    let b = bucket(key, nodes.n);
    seek(ts, nodes, b, key)
}

// Puts an id, which is in no bucket, into the bucket of its key. The bucket is handed in, here and to `leave`, and not worked out of the key: trial_parts
// tries both with buckets that no key has.
pub fn enter(ts: &mut [u32], n: usize, bucket: usize, id: Id) -> Result<(), Broken>
    requires room { Room ts.old n n }
    requires bucket_lt_n { (bucket < n) × (id.0 < n) }
    ensures { Entered ts.old ts.new n bucket id.0 result }
{
    cells::push(ts, n, n, bucket, id.0 as usize)
}

// Takes an id out of the bucket of its key, if it is there.
pub fn leave(ts: &mut [u32], n: usize, bucket: usize, id: Id) -> Result<bool, Broken>
    requires room { Room ts.old n n }
    requires bucket_lt_n { (bucket < n) × (id.0 < n) }
    ensures { Departed ts.old ts.new n bucket id.0 result }
{
    cells::remove(ts, n, n, bucket, id.0 as usize)
}
