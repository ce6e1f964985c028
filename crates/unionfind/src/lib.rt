// The union-find over a slice of parents, as egg's `unionfind.rs` has it.
//
//     word       means
//     0 .. ids   word i is the parent of id i; a root is its own parent
//     ids ..     nothing
//
// How many ids there are is the caller's to keep. The words may be any: each function ends, stays inside the slice and says in its promise
// (specs/Promise.antt) what it does; on words that hold a forest (specs/Forest.antt) it does what a union-find does.
#![tactic(auto)]

ghost use Rattle.std.specs.Prelude.{◌<◌, ◌≤◌, ◌^◌, length};
ghost use Rattle.unionfind.specs.Promise.{MakesSet, Finds, FindsMut, Unites};

use broken::Broken;

// One id more, its own root. The new id is `ids`.
pub fn make_set(ps: &mut [u32], ids: usize)
    requires { (ids < length ps.old) × (ids < 2 ^ 32) }
    ensures { MakesSet ps.old ids ps.new }
{
    ps[ids] = ids as u32;
}

// The root of `id`. No more than `ids` links are followed: a chain of ids that is no circle has fewer.
pub fn find(ps: &[u32], ids: usize, id: usize) -> Result<usize, Broken>
    requires { (id < ids) × (ids ≤ length ps.now) × (ids ≤ 65536) }
    ensures { Finds ps.now ids id result }
{
    let mut current = id;
    for followed in 0..ids {
        let parent = ps[current] as usize;
        if parent == current {
            return Ok(current);
        }
        if ids <= parent {
            return Err(Broken);
        }
        current = parent;
    }
    Err(Broken)
}

// The root of `id`, with path halving: each id on the way gets its grandparent for its parent.
pub fn find_mut(ps: &mut [u32], ids: usize, id: usize) -> Result<usize, Broken>
    requires { (id < ids) × (ids ≤ length ps.old) × (ids ≤ 65536) }
    ensures { FindsMut ps.old ids id result ps.new }
{
    let mut current = id;
    for followed in 0..ids {
        let parent = ps[current] as usize;
        if parent == current {
            return Ok(current);
        }
        if ids <= parent {
            return Err(Broken);
        }
        let grandparent = ps[parent] as usize;
        if ids <= grandparent {
            return Err(Broken);
        }
        ps[current] = grandparent as u32;
        current = grandparent;
    }
    Err(Broken)
}

// Joins the classes of two roots: `root1` becomes the leader.
pub fn union(ps: &mut [u32], root1: usize, root2: usize)
    requires { (root1 < length ps.old) × (root2 < length ps.old) × (root1 < 2 ^ 32) }
    ensures { Unites ps.old root1 root2 ps.new }
{
    ps[root2] = root1 as u32;
}
