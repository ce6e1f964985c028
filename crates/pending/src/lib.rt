// The ids that wait for a rebuild, as a stack of entries of two words. An entry stands for one id, or for a whole stretch of a linked list
// of places: the places from its last one backwards, each of which some id owns.
//
//     words                     mean
//     2 * d, 2 * d + 1          entry d, counted from 0 at the bottom: (id, 0), or (last place, count) with 0 < count
//     2 * depth ..              nothing
//
// The depth, which is the number of entries, is the caller's to keep. To take the id pushed last, the caller asks for the `top`. One id: the depth
// falls by one. A stretch: the id is the owner of its last place, and `push_stretch` at the depth below puts the stretch without that place there.
// So the depth comes beside the words: it stands in the head, which is another part. What the words stand for is specs/Moves.antt's `Pending`.
// Ids, places and counts are numbers here, as a caller has them to index with; that one fits a word is asked where it is stored, here and in the other parts.
#![tactic(auto)]

ghost use Rattle.std.specs.Prelude.{◌+◌, ◌≤◌, ◌<◌, ◌^◌, length};
ghost use Rattle.pending.specs.Promise.{Pushes, PushesStretch, Tops};

// The entry on top: an id, of whatever type the caller has for ids; or the last place and the count of a stretch.
#[derive(Clone, Copy)]
pub enum OnTop<I> {
    TopOne(I),
    TopMany(usize, usize),
}

// The entry (x, count) on top of `depth` entries.
fn push(ps: &mut [u32], depth: usize, x: usize, count: usize)
    requires { (depth + depth + 1 < length ps.old) × (x < 2 ^ 32) × (count < 2 ^ 32) }
    ensures { Pushes ps.old depth x count ps.new }
{
    let p = depth + depth;
    ps[p] = x as u32;
    ps[p + 1] = count as u32;
}

// Pushes one id: the depth rises by one.
pub fn push_one(ps: &mut [u32], depth: usize, id: usize)
    requires { (depth + depth + 1 < length ps.old) × (id < 2 ^ 32) }
    ensures { Pushes ps.old depth id 0 ps.new }
{
    push(ps, depth, id, 0);
}

// Pushes the stretch of `count` places that ends at `last`, if it has any, and answers the depth afterwards.
pub fn push_stretch(ps: &mut [u32], depth: usize, last: usize, count: usize) -> usize
    requires { (depth + depth + 1 < length ps.old) × (last < 2 ^ 32) × (count < 2 ^ 32) }
    ensures { PushesStretch ps.old depth last count result ps.new }
{
    if count == 0 {
        return depth;
    }
    push(ps, depth, last, count);
    depth + 1
}

// The entry pushed last: an id; or the last place and the count of a stretch.
pub fn top(ps: &[u32], depth: usize) -> OnTop<usize>
    requires { (0 < depth) × (depth + depth ≤ length ps.now) }
    ensures { Tops ps.now depth result }
{
    let below = depth - 1;
    let p = below + below;
    let x = ps[p] as usize;
    let count = ps[p + 1] as usize;
    if count == 0 {
        return OnTop::TopOne(x);
    }
    OnTop::TopMany(x, count)
}
