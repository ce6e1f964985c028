// The parts that are plain arrays: owners, one word for each child place; scratch, 6n words; and the work area of the sort, 2n words. A word of each is read
// and written by `load` and `store`, given the part; what stands three times is which part it is, in the range and in the promise. A trait would say that in as
// many lines, of three types that hold nothing.
ghost use Rattle.std.specs.Prelude.{◌≡◌, ◌*◌, ◌<◌, ◌^◌, length, replicate};
ghost use Rattle.lists.specs.Tests.{Says};
ghost use Rattle.layout.specs.Cut.{owners, scratch, sorting};
ghost use Rattle.layout.specs.Seen.{seen};
ghost use Rattle.layout.specs.Lent.{Lent, Stored};
ghost use Rattle.layout.specs.Did.{Did};
ghost use Rattle.lists.specs.Reads.{Word};

use super::{Graph, GraphMut};

fn load(ws: &[u32], i: usize) -> u32
    requires { i < length ws.now }
    ensures { Word ws.now i result }
{
    ws[i]
}

fn store(ws: &mut [u32], i: usize, v: u32)
    requires { i < length ws.old }
    ensures { Stored i v ws.old ws.new }
{
    ws[i] = v;
}

// The id that owns a child place.
pub fn owner(g: &Graph<'_>, place: usize) -> u32
    requires { place < g.now.h.m }
    ensures { Word (seen g.now).owners place result }
{
    load(&g.ws[g.h.owners()], place)
}

pub fn set_owner(g: &mut GraphMut<'_>, place: usize, id: u32)
    requires { place < g.old.h.m }
    ensures { Did (Lent owners g.old.h.n g.old.h.m (Stored place id)) g.old g.new }
{
    let h = g.h;
    store(&mut g.ws[h.owners()], place, id);
}

// Word i of the scratch part: a price's half, a mark, a place or a class, of which most are indices.
pub fn scratch(g: &Graph<'_>, i: usize) -> usize
    requires { i < 6 * g.now.h.n }
    ensures { Word (seen g.now).scratch i result }
{
    load(&g.ws[g.h.scratch()], i) as usize
}

pub fn set_scratch(g: &mut GraphMut<'_>, i: usize, v: usize)
    requires { (i < 6 * g.old.h.n) × (v < 2 ^ 32) }
    ensures { Did (Lent scratch g.old.h.n g.old.h.m (Stored i v)) g.old g.new }
{
    let h = g.h;
    store(&mut g.ws[h.scratch()], i, v as u32);
}

// Whether the scratch part is 0.
pub fn scratch_is_clear(g: &Graph<'_>) -> bool
    ensures { Says result ((seen g.now).scratch ≡ replicate (6 * g.now.h.n) 0) }
{
    g.ws[g.h.scratch()].iter().all(|w| *w == 0)
}

// Sets the scratch part to 0.
pub fn clear_scratch(g: &mut GraphMut<'_>)
    ensures { Did (Lent scratch g.old.h.n g.old.h.m (λ s s'. s' ≡ replicate (6 * g.old.h.n) 0)) g.old g.new }
{
    let h = g.h;
    g.ws[h.scratch()].fill(0);
}

// Word i of the work area of the sort.
pub fn work(g: &Graph<'_>, i: usize) -> u32
    requires { i < 2 * g.now.h.n }
    ensures { Word (seen g.now).sorting i result }
{
    load(&g.ws[g.h.sorting()], i)
}

pub fn set_work(g: &mut GraphMut<'_>, i: usize, v: u32)
    requires { i < 2 * g.old.h.n }
    ensures { Did (Lent sorting g.old.h.n g.old.h.m (Stored i v)) g.old g.new }
{
    let h = g.h;
    store(&mut g.ws[h.sorting()], i, v);
}
