// Builds graphs of four sizes by the open calls, rebuilds them, and writes for each what came out:
//
//     N nodes, U unions, Y yes; rebuild R, C classes
//
// N ids were made; U unions of leaves were asked for, and Y of them answered yes; the rebuild answered R, and there are C classes after it. A graph has N / 5
// leaves and, over them, nodes with one child or two; unions of leaves bring congruences about, and these further ones. What is drawn comes from a linear
// congruential generator, so that every run is the same. docs/COST.md says where the expected numbers come from, and what a rebuild costs.
#![tactic(auto)]

ghost use Rattle.std.specs.Prelude.{◌≡◌, ◌/◌, ◌≤◌};

mod building;
mod calls;
mod text;

use calls::WORDS;
use std::io;

// How large a graph is: how many ids it has room for, and how many of them are leaves.
#[derive(Clone, Copy)]
struct Size {
    ids: u32,
    leaves: u32,
    ghost some_leaves: { (1 ≤ leaves) × (leaves ≤ ids) },
    ghost fits: { ids ≤ 50000 },
}

impl Size {
    // One id in five is a leaf.
    fn new(ids: u32) -> Size
        requires { (5 ≤ ids) × (ids ≤ 50000) }
        ensures { (result.ids ≡ ids) × (result.leaves ≡ ids / 5) }
    {
        Size {
            ids,
            leaves: ids / 5,
        }
    }
}

// A graph of a size.
fn graph(rt: &impl Print, ws: &mut [u32; WORDS], size: Size) -> io::Result<()> {
    let unions = size.leaves + size.leaves;
    calls::setup(rt, ws, size);
    let b = building::nodes(rt, ws, size);
    let yes = building::unions(rt, ws, b.seed, size, unions);
    text::built(rt, b.ids, unions, yes)?;
    let count = calls::rebuild(rt, ws);
    text::rebuilt(rt, count, calls::number_of_classes(rt, ws))
}

fn main(rt: HostRuntime) -> io::Result<()> {
    let mut ws = [0u32; WORDS];
    for n in [5000, 10000, 20000, 50000] {
        graph(&rt, &mut ws, Size::new(n))?;
    }
    Ok(())
}
