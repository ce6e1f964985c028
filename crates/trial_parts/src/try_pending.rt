// The stack of what waits: 32 entries.
ghost use Rattle.std.specs.Prelude.{◌<◌, ◌≤◌};

use super::trials::{Part, Plan, Turn};
use super::words;
use super::words::{FROM, TO, Words};
use pending::OnTop;
use std::io;

const ENTRIES: usize = 32;

pub struct Pending;

fn push_one(ws: &mut Words, depth: usize, id: usize)
    requires { (depth < 32) × (id < 30000) }
{
    pending::push_one(&mut ws[FROM..TO], depth, id);
}

// The depth afterwards.
fn push_stretch(ws: &mut Words, depth: usize, last: usize, count: usize) -> usize
    requires { (depth < 32) × (last < 30000) × (count < 30000) }
{
    pending::push_stretch(&mut ws[FROM..TO], depth, last, count)
}

fn top(ws: &Words, depth: usize) -> OnTop<usize>
    requires { (1 ≤ depth) × (depth ≤ 32) }
{
    pending::top(&ws[FROM..TO], depth)
}

fn show(rt: &impl Print, ws: &Words, depth: usize) -> io::Result<()>
    requires { (1 ≤ depth) × (depth ≤ 32) }
{
    match top(ws, depth) {
        OnTop::TopOne(id) => print!(rt; " {id}"),
        OnTop::TopMany(last, count) => print!(rt; " {last} {count}"),
    }
}

impl Part for Pending {
    const PLAN: Plan = Plan {
        name: "pending",
        still: Some("idle"),
        turns: 200,
        lo: FROM,
        hi: TO,
        bound: 40,
    };

    // Every entry a stretch of two places.
    fn good(&self, ws: &mut Words) {
        for depth in 0..ENTRIES {
            push_stretch(ws, depth, depth, 2);
        }
    }

    // A stretch of no place changes no word.
    fn calls(&self, turn: &mut Turn, seed: u64) {
        turn.call(|ws| {
            top(ws, 1 + words::draw(seed, 1, ENTRIES));
        });
        turn.call(|ws| push_one(
            ws,
            words::draw(seed, 2, ENTRIES),
            words::draw(seed, 3, 30000),
        ));
        turn.call_or_still(|ws| {
            let depth = words::draw(seed, 4, ENTRIES);
            push_stretch(
                ws,
                depth,
                words::draw(seed, 5, 30000),
                words::draw(seed, 6, 3),
            ) == depth
        });
    }

    // The id 7, and on it the stretch of 3 places that ends at 5; a stretch of no place leaves the depth at 2.
    fn answers(&self, rt: &impl Print, ws: &mut Words) -> io::Result<()> {
        push_one(ws, 0, 7);
        print!(rt; " {}", push_stretch(ws, 1, 5, 3))?;
        print!(rt; " {}", push_stretch(ws, 2, 9, 0))?;
        show(rt, ws, 2)?;
        show(rt, ws, 1)
    }
}
