// The sort: 8 ids with 8 places for children. The rows, which are only read, count as words outside: what is lent to be changed starts at WORK.
ghost use Rattle.std.specs.Prelude.{◌<◌, ◌≤◌};

use super::trials::{Part, Plan, Turn};
use super::words::{FROM, TO, Words};
use super::{nodes, text, words};
use broken::Broken;
use language::{Fit, Id};
use std::io;

const IDS: usize = 8;

const PLACES: usize = 8;

const WORK: usize = 56;

pub struct Sorting;

// An id with its key, which has one child at most.
fn store_key(ws: &mut Words, id: u32, key: Fit)
    requires { (id < 8) × (key.node.count ≤ 1) }
{
    rows::store(
        &mut ws[FROM..WORK],
        IDS,
        PLACES,
        Id(id),
        id as usize,
        key,
        key,
    );
}

fn sort(ws: &mut Words, k: usize) -> Result<usize, Broken>
    requires { k ≤ 8 }
{
    sorting::sort(&mut ws[FROM..TO], IDS, PLACES, k)
}

impl Part for Sorting {
    const PLAN: Plan = Plan {
        name: "sorting",
        still: Some("refused"),
        turns: 100,
        lo: WORK,
        hi: TO,
        bound: 8,
    };

    // A node with one child for each id, and the ids from 7 down to 0.
    fn good(&self, ws: &mut Words) {
        for i in 0..8 {
            store_key(ws, i, nodes::over(i % 3, 0, &[i / 2]));
            ws[WORK + i as usize] = 7 - i;
        }
    }

    fn calls(&self, turn: &mut Turn, seed: u64) {
        turn.call_or_still(|ws| sort(ws, words::draw(seed, 0, IDS + 1)).is_err());
        turn.call_or_still(|ws| sort(ws, words::draw(seed, 1, IDS + 1)).is_err());
    }

    // The keys of 1, 2 and 0 ascend. Of four ids to sort, one of them twice, the sort leaves three: 1 2 0. With an 8 among them, which is no id, it refuses.
    fn answers(&self, rt: &impl Print, ws: &mut Words) -> io::Result<()> {
        store_key(ws, 0, nodes::over(3, 0, &[]));
        store_key(ws, 1, nodes::over(1, 5, &[]));
        store_key(ws, 2, nodes::over(1, 5, &[0]));
        ws[WORK..WORK + 4].copy_from_slice(&[0, 2, 1, 0]);
        text::answer(rt, sort(ws, 4))?;
        for id in &ws[WORK..WORK + 3] {
            print!(rt; " {id}")?;
        }
        ws[WORK + 1] = 8;
        text::answer(rt, sort(ws, 4))
    }
}
