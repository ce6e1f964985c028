// Stored nodes: 8 ids with 16 places for children.
ghost use Rattle.std.specs.Prelude.{◌≡◌, ◌+◌, ◌<◌, ◌≤◌};

use super::trials::{Part, Plan, Turn};
use super::words::{FROM, TO, Words};
use super::{nodes, text, words};
use broken::Broken;
use language::{Fit, Id};
use rows::Nodes;
use std::io;

const IDS: usize = 8;

const PLACES: usize = 16;

pub struct Rows;

// A node and its key for an id.
fn store(ws: &mut Words, id: Id, place: usize, given: Fit, key: Fit)
    requires { (id.0 < 8) × (place + given.node.count ≤ 16) × (key.node.count ≡ given.node.count) }
{
    rows::store(&mut ws[FROM..TO], IDS, PLACES, id, place, given, key);
}

// The rows, to be read.
fn stored(ws: &Words) -> Nodes<'_>
    ensures { result.n ≡ 8 }
{
    Nodes {
        ws: &ws[FROM..TO],
        n: IDS,
        m: PLACES,
    }
}

fn given(ws: &Words, id: Id) -> Result<Fit, Broken>
    requires { id.0 < 8 }
{
    stored(ws).given(id)
}

fn key(ws: &Words, id: Id) -> Result<Fit, Broken>
    requires { id.0 < 8 }
{
    stored(ws).key(id)
}

// Whether the rows refused.
fn set_key(ws: &mut Words, id: Id, key: Fit) -> bool
    requires { id.0 < 8 }
{
    rows::set_key(&mut ws[FROM..TO], IDS, PLACES, id, key).is_err()
}

// Any node that fits, at any place.
fn store_some(ws: &mut Words, seed: u64) {
    let id = words::draw_word(seed, 3, IDS);
    let count = words::draw(seed, 4, 9);
    let place = words::draw(seed, 5, PLACES + 1 - count);
    let node = nodes::some_node(seed, count);
    store(ws, Id(id), place, node, node);
}

// A node as given, and its key.
fn show_both(rt: &impl Print, ws: &Words, id: Id) -> io::Result<()>
    requires { id.0 < 8 }
{
    text::node(rt, given(ws, id))?;
    text::node(rt, key(ws, id))
}

impl Part for Rows {
    const PLAN: Plan = Plan {
        name: "rows",
        still: Some("refused"),
        turns: 150,
        lo: FROM,
        hi: TO,
        bound: 10,
    };

    // A node with two children for each id.
    fn good(&self, ws: &mut Words) {
        for i in 0..8 {
            let node = nodes::over(i % 3, i / 2, &[i, 7 - i]);
            store(ws, Id(i), 2 * i as usize, node, node);
        }
    }

    fn calls(&self, turn: &mut Turn, seed: u64) {
        turn.call(|ws| {
            let _ = given(ws, Id(words::draw_word(seed, 1, IDS)));
        });
        turn.call(|ws| {
            let _ = key(ws, Id(words::draw_word(seed, 2, IDS)));
        });
        turn.call_or_still(|ws| {
            let id = words::draw_word(seed, 6, IDS);
            set_key(ws, Id(id), nodes::some_node(seed, words::draw(seed, 7, 4)))
        });
        turn.call(|ws| store_some(ws, seed));
    }

    // The node of 3 is 11 21 with children 5 6, and its key has 5 5. Another key has 4 4.
    fn answers(&self, rt: &impl Print, ws: &mut Words) -> io::Result<()> {
        let node = nodes::over(11, 21, &[5, 6]);
        store(ws, Id(3), 14, node, nodes::over(11, 21, &[5, 5]));
        show_both(rt, ws, Id(3))?;
        set_key(ws, Id(3), nodes::over(11, 21, &[4, 4]));
        show_both(rt, ws, Id(3))
    }
}
