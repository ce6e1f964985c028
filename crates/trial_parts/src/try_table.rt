// The table of keys for 4 ids, in the first 16 of the words, and behind it the stored nodes, with 16 places for children, which are only read.
ghost use Rattle.std.specs.Prelude.{◌<◌, ◌≤◌};

use super::trials::{Part, Plan, Turn};
use super::words::{FROM, TO, Words};
use super::{nodes, words};
use broken::Broken;
use language::{Fit, Id};
use rows::Nodes;
use std::io;

const IDS: usize = 4;

const PLACES: usize = 16;

// Where the table ends, and the stored nodes begin.
const END: usize = 24;

pub struct Table;

// Whether the table refused.
fn enter(ws: &mut Words, bucket: usize, id: u32) -> bool
    requires { (bucket < 4) × (id < 4) }
{
    table::enter(&mut ws[FROM..END], IDS, bucket, Id(id)).is_err()
}

// Whether the id was not in the bucket, or the table refused.
fn leave(ws: &mut Words, bucket: usize, id: u32) -> bool
    requires { (bucket < 4) × (id < 4) }
{
    !matches!(
        table::leave(&mut ws[FROM..END], IDS, bucket, Id(id)),
        Ok(true)
    )
}

fn ask(ws: &Words, key: Fit) -> Result<Option<Id>, Broken> {
    let stored = Nodes {
        ws: &ws[END..TO],
        n: IDS,
        m: PLACES,
    };
    table::ask(&ws[FROM..END], &stored, key)
}

// An id with its key, which has two children at most, in the stored nodes and in the table.
fn put_key(ws: &mut Words, id: u32, key: Fit)
    requires { (id < 4) × (key.node.count ≤ 2) }
{
    rows::store(
        &mut ws[END..TO],
        IDS,
        PLACES,
        Id(id),
        2 * id as usize,
        key,
        key,
    );
    enter(ws, table::bucket(key, IDS), id);
}

fn show(rt: &impl Print, ws: &Words, key: Fit) -> io::Result<()> {
    match ask(ws, key) {
        Ok(Some(id)) => print!(rt; " {}", id.0),
        Ok(None) => print!(rt; " none"),
        Err(_) => print!(rt; " broken"),
    }
}

fn show_all(rt: &impl Print, ws: &Words) -> io::Result<()> {
    show(rt, ws, nodes::over(1, 9, &[]))?;
    show(rt, ws, nodes::over(2, 0, &[6]))?;
    show(rt, ws, nodes::over(2, 0, &[5]))
}

impl Part for Table {
    const PLAN: Plan = Plan {
        name: "table",
        still: Some("refused"),
        turns: 150,
        lo: FROM,
        hi: END,
        bound: 6,
    };

    // Every id with a key of two children.
    fn good(&self, ws: &mut Words) {
        cells::clear(&mut ws[FROM..END], IDS);
        for i in 0..4 {
            put_key(ws, i, nodes::over(i % 2, 0, &[i, 3]));
        }
    }

    fn calls(&self, turn: &mut Turn, seed: u64) {
        turn.call(|ws| {
            let _ = ask(ws, nodes::some_node(seed, words::draw(seed, 1, 3)));
        });
        turn.call_or_still(|ws| leave(
            ws,
            words::draw(seed, 4, IDS),
            words::draw_word(seed, 5, IDS),
        ));
        turn.call_or_still(|ws| enter(
            ws,
            words::draw(seed, 2, IDS),
            words::draw_word(seed, 3, IDS),
        ));
    }

    // 3 has the leaf 1 9 as its key and 1 the node 2 0 with the child 6; no id has the one with the child 5. Then 1 leaves.
    fn answers(&self, rt: &impl Print, ws: &mut Words) -> io::Result<()> {
        cells::clear(&mut ws[FROM..END], IDS);
        let key = nodes::over(2, 0, &[6]);
        put_key(ws, 3, nodes::over(1, 9, &[]));
        put_key(ws, 1, key);
        show_all(rt, ws)?;
        leave(ws, table::bucket(key, IDS), 1);
        show_all(rt, ws)
    }
}
