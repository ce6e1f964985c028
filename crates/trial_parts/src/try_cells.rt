// Linked cells: 8 lists of 40 cells.
ghost use Rattle.std.specs.Prelude.{◌≡◌, ◌<◌};

use super::trials::{Part, Plan, Turn};
use super::words::{FROM, TO, Words};
use super::{text, words};
use cells::Pool;
use std::io;

const LISTS: usize = 8;

const CELLS: usize = 40;

pub struct Cells;

// Whether the cells refused.
fn push(ws: &mut Words, list: usize, cell: usize) -> bool
    requires { (list < 8) × (cell < 40) }
{
    cells::push(&mut ws[FROM..TO], LISTS, CELLS, list, cell).is_err()
}

// Whether the cell was not in the list, or the cells refused.
fn remove(ws: &mut Words, list: usize, cell: usize) -> bool
    requires { (list < 8) × (cell < 40) }
{
    !matches!(
        cells::remove(&mut ws[FROM..TO], LISTS, CELLS, list, cell),
        Ok(true)
    )
}

// Joins the list behind a list to it. Whether the cells refused.
fn join_next(ws: &mut Words, stay: usize) -> bool
    requires { stay < 7 }
{
    cells::join(&mut ws[FROM..TO], LISTS, CELLS, stay, stay + 1).is_err()
}

// The lists, to be read. `stored` of try_rows makes the struct of another crate by such lines.
fn pool(ws: &Words) -> Pool<'_>
    ensures { result.lists ≡ 8 }
{
    Pool {
        ws: &ws[FROM..TO],
        lists: LISTS,
        cells: CELLS,
    }
}

// How many cells a list has, and which, from the last on: each by `nth`, which is what is tried.
fn show(rt: &impl Print, ws: &Words, list: usize) -> io::Result<()>
    requires { list < 8 }
{
    let pool = pool(ws);
    let n = pool.len(list);
    print!(rt; " {n}")?;
    for k in 0..n {
        text::answer(rt, pool.nth(list, k))?;
    }
    Ok(())
}

impl Part for Cells {
    const PLAN: Plan = Plan {
        name: "cells",
        still: Some("refused"),
        turns: 200,
        lo: FROM,
        hi: TO,
        bound: 42,
    };

    // Lists of 8 cells each, in the first 5 of them.
    fn good(&self, ws: &mut Words) {
        cells::clear(&mut ws[FROM..TO], LISTS);
        for cell in 0..CELLS {
            push(ws, cell % 5, cell);
        }
    }

    fn calls(&self, turn: &mut Turn, seed: u64) {
        turn.call(|ws| {
            let list = words::draw(seed, 6, LISTS);
            let _ = pool(ws).nth(list, words::draw(seed, 7, CELLS + 5));
        });
        turn.call_or_still(|ws| push(ws, words::draw(seed, 1, LISTS), words::draw(seed, 2, CELLS)));
        turn.call_or_still(|ws| remove(
            ws,
            words::draw(seed, 4, LISTS),
            words::draw(seed, 5, CELLS),
        ));
        turn.call_or_still(|ws| join_next(ws, words::draw(seed, 3, LISTS - 1)));
        turn.call(|ws| cells::empty(&mut ws[FROM..TO], LISTS, words::draw(seed, 8, LISTS)));
        turn.call(|ws| cells::clear(&mut ws[FROM..TO], LISTS));
    }

    // List 2 is 4 7 30. With list 3, which is 9 5, joined to it, it is 4 7 30 9 5, and list 3 has no cell. Without cell 7, it is 4 30 9 5.
    fn answers(&self, rt: &impl Print, ws: &mut Words) -> io::Result<()> {
        cells::clear(&mut ws[FROM..TO], LISTS);
        for (list, cell) in [(2, 4), (2, 7), (2, 30), (3, 9), (3, 5)] {
            push(ws, list, cell);
        }
        join_next(ws, 2);
        show(rt, ws, 2)?;
        show(rt, ws, 3)?;
        remove(ws, 2, 7);
        show(rt, ws, 2)
    }
}
