// The union-find, with as many ids as words are lent.
ghost use Rattle.std.specs.Prelude.{◌<◌};

use super::text::answer_or;
use super::trials::{Part, Plan, Turn};
use super::words;
use super::words::{FROM, TO, Words};
use std::io;

pub struct Unionfind;

fn union(ws: &mut Words, root1: usize, root2: usize)
    requires { (root1 < 64) × (root2 < 64) }
{
    unionfind::union(&mut ws[FROM..TO], root1, root2);
}

fn make_set(ws: &mut Words, ids: usize)
    requires { ids < 64 }
{
    unionfind::make_set(&mut ws[FROM..TO], ids);
}

fn find(ws: &Words, seed: u64) {
    let ids = 1 + words::draw(seed, 1, 64);
    let _ = unionfind::find(&ws[FROM..TO], ids, words::draw(seed, 2, ids));
}

fn find_mut(ws: &mut Words, seed: u64) {
    let ids = 1 + words::draw(seed, 3, 64);
    let _ = unionfind::find_mut(&mut ws[FROM..TO], ids, words::draw(seed, 4, ids));
}

impl Part for Unionfind {
    // No call is refused: a chain that does not end may have been halved for a while.
    const PLAN: Plan = Plan {
        name: "unionfind",
        still: None,
        turns: 200,
        lo: FROM,
        hi: TO,
        bound: 70,
    };

    // Each id the child of its half.
    fn good(&self, ws: &mut Words) {
        for i in 0..64 {
            make_set(ws, i);
            union(ws, i / 2, i);
        }
    }

    fn calls(&self, turn: &mut Turn, seed: u64) {
        turn.call(|ws| find(ws, seed));
        turn.call(|ws| find_mut(ws, seed));
        turn.call(|ws| union(ws, words::draw(seed, 5, 64), words::draw(seed, 6, 64)));
        turn.call(|ws| make_set(ws, words::draw(seed, 7, 64)));
    }

    // Of the first 10 ids, 1 and 2 go under 0. The root of 2 is 0, and when 0 goes under 5 it is 5, by both ways to find it; that of 9 is 9.
    fn answers(&self, rt: &impl Print, ws: &mut Words) -> io::Result<()> {
        for i in 0..10 {
            make_set(ws, i);
        }
        union(ws, 0, 1);
        union(ws, 0, 2);
        answer_or(rt, unionfind::find(&ws[FROM..TO], 10, 2), "none")?;
        union(ws, 5, 0);
        answer_or(rt, unionfind::find_mut(&mut ws[FROM..TO], 10, 2), "none")?;
        answer_or(rt, unionfind::find(&ws[FROM..TO], 10, 9), "none")
    }
}
