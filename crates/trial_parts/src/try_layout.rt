// The head of a graph: 64 words are enough for one id and one place.
use super::trials::{Part, Plan, Turn};
use super::words::{FROM, TO, Words};
use layout::Head;
use std::io;

pub struct Layout;

fn show(rt: &impl Print, ws: &Words) -> io::Result<()> {
    let Some(h) = layout::read_head(&ws[FROM..TO]) else {
        return print!(rt; " broken");
    };
    let clean = u8::from(h.clean);
    print!(rt;
        " {} {} {} {} {} {} {clean}",
        h.n, h.m, h.ids, h.places, h.depth, h.classes
    )
}

impl Part for Layout {
    const PLAN: Plan = Plan {
        name: "layout",
        still: Some("idle"),
        turns: 200,
        lo: FROM,
        hi: TO,
        bound: 3,
    };

    // A fresh head.
    fn good(&self, ws: &mut Words) {
        layout::fresh_head(&mut ws[FROM..TO], 1, 1);
    }

    // Reads the head, and if it is good writes it back, which changes nothing.
    fn calls(&self, turn: &mut Turn, _seed: u64) {
        turn.call_or_still(|ws| {
            if let Some(h) = layout::read_head(&ws[FROM..TO]) {
                layout::write_head(&mut ws[FROM..TO], h);
            }
            true
        });
    }

    // A fresh head, one with each number at its most, and one whose flag is 2.
    fn answers(&self, rt: &impl Print, ws: &mut Words) -> io::Result<()> {
        self.good(ws);
        show(rt, ws)?;
        let full = Head {
            n: 1,
            m: 1,
            ids: 1,
            places: 1,
            depth: 2,
            classes: 1,
            clean: true,
        };
        layout::write_head(&mut ws[FROM..TO], full);
        show(rt, ws)?;
        ws[FROM + 6] = 2;
        show(rt, ws)
    }
}
