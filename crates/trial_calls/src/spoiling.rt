// The ways to break the words of a good graph. A word anew is mostly below 16, so that most links stay inside.
ghost use Rattle.std.specs.Prelude.{◌<◌};

use super::words::{FROM, NEED, SIZE, draw, draw_word, next};
use drawing::Draws;

// What is done on a turn.
#[derive(Clone, Copy, PartialEq, Eq)]
pub enum Spoil {
    // Nothing.
    Nothing,
    // One to eight words of the graph anew.
    SomeWords,
    // Nothing, but the slice that is lent is cut short.
    CutShort,
    // One of the head's seven words anew.
    HeadWord,
    // A head in range, and every other word of the graph anew.
    AllWords,
}

// Mostly a small word, sometimes any.
fn some_word(seed: u64) -> u32 {
    if draw(seed, 20, 8) == 0 {
        return next(seed) as u32;
    }
    draw_word(seed, 21, 16)
}

fn one_word(ws: &mut [u32; SIZE], seed: u64) {
    let i = FROM + draw(seed, 22, NEED);
    ws[i] = some_word(seed);
}

fn some_words(ws: &mut [u32; SIZE], seed: u64, count: usize) {
    for x in Draws::new(seed).take(count) {
        one_word(ws, x);
    }
}

fn head_word(ws: &mut [u32; SIZE], seed: u64) {
    let i = FROM + draw(seed, 23, 7);
    ws[i] = some_word(next(seed));
}

// Counts in range of the limits, which stay.
fn some_head(ws: &mut [u32; SIZE], seed: u64) {
    let ids = draw_word(seed, 24, 13);
    ws[FROM + 2] = ids;
    ws[FROM + 3] = draw_word(seed, 25, 25);
    ws[FROM + 4] = draw_word(seed, 26, 25);
    ws[FROM + 5] = draw_word(seed, 27, 1 + ids as usize);
    ws[FROM + 6] = draw_word(seed, 28, 2);
}

fn all_words(ws: &mut [u32; SIZE], seed: u64) {
    for (word, x) in ws[FROM + 32..FROM + NEED].iter_mut().zip(Draws::new(seed)) {
        *word = draw_word(x, 29, 16);
    }
}

// The turns take one after another.
const WAYS: [Spoil; 5] = [
    Spoil::Nothing,
    Spoil::SomeWords,
    Spoil::CutShort,
    Spoil::HeadWord,
    Spoil::AllWords,
];

impl Spoil {
    // The ways in turn, as trial_parts has its own: two enums of two programs.
    pub fn of_turn(turn: u64) -> Spoil {
        WAYS[(turn % 5) as usize]
    }

    // Whether the words stay those of a good graph.
    pub fn keeps(self) -> bool {
        matches!(self, Spoil::Nothing | Spoil::CutShort)
    }

    pub fn apply(self, ws: &mut [u32; SIZE], seed: u64) {
        match self {
            Spoil::Nothing | Spoil::CutShort => {}
            Spoil::SomeWords => some_words(ws, seed, 1 + draw(seed, 30, 8)),
            Spoil::HeadWord => head_word(ws, seed),
            Spoil::AllWords => {
                some_head(ws, seed);
                all_words(ws, seed);
            }
        }
    }
}
