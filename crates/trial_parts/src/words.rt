// The words that a trial is made on: an array with a part in its middle that is lent, and guard words before and behind it.
//
//     word              means
//     0 .. FROM         guards, never lent
//     FROM .. TO        the words that are lent
//     TO .. SIZE        guards, never lent
//
// What stands in the part comes from a linear congruential generator, so that every run is the same.
ghost use Rattle.std.specs.Prelude.{ℕ, ◌<◌, ◌≤◌};

use drawing::{Draws, below};
pub use drawing::{draw, draw_word, next};

pub const SIZE: usize = 80;

pub const FROM: usize = 8;

pub const TO: usize = 72;

pub type Words = [u32; SIZE];

// Every lent word anew, as `word` makes it of a number of the generator.
fn fill<F: Fn(u64) -> u32>(ws: &mut Words, seed: u64, word: F)
    requires { (x : ℕ) → x < 4294967296 → F.pre word x }
{
    for (w, x) in ws[FROM..TO].iter_mut().zip(Draws::new(seed)) {
        *w = word(x);
    }
}

// One lent word anew, out of a number of the generator.
fn damage(ws: &mut Words, x: u64, w: u32) {
    ws[FROM + draw(x, 0, TO - FROM)] = w;
}

// A lent word anew, below `bound`.
fn damage_below(ws: &mut Words, x: u64, bound: u32)
    requires { (1 ≤ bound) × (bound ≤ 100) }
{
    damage(ws, x, draw_word(x, 1, bound as usize));
}

// How the words of a turn are broken.
#[derive(Clone, Copy, PartialEq, Eq)]
pub enum Spoil {
    // All of them anew and small, so that most links stay inside.
    AllSmall,
    // All of them anew, below a bound.
    AllBelow,
    // All of them anew, and any.
    AllWild,
    // Two good words anew, below a bound.
    TwoBelow,
    // Two good words anew, and any.
    TwoWild,
}

// The turns take one after another.
const WAYS: [Spoil; 5] = [
    Spoil::AllSmall,
    Spoil::AllBelow,
    Spoil::AllWild,
    Spoil::TwoBelow,
    Spoil::TwoWild,
];

impl Spoil {
    // The ways in turn, as trial_calls has its own: two enums of two programs.
    pub fn of_turn(turn: u64) -> Spoil {
        WAYS[(turn % 5) as usize]
    }

    // Whether the words are to be good ones before.
    pub fn wants_good(self) -> bool {
        matches!(self, Spoil::TwoBelow | Spoil::TwoWild)
    }

    pub fn apply(self, ws: &mut Words, seed: u64, bound: u32)
        requires { (1 ≤ bound) × (bound ≤ 100) }
    {
        let x = next(seed);
        match self {
            Spoil::AllSmall => fill(ws, seed, |d| below(d, bound / 4 + 1)),
            Spoil::AllBelow => fill(ws, seed, |d| below(d, bound)),
            Spoil::AllWild => fill(ws, seed, |d| d as u32),
            Spoil::TwoBelow => {
                damage_below(ws, seed, bound);
                damage_below(ws, x, bound);
            }
            Spoil::TwoWild => {
                let y = next(x);
                damage(ws, x, y as u32);
                damage(ws, y, x as u32);
            }
        }
    }
}
