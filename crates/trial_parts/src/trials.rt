// The trials of a part: on each turn's words, one call of each kind, and a count of what they changed. What prints, the words and the seed are parameters of
// their own: a part's calls take them apart at once.
ghost use Rattle.std.specs.Prelude.{◌<◌, ◌≤◌};

use super::tally::Tally;
use super::words::{SIZE, Spoil, Words, next};
use std::io;

// How a part is tried: in so many turns. What is lent to be changed are the words from `lo` to `hi`. Words are spoilt with numbers below `bound`. Where some
// calls must change no word, `still` says which.
#[derive(Clone, Copy)]
pub struct Plan {
    pub name: &'static str,
    pub still: Option<&'static str>,
    pub turns: u64,
    pub lo: usize,
    pub hi: usize,
    pub bound: u32,
    ghost inside: { (lo ≤ hi) × (hi ≤ 80) },
    ghost small: { (1 ≤ bound) × (bound ≤ 100) },
}

// A turn of a part: its words, and what its calls have come to.
#[derive(Drop)]
pub struct Turn {
    ws: Words,
    plan: Plan,
    tally: Tally,
}

impl Turn {
    // A call that may change words of its part, whatever comes of it.
    pub fn call<F: FnOnce(&mut Words)>(&mut self, call: F)
        requires { F.IsAlwaysCallable call }
    {
        let old = self.ws;
        call(&mut self.ws);
        self.count(&old, false);
    }

    // A call that answers whether it must have changed no word, as it refused or had nothing to do.
    pub fn call_or_still<F: FnOnce(&mut Words) -> bool>(&mut self, call: F)
        requires { F.IsAlwaysCallable call }
    {
        let old = self.ws;
        let still = call(&mut self.ws);
        self.count(&old, still);
    }

    // What a call changed of the words, which were the old ones.
    fn count(&mut self, old: &Words, still: bool) {
        self.tally = self.tally.after(old, &self.ws, self.plan, still);
    }
}

// A part, with the calls that try it.
pub trait Part {
    const PLAN: Plan;

    // Good words.
    fn good(&self, ws: &mut Words);

    // One call of each kind, with numbers drawn from the seed.
    fn calls(&self, turn: &mut Turn, seed: u64);

    // Writes what calls on good words answer.
    fn answers(&self, rt: &impl Print, ws: &mut Words) -> io::Result<()>;
}

// The number of a turn says how its words are broken, and is the seed of its calls.
fn trial<P: Part>(part: &P, number: u64, tally: Tally) -> Tally {
    let plan = P::PLAN;
    let spoil = Spoil::of_turn(number);
    let mut ws = [7; SIZE];
    if spoil.wants_good() {
        part.good(&mut ws);
    }
    spoil.apply(&mut ws, next(number), plan.bound);
    let mut turn = Turn { ws, plan, tally };
    part.calls(&mut turn, number);
    turn.tally
}

pub fn trials<P: Part>(part: &P) -> Tally {
    (0..P::PLAN.turns).fold(Tally::default(), |t, number| trial(part, number, t))
}
