// What is counted over the trials of a part.
ghost use Rattle.std.specs.Prelude.{◌≤◌};

use super::trials::Plan;
use super::words::Words;
use drawing::Change;

// How many calls there were; how many words outside what was lent they changed; how many of those that must change no word changed one.
#[derive(Clone, Copy, Default)]
pub struct Tally {
    pub calls: u64,
    pub outside: u64,
    pub lapses: u64,
}

impl Tally {
    // One call more; `still` if it must change no word, as it refused or had nothing to do. The sums wrap, so no call needs a bound on them.
    pub fn after(self, old: &Words, new: &Words, plan: Plan, still: bool) -> Tally {
        let Change { inside, outside } = Change::of_part(old, new, plan.lo, plan.hi);
        let lapse = still && inside > 0;
        Tally {
            calls: self.calls.wrapping_add(1),
            outside: self.outside.wrapping_add(outside),
            lapses: self.lapses.wrapping_add(u64::from(lapse)),
        }
    }
}
