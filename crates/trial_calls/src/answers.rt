// Document 01's number for each answer: 0, or that of the refusal.
ghost use Rattle.std.specs.Prelude.{◌<◌};

use egraph::Refusal;

// The answer's place in the tally, and what the program writes of it.
pub fn number(answer: Result<(), Refusal>) -> usize
    ensures { result < 10 }
{
    answer.map_or_else(|why| why.number() as usize, |()| 0)
}
