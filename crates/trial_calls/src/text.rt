// What the program writes.
use super::answers::number;
use super::tally::Tally;
use egraph::Refusal;
use std::io;

// How many calls answered each number; those that none answered are left out.
fn answers(rt: &impl Print, tally: &Tally) -> io::Result<()> {
    for (k, n) in tally.answers.iter().enumerate() {
        if *n > 0 {
            print!(rt; " {k}: {n}")?;
        }
    }
    Ok(())
}

// What `find` answered on no words.
pub fn no_words(rt: &impl Print, answer: Result<(), Refusal>) -> io::Result<()> {
    println!(rt; "find on no words: {}", number(answer))
}

// What came of the trials of a call.
pub fn report(rt: &impl Print, name: &str, tally: &Tally) -> io::Result<()> {
    print!(rt; "{name} {} calls, answered", tally.calls)?;
    answers(rt, tally)?;
    println!(rt;
        "; {} words outside changed, {} calls changed a word that they must keep, {} good graphs answered 9",
        tally.outside, tally.lapses, tally.nines
    )
}
