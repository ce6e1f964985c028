// Tries each part on words that no calls could have produced, and on good words whose answers are known, and writes what came out.
//
//     line                                        means
//     NAME N calls, 0 words outside changed       no call on broken words changed a word that was not lent to it
//     .., 0 refused calls changed a word          and none that answered that it refuses changed any word
//     .., 0 idle calls changed a word             and none that had nothing to do
//     NAME answers ..                             what the calls on good words answer
#![tactic(auto)]

mod nodes;
mod tally;
mod text;
mod trials;
mod try_cells;
mod try_layout;
mod try_pending;
mod try_rows;
mod try_sorting;
mod try_table;
mod try_unionfind;
mod words;

use std::io;
use trials::{Part, trials};
use try_cells::Cells;
use try_layout::Layout;
use try_pending::Pending;
use try_rows::Rows;
use try_sorting::Sorting;
use try_table::Table;
use try_unionfind::Unionfind;
use words::SIZE;

// What came of a part's calls on broken words.
fn report<P: Part>(rt: &impl Print, part: &P) -> io::Result<()> {
    let plan = P::PLAN;
    let t = trials(part);
    print!(rt;
        "{} {} calls, {} words outside changed",
        plan.name, t.calls, t.outside
    )?;
    if let Some(which) = plan.still {
        print!(rt; ", {} {which} calls changed a word", t.lapses)?;
    }
    println!(rt;)
}

// What a part's calls on good words answer.
fn show<P: Part>(rt: &impl Print, part: &P) -> io::Result<()> {
    print!(rt; "{} answers", P::PLAN.name)?;
    part.answers(rt, &mut [7; SIZE])?;
    println!(rt;)
}

fn main(rt: HostRuntime) -> io::Result<()> {
    report(&rt, &Unionfind)?;
    report(&rt, &Cells)?;
    report(&rt, &Rows)?;
    report(&rt, &Pending)?;
    report(&rt, &Table)?;
    report(&rt, &Sorting)?;
    report(&rt, &Layout)?;
    show(&rt, &Unionfind)?;
    show(&rt, &Cells)?;
    show(&rt, &Rows)?;
    show(&rt, &Pending)?;
    show(&rt, &Table)?;
    show(&rt, &Sorting)?;
    show(&rt, &Layout)
}
