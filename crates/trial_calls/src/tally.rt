// What is counted over the trials of a call.
use super::answers::number;
use super::calls::Call;
use super::spoiling::Spoil;
use drawing::Change;
use egraph::Refusal;

// How many calls there were, and how many of them answered each number. Then how many
//
//     outside    words changed outside what the call was lent, or past what the limits need
//     lapses     calls changed a word which they must keep: of the graph, where the call keeps all or refused by another number than 9; of the slice for a
//                list, where it refused
//     nines      calls on good graphs answered 9
#[derive(Clone, Copy, Default)]
pub struct Tally {
    pub calls: u64,
    pub answers: [u64; 10],
    pub outside: u64,
    pub lapses: u64,
    pub nines: u64,
}

// Whether a call with this answer may change words of the graph.
fn may_change(call: Call, answer: Result<(), Refusal>) -> bool {
    !call.keeps_words() && matches!(answer, Ok(()) | Err(Refusal::BrokenWords))
}

// Whether a call changed a word which it must keep.
fn lapsed(call: Call, answer: Result<(), Refusal>, graph: u64, list: u64) -> bool {
    (graph > 0 && !may_change(call, answer)) || (list > 0 && answer.is_err())
}

// The sums wrap, so no call needs a bound on them.
impl Tally {
    // One call more, with its answer.
    pub fn answered(&mut self, answer: Result<(), Refusal>, spoil: Spoil) {
        let place = number(answer);
        let nine = answer == Err(Refusal::BrokenWords) && spoil.keeps();
        self.calls = self.calls.wrapping_add(1);
        self.answers[place] = self.answers[place].wrapping_add(1);
        self.nines = self.nines.wrapping_add(u64::from(nine));
    }

    // What it changed of the array with the graph, and of that with the list.
    pub fn changes(
        &mut self,
        call: Call,
        answer: Result<(), Refusal>,
        graph: Change,
        list: Change,
    ) {
        let lapse = lapsed(call, answer, graph.inside, list.inside);
        let outside = graph.outside.wrapping_add(list.outside);
        self.outside = self.outside.wrapping_add(outside);
        self.lapses = self.lapses.wrapping_add(u64::from(lapse));
    }
}
