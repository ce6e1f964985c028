// The trials of a call: on each turn a good graph, broken in the turn's way, the call, and a count of what it answered and changed. The words, the call, the
// way and the seed go from one step to the next as they are, and each step takes some of them apart at once: no struct holds them.
ghost use Rattle.std.specs.Prelude.{◌≡◌, ◌<◌, ◌≤◌, IfSome};
ghost use Rattle.layout.specs.Cut.{need};

use super::calls::Call;
use super::spoiling::Spoil;
use super::tally::Tally;
use super::words::{FROM, SIZE, TO, draw, next};
use super::{building, calls};
use drawing::Change;
use egraph::Refusal;

// Where the words that a call is lent end, where those of them end that its limits need, and where the slice for a list ends.
#[derive(Clone, Copy)]
struct Plan {
    end: usize,
    reach: usize,
    list: usize,
    ghost end_inside: { (64 ≤ end) × (end ≤ 576) },
    ghost reach_inside: { (64 ≤ reach) × (reach ≤ 576) },
    ghost list_inside: { (64 ≤ list) × (list ≤ 576) },
}

// By the limits of a setup, or else by those that stand in the head.
fn need_of(ws: &[u32; SIZE], call: Call, seed: u64) -> Option<usize>
    ensures { IfSome result (λ words. words ≤ 3000000) }
{
    let (n, m) = if call == Call::Setup {
        (calls::limit_ids(seed), calls::limit_places(seed))
    } else {
        (ws[FROM], ws[FROM + 1])
    };
    layout::words_for(n as usize, m as usize)
}

// Where those of the words up to `end` end that the limits need; of limits that are refused, none are needed.
fn reach_of(ws: &[u32; SIZE], call: Call, seed: u64, end: usize) -> usize
    requires { (64 ≤ end) × (end ≤ 576) }
    ensures { (64 ≤ result) × (result ≤ end) }
{
    match need_of(ws, call, seed) {
        Some(words) => end.min(FROM + words),
        None => FROM,
    }
}

// All of the words, or none, or some: mostly a few fewer, so that they may still be enough.
fn end_of(spoil: Spoil, seed: u64) -> usize
    ensures { (64 ≤ result) × (result ≤ 576) }
{
    if spoil != Spoil::CutShort {
        return TO;
    }
    // Not an enum: three of eight numbers that are drawn here alone.
    match draw(seed, 50, 8) {
        0 => FROM,
        1 => FROM + draw(seed, 51, TO - FROM),
        _ => TO - draw(seed, 51, 128),
    }
}

fn plan_of(ws: &[u32; SIZE], call: Call, spoil: Spoil, seed: u64) -> Plan {
    let end = end_of(spoil, seed);
    Plan {
        end,
        reach: reach_of(ws, call, seed, end),
        list: FROM + draw(seed, 52, 80),
    }
}

// The call on the words of the plan, with the slice of the plan for a list.
fn lend(
    ws: &mut [u32; SIZE],
    out: &mut [u32; SIZE],
    plan: Plan,
    call: Call,
    seed: u64,
) -> Result<(), Refusal> {
    call.answer(&mut ws[FROM..plan.end], &mut out[FROM..plan.list], seed)
}

fn counted(ws: &mut [u32; SIZE], call: Call, spoil: Spoil, seed: u64, tally: &mut Tally) {
    let mut out = [5u32; SIZE];
    let blank = out;
    let old = *ws;
    let plan = plan_of(ws, call, spoil, seed);
    let answer = lend(ws, &mut out, plan, call, seed);
    tally.answered(answer, spoil);
    let graph = Change::of_part(&old, ws, FROM, plan.reach);
    let list = Change::of_part(&blank, &out, FROM, plan.list);
    tally.changes(call, answer, graph, list);
}

fn trial(call: Call, turn: u64, tally: &mut Tally) {
    let mut ws = [7u32; SIZE];
    let seed = next(turn);
    let spoil = Spoil::of_turn(turn);
    building::good(&mut ws, seed);
    spoil.apply(&mut ws, seed);
    counted(&mut ws, call, spoil, seed, tally);
}

pub fn trials(call: Call, turns: u64) -> Tally {
    let mut tally = Tally::default();
    for turn in 0..turns {
        trial(call, turn, &mut tally);
    }
    tally
}
