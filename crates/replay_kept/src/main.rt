// The program `replay` once more, for the gate: its standard input are the generated scripts of oracle/fixed, one after the other, and its expected output is
// what egg answers to them (oracle/README.md says how they were made).
#![tactic(auto)]

fn main(rt: HostRuntime) {
    let mut ws = [0u32; replaying::WORDS];
    let mut list = [0u32; replaying::LIST];
    let mut line = [0u8; replaying::LINE];
    let mut out = [0u8; replaying::OUT];
    replaying::run(rt, &mut ws, &mut list, &mut line, &mut out);
}
