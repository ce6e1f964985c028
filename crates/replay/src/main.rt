// Reads a script of calls on standard input and answers it line by line (crate replaying).
#![tactic(auto)]

fn main(rt: HostRuntime) {
    let mut ws = [0u32; replaying::WORDS];
    let mut list = [0u32; replaying::LIST];
    let mut line = [0u8; replaying::LINE];
    let mut out = [0u8; replaying::OUT];
    replaying::run(rt, &mut ws, &mut list, &mut line, &mut out);
}
