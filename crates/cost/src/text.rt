// What the program writes.
use std::io;

pub fn built(rt: &impl Print, nodes: u32, unions: u32, yes: u32) -> io::Result<()> {
    print!(rt; "{nodes} nodes, {unions} unions, {yes} yes; ")
}

pub fn rebuilt(rt: &impl Print, count: usize, classes: usize) -> io::Result<()> {
    println!(rt; "rebuild {count}, {classes} classes")
}

// A call that says no: none does here. Where this line cannot be written, the run goes on.
pub fn refused(rt: &impl Print) {
    let _ = println!(rt; "refused");
}
