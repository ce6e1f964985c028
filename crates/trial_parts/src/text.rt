// What the program writes of an answer, each time with a space in front.
use broken::Broken;
use language::Fit;
use std::io;

// A number, if the call did not find the words broken.
pub fn answer(rt: &impl Print, found: Result<usize, Broken>) -> io::Result<()> {
    answer_or(rt, found, "broken")
}

// A number, or what is said where the call found the words broken.
pub fn answer_or(rt: &impl Print, found: Result<usize, Broken>, lost: &str) -> io::Result<()> {
    match found {
        Ok(x) => print!(rt; " {x}"),
        Err(_) => print!(rt; " {lost}"),
    }
}

// A node, if the call did not find the words broken: operator, payload, child count and children.
pub fn node(rt: &impl Print, found: Result<Fit, Broken>) -> io::Result<()> {
    let Ok(Fit { node, .. }) = found else {
        return print!(rt; " broken");
    };
    print!(rt; " {} {} {}", node.op.0, node.payload, node.count)?;
    for kid in node.children() {
        print!(rt; " {}", kid.0)?;
    }
    Ok(())
}
