// The one error of a step inside a call: the words are none that calls could have produced. The open calls turn it into their refusal 9.
#![tactic(auto)]

use std::error::Error;
use std::fmt;

#[derive(Clone, Copy, Debug, PartialEq, Eq)]
pub struct Broken;

impl fmt::Display for Broken {
    fn fmt<W: fmt::Write>(&self, f: &mut fmt::Formatter<W>) -> fmt::Result {
        write!(f, "words that no calls could have produced")
    }
}

impl Error for Broken {}
