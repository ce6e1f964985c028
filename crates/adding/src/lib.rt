// A node looked for and, if it is not found, added, inside a call. Asking reads these parts of a graph's words (layout has their table) and changes none:
//
//   part      what it tells
//   forest    the root of each child
//   table     the ids in the bucket of the node with root children
//   rows      the keys of these ids
//
// `give` changes the head beside the words where it adds; the head in the words is written once, at the end of a call.
// What each function promises: specs/Says.antt.
#![tactic(auto)]

ghost use Rattle.std.specs.Prelude.{◌≡◌, ◌≤◌};
ghost use Rattle.language.specs.Term.{Known};
ghost use Rattle.language.specs.Fitting.{term};
ghost use Rattle.layout.specs.Did.{SameLoan};
ghost use Rattle.adding.specs.Says.{Probes, Gives, given};
ghost use Rattle.adding.specs.declared.GiveError.TheVariants.{BrokenWords};

use broken::Broken;
use language::{Fit, Id};
use layout::{Graph, GraphMut};
use std::error::Error;
use std::fmt;

// What the table has for a node: an id, or nothing. The key is the node with root children.
#[derive(Clone, Copy)]
pub struct Probed {
    pub seen: Option<Id>,
    pub key: Fit,
}

// An id that was there, or a new one.
#[derive(Clone, Copy)]
pub enum Given {
    Old(Id),
    New(Id),
}

// There is no room for a new id, or no calls could have produced the words.
#[derive(Clone, Copy, Debug, PartialEq, Eq)]
pub enum GiveError {
    NoRoom,
    BrokenWords,
}

impl fmt::Display for GiveError {
    fn fmt<W: fmt::Write>(&self, f: &mut fmt::Formatter<W>) -> fmt::Result {
        match self {
            GiveError::NoRoom => write!(f, "no room for a new id"),
            GiveError::BrokenWords => Broken.fmt(f),
        }
    }
}

impl Error for GiveError {}

impl From<Broken> for GiveError {
    ghost from_gives = { λ _ r. r ≡ BrokenWords };

    fn from(_broken: Broken) -> GiveError {
        Self::BrokenWords
    }
}

// What the table has for the node with root children.
pub fn probe(g: &Graph<'_>, fit: Fit) -> Result<Probed, Broken>
    requires { Known (term fit) g.now.h.ids }
    ensures { Probes g.now.h fit g.now.ws.now result }
{
    let key = growing::with_roots(g, fit)?;
    let seen = parts::on_table::ask(g, key)?;
    match seen {
        Some(x) if g.h.ids <= x.0 as usize => Err(Broken),
        _ => Ok(Probed { seen, key }),
    }
}

// The id of a node, which is added if it was not there and there is room.
pub fn give(g: &mut GraphMut<'_>, fit: Fit) -> Result<Given, GiveError>
    requires { Known (term fit) g.old.h.ids }
    ensures loan { SameLoan g.old g.new }
    ensures gives { Gives g.old.h (term fit) g.old.ws.now (given g.new.h result) g.new.ws.now }
{
    let p = probe(&g.view(), fit)?;
    if let Some(x) = p.seen {
        return Ok(Given::Old(x));
    }
    let h = g.h;
    if h.n <= h.ids {
        return Err(GiveError::NoRoom);
    }
    if h.m < h.places + fit.node.count as usize {
        return Err(GiveError::NoRoom);
    }
    growing::grow(g, fit, p.key)?;
    Ok(Given::New(Id(h.ids as u32)))
}
