// The graph: the open calls, over words that the caller lends. Each reads the head into a value, refuses bad input by number, works on the parts, and writes
// the head back once. Names and argument order follow egg's `EGraph`; `&mut self` is the lent words.
//
// A call answers `Ok` with its value, or `Err` with its refusal; specs/Answers.antt gives document 01's number and values for each answer.
#![tactic(auto)]

ghost use Rattle.std.specs.Prelude.{◌≡◌, ◌<◌};
ghost use Rattle.egraph.specs.Answers.{AsGraph, Opens, OpensKnown, give_refused, number_of};
ghost use Rattle.egraph.specs.declared.Refusal.TheVariants.{BrokenWords};

use adding::GiveError;
use broken::Broken;
use language::Id;
use layout::{Graph, Head};
use std::error::Error;
use std::fmt;

// Why a call says no, by document 01's numbers.
#[derive(Clone, Copy, Debug, PartialEq, Eq)]
pub enum Refusal {
    BadLimits = 1,
    TooFewWords = 2,
    BadHead = 3,
    UnknownId = 4,
    TooManyChildren = 5,
    NoRoom = 6,
    NotRebuilt = 7,
    TooLong = 8,
    BrokenWords = 9,
}

impl Refusal {
    // Document 01's number: the variant's own, so no table of numbers is written out.
    pub fn number(self) -> u32
        ensures { (result ≡ number_of self) × (result < 10) }
    {
        self as u32
    }
}

impl fmt::Display for Refusal {
    fn fmt<W: fmt::Write>(&self, f: &mut fmt::Formatter<W>) -> fmt::Result {
        let why = match self {
            Refusal::BadLimits => "the limits are out of range",
            Refusal::TooFewWords => "the limits need more words",
            Refusal::BadHead => "the words hold no graph",
            Refusal::UnknownId => "an id is unknown",
            Refusal::TooManyChildren => "a node has too many children",
            Refusal::NoRoom => "there is no room for a new id",
            Refusal::NotRebuilt => "the graph is not rebuilt",
            Refusal::TooLong => "a list is longer than the slice lent for it",
            Refusal::BrokenWords => "no calls could have left these words",
        };
        write!(f, "{}: {why}", self.number())
    }
}

impl Error for Refusal {}

impl From<Broken> for Refusal {
    ghost from_gives = { λ _ r. r ≡ BrokenWords };

    fn from(_e: Broken) -> Refusal {
        Refusal::BrokenWords
    }
}

impl From<GiveError> for Refusal {
    ghost from_gives = { λ e r. r ≡ give_refused e };

    fn from(e: GiveError) -> Refusal {
        match e {
            GiveError::NoRoom => Refusal::NoRoom,
            GiveError::BrokenWords => Refusal::BrokenWords,
        }
    }
}

// The numbers in the head of the words.
fn read_head(ws: &[u32]) -> Result<Head, Refusal>
    ensures { Opens ws.now result }
{
    layout::read_head(ws).ok_or(Refusal::BadHead)
}

// The words as a graph to be read.
fn open(ws: &[u32]) -> Result<Graph<'_>, Refusal>
    ensures { AsGraph (Opens ws.now) ws.now result }
{
    let h = read_head(ws)?;
    Ok(Graph { ws, h })
}

// The words as a graph that knows the id.
fn open_known(ws: &[u32], id: Id) -> Result<Graph<'_>, Refusal>
    ensures { AsGraph (OpensKnown ws.now id.0) ws.now result }
{
    let g = open(ws)?;
    if g.h.ids <= id.0 as usize {
        return Err(Refusal::UnknownId);
    }
    Ok(g)
}

pub mod begin;

pub use begin::setup;

pub mod reads;

pub use reads::{clean, find, is_empty, number_of_classes};

pub mod unions;

pub use unions::union;

pub mod listing;

pub use listing::{id_to_node, nodes, spell_node};

pub mod class_lists;

pub use class_lists::{classes, classes_for_op, total_number_of_nodes};

// No open calls: what an extraction reads of a graph.
pub mod class_reads;

pub use class_reads::{ClassNodes, class_nodes, class_root, count_nodes, root_node};

pub mod adds;

pub use adds::{add, add_uncanonical, lookup};

pub mod rebuilds;

pub use rebuilds::rebuild;
