// Calls about a node that the caller has in hand: `lookup`, `add_uncanonical`, `add`.
ghost use Rattle.std.specs.Prelude.{length};
ghost use Rattle.language.specs.Fitting.{term};
ghost use Rattle.language.specs.Term.{Known};
ghost use Rattle.layout.specs.View.{hd};
ghost use Rattle.layout.specs.Seen.{HeadStands};
ghost use Rattle.layout.specs.Did.{SameLoan, HeadStood};
ghost use Rattle.egraph.specs.Adds.{Gated, LookupOpen, LookupSays, UncanonicalOpen, UncanonicalSays, AddedIn, AddOpen, AddSays};

use super::{Refusal, read_head};
use adding::Given;
use language::{Fit, Id, Node};
use layout::{Graph, GraphMut, Head};

// What these calls refuse before they look at the graph; else the head, and the node as one that fits.
fn enter(ws: &[u32], node: Node) -> Result<(Head, Fit), Refusal>
    ensures { Gated ws.now node result }
{
    let h = read_head(ws)?;
    let Some(fit) = node.fit() else {
        return Err(Refusal::TooManyChildren);
    };
    if !growing::known(fit, h.ids) {
        return Err(Refusal::UnknownId);
    }
    Ok((h, fit))
}

fn lookup_open(g: &Graph<'_>, fit: Fit) -> Result<Option<Id>, Refusal>
    requires head_stands { HeadStands g.now }
    requires known { Known (term fit) g.now.h.ids }
    ensures { LookupOpen g.now.ws.now (term fit) result }
{
    let probed = adding::probe(g, fit)?;
    let Some(id) = probed.seen else {
        return Ok(None);
    };
    let root = parts::on_forest::find(g, id)?;
    Ok(Some(root))
}

// The root of the id that the table has for a node, if it has one. Nothing is changed.
pub fn lookup(ws: &[u32], node: Node) -> Result<Option<Id>, Refusal>
    ensures { LookupSays ws.now node result }
{
    let (h, fit) = enter(ws, node)?;
    lookup_open(&Graph { ws, h }, fit)
}

fn uncanonical_open(g: &mut GraphMut<'_>, fit: Fit) -> Result<Id, Refusal>
    requires head_is { HeadStood g.old }
    requires known { Known (term fit) g.old.h.ids }
    ensures loan { SameLoan g.old g.new }
    ensures says { UncanonicalOpen g.old.ws.now (term fit) result g.new.ws.now }
    ensures inside { AddedIn g.new.h g.new.ws.now result }
{
    match adding::give(g, fit)? {
        Given::Old(id) => Ok(id),
        Given::New(id) => {
            g.note_head();
            Ok(id)
        }
    }
}

// The id of a node, which is a new one if the table has none. The id that the table has need not be a root.
pub fn add_uncanonical(ws: &mut [u32], node: Node) -> Result<Id, Refusal>
    ensures { UncanonicalSays ws.old node result ws.new }
{
    let (h, fit) = enter(ws, node)?;
    uncanonical_open(&mut GraphMut { ws, h }, fit)
}

fn add_open(g: &mut GraphMut<'_>, fit: Fit) -> Result<Id, Refusal>
    requires head_is { HeadStood g.old }
    requires known { Known (term fit) g.old.h.ids }
    ensures loan { SameLoan g.old g.new }
    ensures says { AddOpen g.old.ws.now (term fit) result g.new.ws.now }
{
    let id = uncanonical_open(g, fit)?;
    let root = parts::on_forest::find(&g.view(), id)?;
    Ok(root)
}

// The root of the id of a node, which is a new one if the table has none.
pub fn add(ws: &mut [u32], node: Node) -> Result<Id, Refusal>
    ensures { AddSays ws.old node result ws.new }
{
    let (h, fit) = enter(ws, node)?;
    add_open(&mut GraphMut { ws, h }, fit)
}
