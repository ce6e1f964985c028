// The listing of a cheapest form (document 01, "The price of a form"), made in the scratch part of the words from the prices that `pricing` has left there:
// children first, leftmost first, each class once, the asked class last. The words are a clean graph's; only words of the scratch part are written, and the
// head stays:
//
//   words of scratch   what
//   0 to 3n - 1        prices and marks (pricing), read and not written
//   3n + c             0 where class c is not listed, else 1 and its place
//   4n + p             the class at place p
//   5n + d             the stack: class d of the way down from the asked class, each a child of the one before it
//
// A step takes the class on top of the stack, and looks for the first child of its chosen node that is not listed. If there is one, it goes onto the stack;
// if there is none, the class is listed and taken off.
#![tactic(auto)]

ghost use Rattle.std.specs.Prelude.{◌+◌, ◌<◌, ◌≤◌, length};
ghost use Rattle.language.specs.Fitting.{term};
ghost use Rattle.layout.specs.Cut.{scratch};
ghost use Rattle.layout.specs.Did.{Did};
ghost use Rattle.layout.specs.Lent.{Lent};
ghost use Rattle.layout.specs.Seen.{seen};
ghost use Rattle.walking.specs.Kids.{FirstKid, NextKidOf};
ghost use Rattle.walking.specs.Step.{ListsAt, Steps};
ghost use Rattle.walking.specs.Walk.{ListsForm, Walks};

use broken::Broken;
use language::{Fit, Id};
use layout::{Graph, GraphMut, Head};

// How far the walk has come: how many classes are listed, and how many stand on the stack.
#[derive(Clone, Copy)]
pub struct Reached {
    pub listed: usize,
    pub depth: usize,
}

// ---- the next child

// The first child of a node that is not listed.
fn first_unlisted(g: &Graph<'_>, fit: Fit) -> Result<Option<Id>, Broken>
    ensures { FirstKid g.now.h.n g.now.h.ids (seen g.now).scratch (term fit) result }
{
    for kid in fit.node.children() {
        if g.h.ids <= kid.0 as usize {
            return Err(Broken);
        }
        if pricing::place_of(g, *kid).is_none() {
            return Ok(Some(*kid));
        }
    }
    Ok(None)
}

// The first child of class c's chosen node that is not listed.
fn next_kid(g: &Graph<'_>, c: Id) -> Result<Option<Id>, Broken>
    requires { c.0 < g.now.h.n }
    ensures { NextKidOf g.now.h c.0 (seen g.now) result }
{
    let e = pricing::get_entry(g, c).ok_or(Broken)?;
    let key = egraph::root_node(g, e.id)?;
    first_unlisted(g, key)
}

// ---- the steps

// Class c is listed at place k.
fn list_class(g: &mut GraphMut<'_>, k: usize, class: Id)
    requires { (k < g.old.h.n) × (class.0 < g.old.h.n) }
    ensures { Did (Lent scratch g.old.h.n g.old.h.m (ListsAt g.old.h.n k class.0)) g.old g.new }
{
    let n = g.h.n;
    let c = class.0 as usize;
    layout::set_scratch(g, 4 * n + k, c);
    layout::set_scratch(g, 3 * n + c, k + 1);
}

// One step: the next child of the top of the stack goes onto it, or the top is listed.
fn step(g: &mut GraphMut<'_>, from: Reached) -> Result<Reached, Broken>
    requires { (from.listed ≤ g.old.h.n) × (0 < from.depth) × (from.depth ≤ g.old.h.n) }
    ensures { Did (λ ws ws'. Steps g.old.h from.listed from.depth ws result ws') g.old g.new }
{
    let Head { n, ids, .. } = g.h;
    let Reached { listed, depth } = from;
    let seen = g.view();
    let c = layout::scratch(&seen, 5 * n + (depth - 1));
    if ids <= c {
        return Err(Broken);
    }
    let top = Id(c as u32);
    match next_kid(&seen, top)? {
        Some(kid) => {
            if depth == n {
                return Err(Broken);
            }
            layout::set_scratch(g, 5 * n + depth, kid.0 as usize);
            Ok(Reached {
                depth: depth + 1,
                ..from
            })
        }
        None => {
            if listed == n {
                return Err(Broken);
            }
            list_class(g, listed, top);
            Ok(Reached {
                listed: listed + 1,
                depth: depth - 1,
            })
        }
    }
}

// Steps until the stack is empty, from one class on it and none listed. Each step lists a class or goes one deeper, so that any words end within 3n steps.
fn finish(g: &mut GraphMut<'_>) -> Result<usize, Broken>
    ensures { Did (λ ws ws'. Walks g.old.h ws result ws') g.old g.new }
{
    let mut at = Reached {
        listed: 0,
        depth: 1,
    };
    // Not a `for`: how many steps there are depends on the prices, and each is refused where it meets broken words.
    while 0 < at.depth {
        at = step(g, at)?;
    }
    Ok(at.listed)
}

// The listing of the cheapest form of class r, where no class is listed yet.
pub fn list_form(g: &mut GraphMut<'_>, r: Id) -> Result<usize, Broken>
    requires { r.0 < g.old.h.n }
    ensures { Did (λ ws ws'. ListsForm g.old.h r.0 ws result ws') g.old g.new }
{
    let n = g.h.n;
    layout::set_scratch(g, 5 * n, r.0 as usize);
    finish(g)
}
