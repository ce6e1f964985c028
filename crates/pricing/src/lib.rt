// The prices of a graph's classes (document 01, "The price of a form"), worked out in the scratch part of the words of a clean graph (layout has their
// table). Only the scratch part is written, and the head stays:
//
//   words of scratch   what
//   2c, 2c + 1         the price of class c, low half and high half
//   2n + c             its mark: 0 where class c has no price yet, else 1 and an id that has the node that earned it
//   3n + c             its place word, where a listing is made (walking): 0 where class c is not listed, else 1 and its place. Read, and not written here
//   4n to 6n - 1       not used here
//
// Of the graph are read, by the promises of `egraph`: the nodes of a class, from the last one back, and the node of an id with root children. An id that is
// no root has no nodes, so that a pass runs over all ids.
#![tactic(auto)]

ghost use Rattle.std.specs.Prelude.{◌≡◌, ◌+◌, ◌<◌, ◌≤◌, ◌^◌, min, length};
ghost use Rattle.language.specs.Fitting.{term};
ghost use Rattle.layout.specs.Cut.{scratch};
ghost use Rattle.layout.specs.Did.{Did};
ghost use Rattle.layout.specs.Lent.{Lent};
ghost use Rattle.layout.specs.Seen.{seen};
ghost use Rattle.layout.specs.View.{hd};
ghost use Rattle.price.specs.Size.{cap};
ghost use Rattle.pricing.specs.Entries.{EntryAt, IdBelow, Keeps};
ghost use Rattle.pricing.specs.Laid.{PlaceAt};
ghost use Rattle.pricing.specs.Node.{CostsNode};
ghost use Rattle.pricing.specs.Best.{BestOf, Betters, Chooses};
ghost use Rattle.pricing.specs.Turn.{Accepts, Turns};
ghost use Rattle.pricing.specs.Pass.{Passes};
ghost use Rattle.pricing.specs.Costs.{FindsCosts};

use broken::Broken;
use language::{Fit, Id};
use layout::{Graph, GraphMut};

// A price, and an id that has the node that earned it.
#[derive(Clone, Copy)]
pub struct Entry {
    pub id: Id,
    pub price: u64,
}

// ---- entries in the scratch part

// The entry of class c, if it has a price.
pub fn get_entry(g: &Graph<'_>, c: Id) -> Option<Entry>
    requires { c.0 < g.now.h.n }
    ensures { EntryAt g.now.h.n (seen g.now).scratch c.0 result }
{
    let i = c.0 as usize;
    let id = layout::scratch(g, 2 * g.h.n + i).checked_sub(1)?;
    let low = layout::scratch(g, 2 * i) as u64;
    let high = layout::scratch(g, 2 * i + 1) as u64;
    Some(Entry {
        id: Id(id as u32),
        price: low + (high << 32),
    })
}

fn set_entry(g: &mut GraphMut<'_>, c: Id, e: Entry)
    requires { (c.0 < g.old.h.n) × (e.id.0 + 1 < 2 ^ 32) }
    ensures { Did (Lent scratch g.old.h.n g.old.h.m (Keeps g.old.h.n c.0 e)) g.old g.new }
{
    let n = g.h.n;
    let i = c.0 as usize;
    layout::set_scratch(g, 2 * i, (e.price % (1 << 32)) as usize);
    layout::set_scratch(g, 2 * i + 1, (e.price >> 32) as usize);
    layout::set_scratch(g, 2 * n + i, e.id.0 as usize + 1);
}

// The place of class c in the listing, if it is listed.
pub fn place_of(g: &Graph<'_>, c: Id) -> Option<usize>
    requires { c.0 < g.now.h.n }
    ensures { PlaceAt g.now.h.n (seen g.now).scratch c.0 result }
{
    layout::scratch(g, 3 * g.h.n + c.0 as usize).checked_sub(1)
}

// ---- the price of a node

// 1 and the prices of the children's classes, added left to right.
fn node_total_cost(g: &Graph<'_>, fit: Fit) -> Result<Option<u64>, Broken>
    ensures { CostsNode g.now.h.n g.now.h.ids (seen g.now).scratch (term fit) result }
{
    let mut sum: u64 = 1;
    for kid in fit.node.children() {
        if g.h.ids <= kid.0 as usize {
            return Err(Broken);
        }
        let Some(e) = get_entry(g, *kid) else {
            return Ok(None);
        };
        sum = sum.saturating_add(e.price);
    }
    Ok(Some(sum))
}

// ---- the best node of a class

// The node of an id at a price, or the best of the nodes behind it in node order: at equal prices the one in front.
fn choose(best: Option<Entry>, price: u64, id: Id) -> Entry
    ensures { Chooses best price id.0 result }
{
    match best {
        Some(e) if e.price < price => e,
        _ => Entry { id, price },
    }
}

// The node of an id is looked at, where `best` is the best of those behind it.
fn better(g: &Graph<'_>, id: Id, best: Option<Entry>) -> Result<Option<Entry>, Broken>
    requires { (id.0 < g.now.h.n) × IdBelow g.now.h.n best }
    ensures { Betters g.now.h id.0 best (seen g.now) result }
{
    let key = egraph::root_node(g, id)?;
    match node_total_cost(g, key)? {
        None => Ok(best),
        Some(price) => Ok(Some(choose(best, price, id))),
    }
}

// The first node in node order with the least price, of the nodes of class r: the walk goes back from the last.
fn class_best(g: &Graph<'_>, r: Id) -> Result<Option<Entry>, Broken>
    requires { r.0 < g.now.h.n }
    ensures { BestOf g.now.h r.0 (seen g.now) result }
{
    let mut best = None;
    for id in egraph::class_nodes(g, r)? {
        best = better(g, id?, best)?;
    }
    Ok(best)
}

// ---- the passes

// Whether a class with the entry `old` takes the best of its nodes: if it has none yet, or if the price is strictly less.
fn accepts(old: Option<Entry>, best: Entry) -> bool
    ensures { Accepts old best result }
{
    old.is_none_or(|e| best.price < e.price)
}

// One class's turn, and whether it took an entry.
fn turn(g: &mut GraphMut<'_>, r: Id) -> Result<bool, Broken>
    requires { r.0 < g.old.h.n }
    ensures { Did (λ ws ws'. Turns g.old.h r.0 ws result ws') g.old g.new }
{
    let seen = g.view();
    let Some(best) = class_best(&seen, r)? else {
        return Ok(false);
    };
    let old = get_entry(&seen, r);
    if accepts(old, best) {
        set_entry(g, r, best);
        return Ok(true);
    }
    Ok(false)
}

// A pass over the classes in ascending root id: what one turn takes counts in the next. It answers whether one of them took an entry.
fn pass(g: &mut GraphMut<'_>) -> Result<bool, Broken>
    ensures { Did (λ ws ws'. Passes g.old.h ws result ws') g.old g.new }
{
    let mut taken = false;
    for r in 0..g.h.ids {
        taken |= turn(g, Id(r as u32))?;
    }
    Ok(taken)
}

// Passes until one takes nothing. On a graph's words this comes within one more than there are classes; words that go on longer are no graph's.
pub fn find_costs(g: &mut GraphMut<'_>) -> Result<(), Broken>
    ensures { Did (λ ws ws'. FindsCosts g.old.h ws result ws') g.old g.new }
{
    // a pass looks at no more nodes than there are ids: words whose classes have more are broken
    egraph::count_nodes(&g.view())?;
    for round in 0..g.h.ids + 1 {
        if !pass(g)? {
            return Ok(());
        }
    }
    Err(Broken)
}
