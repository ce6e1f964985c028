// The end of a rebuild: each class has its nodes re-childed with roots, sorted, and duplicates dropped. The key of each id is up to date before. A class is
// tidied through these parts of the words (layout has their table):
//
//   part      what happens to it
//   members   the list of the class: read, given up, and filled anew
//   sorting   words 0 to k - 1: the k ids of the list, then the d ids that are left of them
//   rows      the keys by which the ids are sorted; only read
//
// A step that changes the head's numbers changes the head beside the words; the head in the words is written once, at the end of a call. What each function
// promises: specs/.
#![tactic(auto)]

ghost use Rattle.std.specs.Prelude.{◌<◌, ◌≤◌};
ghost use Rattle.layout.specs.Cut.{members, sorting};
ghost use Rattle.layout.specs.Did.{Did, SameLoan, headed};
ghost use Rattle.layout.specs.Lent.{Lent};
ghost use Rattle.layout.specs.View.{view};
ghost use Rattle.tidying.specs.Copy.{Copies};
ghost use Rattle.tidying.specs.Refill.{PutsBack, Refills};
ghost use Rattle.tidying.specs.Says.{TidiesClass, Tidies};

use broken::Broken;
use language::Id;
use layout::GraphMut;

// The k ids of a list to the start of the work area, in list order: the walk goes back from the last. No method of slices copies linked cells, and an iterator
// would borrow the words that each turn writes to.
fn copy(g: &mut GraphMut<'_>, list: Id, k: usize) -> Result<(), Broken>
    requires { (list.0 < g.old.h.n) × (k ≤ g.old.h.n) }
    ensures { Did (Lent sorting g.old.h.n g.old.h.m (Copies (view g.old.h.n g.old.h.m g.old.ws.now).members g.old.h.n list.0 k result)) g.old g.new }
{
    let mut id = parts::on_members::last(&g.view(), list);
    for place in (0..k).rev() {
        if g.h.n <= id.0 as usize {
            return Err(Broken);
        }
        parts::on_sorting::set_work(g, place, id);
        id = parts::on_members::link(&g.view(), id);
    }
    Ok(())
}

// The id at place i of the work area to the end of a list.
fn put_back(g: &mut GraphMut<'_>, list: Id, i: usize) -> Result<(), Broken>
    requires { (list.0 < g.old.h.n) × (i < g.old.h.n) }
    ensures { Did (Lent members g.old.h.n g.old.h.m (PutsBack (view g.old.h.n g.old.h.m g.old.ws.now).sorting g.old.h.n list.0 i result)) g.old g.new }
{
    let id = parts::on_sorting::work(&g.view(), i);
    if g.h.n <= id.0 as usize {
        return Err(Broken);
    }
    parts::on_members::push(g, list, id)
}

// The first d ids of the work area to the end of a list, in order.
fn refill(g: &mut GraphMut<'_>, list: Id, d: usize) -> Result<(), Broken>
    requires { (list.0 < g.old.h.n) × (d ≤ g.old.h.n) }
    ensures { Did (Lent members g.old.h.n g.old.h.m (Refills (view g.old.h.n g.old.h.m g.old.ws.now).sorting g.old.h.n list.0 d result)) g.old g.new }
{
    for i in 0..d {
        put_back(g, list, i)?;
    }
    Ok(())
}

// The list of one class sorted by the keys of its ids, and of ids with one key all but one dropped. A list of no class is empty, and stays so.
fn tidy_class(g: &mut GraphMut<'_>, list: Id) -> Result<(), Broken>
    requires { list.0 < g.old.h.n }
    ensures { Did (λ ws ws'. TidiesClass g.old.h list.0 ws result ws') g.old g.new }
{
    let k = parts::on_members::len(&g.view(), list);
    if k < 2 {
        return Ok(());
    }
    if g.h.n < k {
        return Err(Broken);
    }
    copy(g, list, k)?;
    let d = parts::on_sorting::sort(g, k)?;
    parts::on_members::empty(g, list);
    refill(g, list, d)
}

// Every class tidied: the graph is clean.
pub fn tidy(g: &mut GraphMut<'_>) -> Result<(), Broken>
    ensures loan { SameLoan g.old g.new }
    ensures tidies { Tidies g.old.h g.old.ws.now (headed g.new.h result) g.new.ws.now }
{
    // every root is an id
    for i in 0..g.h.ids {
        tidy_class(g, Id(i as u32))?;
    }
    g.h.clean = true;
    Ok(())
}
