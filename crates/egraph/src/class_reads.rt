// What an extraction reads of a clean graph: the root of an id, how many nodes the classes have, the nodes of a class, from the last back in node order,
// and the node of an id with root children. Nothing is written, and what stands in the scratch part makes no difference.
ghost use Rattle.std.specs.Prelude.{◌<◌, length};
ghost use Rattle.std.specs.Iterator.{YieldsFirst, item_count};
ghost use Rattle.layout.specs.Head.{HeadOk};
ghost use Rattle.layout.specs.Seen.{seen};
ghost use Rattle.egraph.specs.ClassReads.{ClassRoot, Items, NodeCount, NodesOf, RootNode, going};

use broken::Broken;
use language::{Fit, Id};
use layout::Graph;
use std::marker::Model;

// The root of an id: what `find` answers, of a graph whose head was read before.
pub fn class_root(g: &Graph<'_>, id: Id) -> Result<Id, Broken>
    requires { id.0 < g.now.h.ids }
    ensures { ClassRoot g.now.h (seen g.now) id.0 result }
{
    parts::on_forest::find(g, id)
}

// How many nodes the classes have: what `total_number_of_nodes` answers, of a graph whose head was read before.
pub fn count_nodes(g: &Graph<'_>) -> Result<usize, Broken>
    ensures { NodeCount g.now.h (seen g.now) result }
{
    eclass::count_nodes(g)
}

// The node of an id with root children. `check_id` of eclass has the same steps, and answers whether an id is fine, and no node.
pub fn root_node(g: &Graph<'_>, id: Id) -> Result<Fit, Broken>
    ensures { RootNode g.now.h (seen g.now) id.0 result }
{
    if g.h.ids <= id.0 as usize {
        return Err(Broken);
    }
    parts::on_rows::key(g, id)
}

// The nodes of a class that are still to come, from the last back in node order: `left` of them, and `id` has the next. A contract sees the list of what
// comes. An item is an id that has the node, or `Broken` where the words name no id there, and nothing after that.
#[derive(Drop)]
pub struct ClassNodes<'a> {
    g: Graph<'a>,
    left: usize,
    id: Id,
}

impl<'a> Model for ClassNodes<'a> {
    ghost Value = { Items };

    ghost view = { λ s. going s.g.h s.g.ws.now s.left s.id.0 };

    ghost invariant = { λ s. HeadOk (length s.g.ws.now) s.g.h };
}

impl<'a> Iterator for ClassNodes<'a> {
    type Item = Result<Id, Broken>;

    ghost next_gives = { YieldsFirst (λ rest. rest) };

    ghost remaining = { item_count (λ rest. rest) };

    fn next(&mut self) -> Option<Result<Id, Broken>> {
        if self.left == 0 {
            return None;
        }
        let id = self.id;
        if self.g.h.ids <= id.0 as usize {
            self.left = 0;
            return Some(Err(Broken));
        }
        self.id = parts::on_members::link(&self.g, id);
        self.left -= 1;
        Some(Ok(id))
    }
}

// The nodes of class c.
pub fn class_nodes<'a>(g: &Graph<'a>, c: Id) -> Result<ClassNodes<'a>, Broken>
    requires { c.0 < g.now.h.n }
    ensures { NodesOf g.now.h (seen g.now) c.0 result }
{
    let left = parts::on_members::len(g, c);
    if g.h.n < left {
        return Err(Broken);
    }
    let id = parts::on_members::last(g, c);
    Ok(ClassNodes { g: *g, left, id })
}
