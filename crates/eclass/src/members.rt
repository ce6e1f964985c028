// The members of a class, as an iterator: from the last of its list to the first.
ghost use Rattle.std.specs.Prelude.{List, ℕ, ◌≡◌, ◌<◌, ◌^◌, length};
ghost use Rattle.std.specs.Iterator.{YieldsLastBy, item_count};
ghost use Rattle.layout.specs.Head.{HeadOk};
ghost use Rattle.eclass.specs.Checks.{FineIn};
ghost use Rattle.eclass.specs.Going.{Going, going, members_in};

use crate::classes::Classes;
use language::Id;
use layout::Graph;
use std::marker::Model;

// The members that are still to come: `left` of them, and `id` is the last of these. A contract sees their list.
#[derive(Drop)]
pub struct Members<'a> {
    g: Graph<'a>,
    left: usize,
    id: Id,
}

impl<'a> Model for Members<'a> {
    ghost Value = { List ℕ };

    ghost view = { λ s. going s.g.h s.g.ws.now s.left s.id.0 };

    ghost invariant = { λ s. Going s.g.h s.g.ws.now s.left s.id.0 };
}

impl<'a> Iterator for Members<'a> {
    type Item = Id;

    ghost next_gives = { YieldsLastBy (λ id. id.0) (λ rest. rest) };

    ghost remaining = { item_count (λ rest. rest) };

    fn next(&mut self) -> Option<Id> {
        if self.left == 0 {
            return None;
        }
        let id = self.id;
        self.id = parts::on_members::link(&self.g, id);
        self.left -= 1;
        Some(id)
    }
}

impl<'a> Members<'a> {
    // The members of the class of an id.
    pub fn of_class(classes: &Classes<'a>, r: Id) -> Members<'a>
        requires { r.0 < classes.now.g.h.ids }
        ensures all { result ≡ members_in classes.now.g.h classes.now.g.ws.now r.0 }
        ensures few { length result < 2 ^ 32 }
    {
        let g = classes.g;
        Members {
            g,
            left: parts::on_members::len(&g, r),
            id: parts::on_members::last(&g, r),
        }
    }
}
