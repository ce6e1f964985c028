// A node with at most eight children: what the rows hold, and what every step inside a call works with. An open call takes any `Node`, and `fit` is how it
// refuses one with more. Since a row has eight places, the plain node of one that fits (`term` of specs/Fitting.antt) has as many children as it counts.
// The methods of `Node`, which callers use, ask for the same in a clause, as they did. A `Fit` has no `PartialEq` and no `Ord`: `same` and `order` stay as they
// are promised, and an impl beside each would be for one use or two.
ghost use Rattle.std.specs.Prelude.{◌≡◌, ◌≤◌, length};
ghost use Rattle.language.specs.Term.{places};
ghost use Rattle.language.specs.Struct.{node_of};

use super::{Id, Node, PLACES};

#[derive(Clone, Copy)]
pub struct Fit {
    pub node: Node,
    pub ghost few: { node.count ≤ places },
    pub ghost many: { length (node_of node).kids ≡ node.count },
}

impl Node {
    ghost use Rattle.language.specs.Fitting.{FitSays};

    // The same node, if its row has all its children.
    pub fn fit(self) -> Option<Fit>
        ensures { FitSays self result }
    {
        if PLACES < self.count as usize {
            return None;
        }
        Some(Fit { node: self })
    }
}

impl Fit {
    ghost use Rattle.std.specs.Prelude.{ℕ, ◌<◌};
    ghost use Rattle.language.specs.Fitting.{term};
    ghost use Rattle.language.specs.Mapped.{Mapped, child_at};

    // Each child through a function, left to right: the first error that it answers is the answer.
    pub fn try_map<E, F: Fn(Id) -> Result<Id, E>>(self, f: F) -> Result<Fit, E>
        requires { (i : ℕ) → i < self.node.count → F.pre f (child_at (term self) i) }
        ensures { Mapped (F.post f) self result }
    {
        let mut node = self.node;
        for (i, c) in self.node.children().iter().enumerate() {
            node = node.with_child(i, f(*c)?);
        }
        Ok(Fit { node })
    }
}
