// Which classes have a node with a given operator.
ghost use Rattle.std.specs.Prelude.{◌≡◌, ◌+◌, ◌<◌, ◌≤◌, length};
ghost use Rattle.lists.specs.Tests.{Says};
ghost use Rattle.layout.specs.Head.{HeadOk};
ghost use Rattle.layout.specs.Seen.{seen};
ghost use Rattle.eclass.specs.Checks.{FineIn, UnbrokenIn};
ghost use Rattle.eclass.specs.Ops.{HasOpIn, OpIs, op_piece_in};
ghost use Rattle.spelling.specs.Pieces.{Wrote};

use crate::classes::Classes;
use crate::members::Members;
use crate::pieces::Piece;
use language::{Id, Op};
use layout::Graph;

// Whether the key of an id has the operator.
fn op_is(g: &Graph<'_>, id: Id, op: Op) -> bool
    requires { id.0 < g.now.h.n }
    ensures { Says result (OpIs (seen g.now).rows g.now.h.n g.now.h.m op.0 id.0) }
{
    let key = parts::on_rows::key_or_leaf(g, id);
    key.node.op == op
}

// Whether a node of the class has it.
fn has_op(classes: &Classes<'_>, r: Id, op: Op) -> bool
    requires { r.0 < classes.now.g.h.ids }
    ensures { Says result (HasOpIn classes.now.g.h classes.now.g.ws.now op.0 r.0) }
{
    Members::of_class(classes, r).any(|id| op_is(&classes.g, id, op))
}

// The list of the roots of the classes that have a node with this operator: an id's piece is itself, or nothing.
#[derive(Clone, Copy)]
pub struct Having(pub Op);

impl Piece for Having {
    ghost piece = { λ s h ws. op_piece_in h ws s.0.0 };

    fn words(&self, classes: &Classes<'_>, r: Id) -> usize {
        usize::from(has_op(classes, r, self.0))
    }

    fn put(&self, classes: &Classes<'_>, out: &mut [u32], place: usize, r: Id) -> usize {
        if has_op(classes, r, self.0) {
            out[place] = r.0;
            return place + 1;
        }
        place
    }
}
