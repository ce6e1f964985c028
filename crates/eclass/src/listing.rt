// All classes as words: for each its root, its number of nodes, and these nodes.
ghost use Rattle.std.specs.Prelude.{◌≡◌, ◌*◌, ◌+◌, ◌<◌, ◌≤◌, ◌^◌, length};
ghost use Rattle.language.specs.Term.{words};
ghost use Rattle.layout.specs.Head.{HeadOk};
ghost use Rattle.layout.specs.Seen.{seen};
ghost use Rattle.rows.specs.Read.{key_read};
ghost use Rattle.eclass.specs.Checks.{FineIn, UnbrokenIn};
ghost use Rattle.eclass.specs.Lists.{Before, ClassLongIn, IdWords, Placed, class_piece_in};
ghost use Rattle.spelling.specs.Pieces.{Wrote};

use crate::classes::Classes;
use crate::members::Members;
use crate::pieces::Piece;
use language::Id;
use layout::Graph;

// How many words the key of an id takes.
fn id_words(g: &Graph<'_>, id: Id) -> usize
    requires { id.0 < g.now.h.n }
    ensures { IdWords (seen g.now).rows g.now.h.n g.now.h.m id.0 result }
{
    spelling::node_length(parts::on_rows::key_or_leaf(g, id))
}

// How many words the nodes of a class take.
fn class_words(classes: &Classes<'_>, r: Id) -> usize
    requires { r.0 < classes.now.g.h.ids }
    ensures { ClassLongIn classes.now.g.h classes.now.g.ws.now r.0 result × (result ≤ 11 * 2 ^ 32) }
{
    let mut total = 0;
    for id in Members::of_class(classes, r) {
        total += id_words(&classes.g, id);
    }
    total
}

// The words of the key of an id, written so that they end before a place; the answer is where they start.
fn put_before(g: &Graph<'_>, out: &mut [u32], end: usize, id: Id) -> usize
    requires id_lt_n { id.0 < g.now.h.n }
    requires id_len_bound { (length (words (key_read (seen g.now).rows g.now.h.n g.now.h.m id.0)) ≤ end) × (end ≤ length out.old) }
    ensures { Before (seen g.now).rows g.now.h.n g.now.h.m id.0 end out.old result out.new }
{
    let node = parts::on_rows::key_or_leaf(g, id);
    let start = end - spelling::node_length(node);
    spelling::put_node(out, start, node);
    start
}

// The nodes of a class, which take w words, from a place on. The walk goes back from the last, so they are written from their end to their start.
fn put_members(classes: &Classes<'_>, out: &mut [u32], place: usize, r: Id, w: usize)
    requires r_lt_ids { r.0 < classes.now.g.h.ids }
    requires class_long_in { ClassLongIn classes.now.g.h classes.now.g.ws.now r.0 w }
    requires w_in_bounds { place + w ≤ length out.old }
    ensures { Placed (seen classes.now.g).members (seen classes.now.g).rows classes.now.g.h.n classes.now.g.h.m r.0 out.old place out.new }
{
    let mut start = place + w;
    for id in Members::of_class(classes, r) {
        start = put_before(&classes.g, out, start, id);
    }
}

// The list of all classes: a root's piece is itself, its number of nodes and these nodes; an id that is no root has none.
#[derive(Clone, Copy)]
pub struct Whole;

impl Piece for Whole {
    ghost piece = { λ s h ws. class_piece_in h ws };

    fn words(&self, classes: &Classes<'_>, r: Id) -> usize {
        if parts::on_members::len(&classes.g, r) == 0 {
            return 0;
        }
        2 + class_words(classes, r)
    }

    fn put(&self, classes: &Classes<'_>, out: &mut [u32], place: usize, r: Id) -> usize {
        let k = parts::on_members::len(&classes.g, r);
        if k == 0 {
            return place;
        }
        let w = class_words(classes, r);
        put_members(classes, out, place + 2, r, w);
        let count = k as u32;
        out[place] = r.0;
        out[place + 1] = count;
        place + 2 + w
    }
}
