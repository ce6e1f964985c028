// A list of words that has for each id a piece, or nothing: how long it is, and the list written, in ascending id.
// A piece is written at a place of the whole slice, and not into a slice of its own: what is promised is the list in front of it and the rest behind it.
// What the pieces are is told by a type with the trait `Piece`; `pieces` of spelling's specs/Pieces.antt puts them together.
ghost use Rattle.std.specs.Prelude.{List, ℕ, ◌≡◌, ◌*◌, ◌+◌, ◌<◌, ◌≤◌, ◌^◌, length};
ghost use Rattle.layout.specs.Head.{HeadOk};
ghost use Rattle.layout.specs.declared.Head.{Head};
ghost use Rattle.eclass.specs.Checks.{FineIn, UnbrokenIn};
ghost use Rattle.spelling.specs.Pieces.{Wrote, pieces};

use crate::classes::Classes;
use language::Id;
use layout::{Graph, Head};

// One kind of list.
pub trait Piece {
    // the piece of an id, on any words with this head
    ghost piece: { Self → Head → List ℕ → ℕ → List ℕ };

    // How many words the piece of an id takes.
    fn words(&self, classes: &Classes<'_>, r: Id) -> usize
        requires { r.0 < classes.now.g.h.ids }
        ensures exact { result ≡ length (piece self.now classes.now.g.h classes.now.g.ws.now r.0) }
        ensures few { result ≤ 2 + 11 * 2 ^ 32 };

    // The piece of an id from a place on; the place behind it.
    fn put(&self, classes: &Classes<'_>, out: &mut [u32], place: usize, r: Id) -> usize
        requires r_lt_ids { r.0 < classes.now.g.h.ids }
        requires r_in_bounds { place + length (piece self.now classes.now.g.h classes.now.g.ws.now r.0) ≤ length out.old }
        ensures { Wrote out.old place (piece self.now classes.now.g.h classes.now.g.ws.now r.0) result out.new };
}

impl Classes<'_> {
    // How many words a list takes.
    pub fn measure<P: Piece>(&self, list: &P) -> usize
        ensures { result ≡ length (pieces (P.piece list.now self.now.g.h self.now.g.ws.now) self.now.g.h.ids) }
    {
        let mut total = 0;
        for i in 0..self.g.h.ids {
            total += list.words(self, Id(i as u32));
        }
        total
    }

    // A list, from the start of a slice that has room for it; the place behind it.
    pub fn put<P: Piece>(&self, list: &P, out: &mut [u32]) -> usize
        requires { length (pieces (P.piece list.now self.now.g.h self.now.g.ws.now) self.now.g.h.ids) ≤ length out.old }
        ensures { Wrote out.old 0 (pieces (P.piece list.now self.now.g.h self.now.g.ws.now) self.now.g.h.ids) result out.new }
    {
        let mut at = 0;
        for i in 0..self.g.h.ids {
            at = list.put(self, out, at, Id(i as u32));
        }
        at
    }
}
