// A graph as it is read, and as it is written: the words that are lent, and a head beside them.
// That the head is the one which stands in the words (`HeadStands`, `HeadStood`), or that it says clean, is asked of the few steps that rest on it, and is no
// fact of these types: within a call the head is ahead of the words.
ghost use Rattle.std.specs.Prelude.{◌≡◌, length};
ghost use Rattle.layout.specs.Head.{HeadOk};

use super::{Head, write_head};

// The words of a graph, to be read, and a head that is good for as many words: the one that stands in them, or, within a call that changes them, the one
// that will.
#[derive(Clone, Copy)]
pub struct Graph<'a> {
    pub ws: &'a [u32],
    pub h: Head,
    ghost ok: { HeadOk (length ws.now) h },
}

// The words of a graph, to be written, and a head that is good for as many words. A call writes it to the words once, at its end, if it changed it.
#[derive(Drop)]
pub struct GraphMut<'a> {
    pub ws: &'a mut [u32],
    pub h: Head,
    ghost ok: { HeadOk (length ws.now) h },
}

impl GraphMut<'_> {
    ghost use Rattle.layout.specs.View.{hd};
    ghost use Rattle.layout.specs.Written.{Noted, written};
    ghost use Rattle.layout.specs.Did.{Did};

    // The same, to be read: a `Graph`, and not the `View` of specs, which is its parts. Two equations, and not one with a `Graph` written out: a loan has an
    // address, which no promise settles. So what rests on a view says in two rewrites that it is read of the graph.
    pub fn view(&self) -> Graph<'_>
        ensures { (result.ws.now ≡ self.now.ws.now) × (result.h ≡ self.now.h) }
    {
        Graph {
            ws: self.ws,
            h: self.h,
        }
    }

    // The head's numbers written into the words; the spare words of the head stay.
    pub fn note_head(&mut self)
        ensures { Did (λ ws ws'. Noted ws ws' (written (hd ws) self.old.h)) self.old self.new }
    {
        let h = self.h;
        write_head(self.ws, h);
    }
}
