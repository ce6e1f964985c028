// The pending stack, lent its part.
ghost use Rattle.std.specs.Prelude.{◌≡◌, ◌<◌, ◌≤◌, length, ◌^◌, ◌*◌};
ghost use Rattle.layout.specs.Cut.{pending};
ghost use Rattle.layout.specs.Seen.{seen};
ghost use Rattle.layout.specs.Lent.{Lent};
ghost use Rattle.layout.specs.Did.{Did};
ghost use Rattle.pending.specs.Promise.{Pushes, PushesStretch, Tops};
ghost use Rattle.parts.specs.Bare.{bare_top};

use language::Id;
use layout::{Graph, GraphMut};
use pending::OnTop;

// One id pushed.
pub fn push_one(g: &mut GraphMut<'_>, depth: usize, id: Id)
    requires { depth < 2 * g.old.h.n }
    ensures { Did (Lent pending g.old.h.n g.old.h.m (λ w w'. Pushes w depth id.0 0 w')) g.old g.new }
{
    let h = g.h;
    pending::push_one(&mut g.ws[h.pending()], depth, id.0 as usize);
}

// A stretch of places pushed, if it has any; the new depth.
pub fn push_stretch(g: &mut GraphMut<'_>, depth: usize, last: usize, count: usize) -> usize
    requires { (depth < 2 * g.old.h.n) × (last < 2 ^ 32) × (count < 2 ^ 32) }
    ensures { Did (Lent pending g.old.h.n g.old.h.m (λ w w'. PushesStretch w depth last count result w')) g.old g.new }
{
    let h = g.h;
    pending::push_stretch(&mut g.ws[h.pending()], depth, last, count)
}

// The entry pushed last.
pub fn top(g: &Graph<'_>, depth: usize) -> OnTop<Id>
    requires { (0 < depth) × (depth ≤ 2 * g.now.h.n) }
    ensures { Tops (seen g.now).pending depth (bare_top result) }
{
    match pending::top(&g.ws[g.h.pending()], depth) {
        OnTop::TopOne(id) => OnTop::TopOne(Id(id as u32)),
        OnTop::TopMany(last, count) => OnTop::TopMany(last, count),
    }
}
