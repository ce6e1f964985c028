// Nodes for the trials.
ghost use Rattle.std.specs.Prelude.{◌≡◌, ◌≤◌, length};
ghost use Rattle.language.specs.Term.{places};

use super::words::draw_word;
use drawing::Draws;
use language::{Fit, Id, Node, Op};

// A node with `count` children.
pub fn some_node(seed: u64, count: usize) -> Fit
    requires { count ≤ places }
    ensures { result.node.count ≡ count }
{
    let mut node = Node::leaf(Op(draw_word(seed, 30, 4)), draw_word(seed, 31, 4));
    for x in Draws::new(seed).take(count) {
        node = node.with(Id(draw_word(x, 32, 8)));
    }
    node.fit().unwrap()
}

// The node over a slice of children.
pub fn over(op: u32, payload: u32, kids: &[u32]) -> Fit
    requires { length kids.now ≤ places }
    ensures { result.node.count ≡ length kids.now }
{
    let node = Node::over(Op(op), payload, kids);
    Fit { node }
}
