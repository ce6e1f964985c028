// A node from plain numbers, as a caller gives it: an operator, a payload and a slice of children.
ghost use Rattle.std.specs.Prelude.{◌≤◌, length};
ghost use Rattle.language.specs.Term.{places};
ghost use Rattle.spelling.specs.Given.{GivenNode};

use language::{Node, Op, PLACES};

// A count that every call refuses by 5.
const TOO_MANY: u32 = PLACES as u32 + 1;

// The node. More children than a node may have are counted as one too many and not kept: the call that takes the node refuses it by 5.
pub fn node_of(op: u32, payload: u32, kids: &[u32]) -> Node
    ensures { GivenNode op payload kids.now result }
{
    if PLACES < kids.len() {
        return Node {
            count: TOO_MANY,
            ..Node::leaf(Op(op), payload)
        };
    }
    Node::over(Op(op), payload, kids)
}
