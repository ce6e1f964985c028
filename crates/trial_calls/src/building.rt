// A good graph: nodes and unions as they are drawn, and most often a rebuild.
ghost use Rattle.std.specs.Prelude.{◌<◌};

use super::words::{FROM, IDS, PLACES, SIZE, TO, draw, draw_word};
use drawing::Draws;
use language::{Id, Node, Op};

// A child: an id that may not be there yet.
fn child(seed: u64, salt: u64) -> Id
    requires { salt < 100 }
{
    Id(draw_word(seed, salt, 6))
}

// A node with no child, one or two.
pub fn some_node(seed: u64) -> Node {
    let kids = [draw_word(seed, 4, 6), draw_word(seed, 5, 6)];
    let count = draw(seed, 3, 3);
    Node::over(
        Op(draw_word(seed, 1, 4)),
        draw_word(seed, 2, 2),
        &kids[..count],
    )
}

fn add_nodes(ws: &mut [u32], seed: u64, count: usize) {
    for x in Draws::new(seed).take(count) {
        let _ = egraph::add(ws, some_node(x));
    }
}

fn union_ids(ws: &mut [u32], seed: u64, count: usize) {
    for x in Draws::new(seed).take(count) {
        let _ = egraph::union(ws, child(x, 6), child(x, 7));
    }
}

fn graph(ws: &mut [u32], seed: u64) {
    let _ = egraph::setup(ws, IDS, PLACES);
    add_nodes(ws, seed, 10 + draw(seed, 8, 30));
    union_ids(ws, seed, draw(seed, 9, 5));
    if draw(seed, 10, 4) > 0 {
        let _ = egraph::rebuild(ws);
    }
}

// A good graph in the words that are lent.
pub fn good(ws: &mut [u32; SIZE], seed: u64) {
    graph(&mut ws[FROM..TO], seed);
}
