// The verbs, and how many numbers each takes.
ghost use Rattle.std.specs.Prelude.{◌≡◌, map};
ghost use Rattle.script.specs.Verbs.{chosen, entry, verb_of_word};

use super::{NUMBERS, Shape, Verb};

// The name of each verb, and the least and the most numbers that it takes. A row is no `Shape` with a name beside it, so that each verb is one short line.
const TABLE: [(&[u8], Verb, usize, usize); 17] = [
    (b"setup", Verb::Setup, 2, 2),
    (b"add", Verb::Add, 2, NUMBERS),
    (b"add_uncanonical", Verb::AddUncanonical, 2, NUMBERS),
    (b"lookup", Verb::Lookup, 2, NUMBERS),
    (b"union", Verb::Union, 2, 2),
    (b"rebuild", Verb::Rebuild, 0, 0),
    (b"find", Verb::Find, 1, 1),
    (b"classes", Verb::Classes, 0, 0),
    (b"classes_for_op", Verb::ClassesForOp, 1, 1),
    (b"nodes", Verb::Nodes, 0, 0),
    (b"id_to_node", Verb::IdToNode, 1, 1),
    (b"is_empty", Verb::IsEmpty, 0, 0),
    (b"clean", Verb::Clean, 0, 0),
    (b"number_of_classes", Verb::NumberOfClasses, 0, 0),
    (b"total_number_of_nodes", Verb::TotalNumberOfNodes, 0, 0),
    (b"find_best_cost", Verb::FindBestCost, 1, 1),
    (b"find_best", Verb::FindBest, 1, 1),
];

// The verb of the first row with this name.
fn row_of(rows: &[(&[u8], Verb, usize, usize)], w: &[u8]) -> Option<Shape>
    ensures { result ≡ chosen w.now (map (λ r. entry r.0.now r.1 r.2 r.3) rows.now) }
{
    let (_, verb, least, most) = *rows.iter().find(|row| row.0 == w)?;
    Some(Shape { verb, least, most })
}

// The verb with this name.
pub fn verb_of(w: &[u8]) -> Option<Shape>
    ensures { result ≡ verb_of_word w.now }
{
    row_of(&TABLE, w)
}
