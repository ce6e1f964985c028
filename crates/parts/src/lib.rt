// The parts of the words, each lent to its own crate. A function here cuts its part out of the words and hands it on; its promise is the
// leaf's own promise of that part, and that no other word has changed (`Lent` of layout). An id is an `Id` here and in every crate above:
// only where a part is lent is it unwrapped, and what the leaf answers is wrapped again. What else goes together, as
// `stay` and `lose`, an id and its node, a node and its key, stays apart: what is asked of them is asked of them and the graph, so that a struct could hold no
// more than that the two differ, or count the same. `on_members` and `on_uses`, and `clear` of three parts, differ in the part, its number of cells and whether
// a cell is an id. A trait with these three would have each promise speak of the part by its ghost members, and a caller name the part as a type at each call,
// in place of one line here with the leaf's promise.
#![tactic(auto)]

pub mod on_forest;
pub mod on_members;
pub mod on_owners;
pub mod on_pending;
pub mod on_rows;
pub mod on_sorting;
pub mod on_table;
pub mod on_uses;
