// Where each part lies in the words of a graph: the head answers its range, and `&ws[h.owners()]` lends it.
// That the limits are in range is asked by each method, and is no fact of `Head`, since `numbers` of specs/Head.antt makes a head of any words; `Graph` and
// `GraphMut` have it. As methods of `Graph` they would ask nothing, but what writes would need ten more of `GraphMut`, or a view at each lend; and a struct
// of the two limits that has the fact would be made anew wherever a part is lent, which is all that these methods are for.
ghost use Rattle.std.specs.Prelude.{◌≡◌, ◌≤◌};
ghost use Rattle.layout.specs.Cut.{Spans, forest, lower, members, owners, pending, rows, scratch, sorting, table, upper, uses};

use super::{HEAD_WORDS, Head};
use std::ops::Range;

impl Head {
    // Union-find.
    pub fn forest(self) -> Range<usize>
        requires { (self.n ≤ 65536) × (self.m ≤ 262144) }
        ensures { Spans forest self.n self.m result }
    {
        HEAD_WORDS..HEAD_WORDS + self.n
    }

    // The stored nodes.
    pub fn rows(self) -> Range<usize>
        requires { (self.n ≤ 65536) × (self.m ≤ 262144) }
        ensures { Spans rows self.n self.m result }
    {
        let start = HEAD_WORDS + self.n;
        start..start + 4 * self.n + 2 * self.m
    }

    // The work area of the sort.
    pub fn sorting(self) -> Range<usize>
        requires { (self.n ≤ 65536) × (self.m ≤ 262144) }
        ensures { Spans sorting self.n self.m result }
    {
        let start = HEAD_WORDS + 5 * self.n + 2 * self.m;
        start..start + 2 * self.n
    }

    // The parent lists.
    pub fn uses(self) -> Range<usize>
        requires { (self.n ≤ 65536) × (self.m ≤ 262144) }
        ensures { Spans uses self.n self.m result }
    {
        let start = HEAD_WORDS + 7 * self.n + 2 * self.m;
        start..start + 3 * self.n + self.m
    }

    // The owners of the child places.
    pub fn owners(self) -> Range<usize>
        requires { (self.n ≤ 65536) × (self.m ≤ 262144) }
        ensures { Spans owners self.n self.m result }
    {
        let start = HEAD_WORDS + 10 * self.n + 3 * self.m;
        start..start + self.m
    }

    // The class nodes.
    pub fn members(self) -> Range<usize>
        requires { (self.n ≤ 65536) × (self.m ≤ 262144) }
        ensures { Spans members self.n self.m result }
    {
        let start = HEAD_WORDS + 10 * self.n + 4 * self.m;
        start..start + 4 * self.n
    }

    // The buckets of the node table.
    pub fn table(self) -> Range<usize>
        requires { (self.n ≤ 65536) × (self.m ≤ 262144) }
        ensures { Spans table self.n self.m result }
    {
        let start = HEAD_WORDS + 14 * self.n + 4 * self.m;
        start..start + 4 * self.n
    }

    // The pending stack.
    pub fn pending(self) -> Range<usize>
        requires { (self.n ≤ 65536) × (self.m ≤ 262144) }
        ensures { Spans pending self.n self.m result }
    {
        let start = HEAD_WORDS + 18 * self.n + 4 * self.m;
        start..start + 4 * self.n
    }

    // The scratch words.
    pub fn scratch(self) -> Range<usize>
        requires { (self.n ≤ 65536) × (self.m ≤ 262144) }
        ensures { Spans scratch self.n self.m result }
    {
        let start = HEAD_WORDS + 22 * self.n + 4 * self.m;
        start..start + 6 * self.n
    }

    // The stored nodes and the work area of the sort, which follows them: the two are lent together.
    pub fn rows_and_sorting(self) -> Range<usize>
        requires { (self.n ≤ 65536) × (self.m ≤ 262144) }
        ensures { (result.start ≡ lower rows self.n self.m) × (result.end ≡ upper sorting self.n self.m) }
    {
        self.rows().start..self.sorting().end
    }
}
