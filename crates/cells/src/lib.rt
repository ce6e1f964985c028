// Linked cells in a pool: many lists of cells in one slice of words. With n = `lists` and m = `cells`:
//
//   word                         means
//   a             (a < n)        the last cell of list a
//   n + a                        the first cell of list a
//   2n + a                       how many cells list a has
//   3n + c        (c < m)        the cell before cell c
//
// `Pool` and the functions that write have `lists`, and `cells` where they need it, beside the words: a caller lends them (document 01), and the length tells
// neither. What writes takes no struct of them: it may be given another loan, so that each write would say too that it kept its own, for one call.
// A list is read backwards from its last cell, as many cells as its length says: the link of a first cell means nothing, and nor do
// the last and the first cell of an empty list. A cell is in one list at most. specs/Pool.antt says which lists the words hold.
#![tactic(auto)]

ghost use Rattle.std.specs.Prelude.{◌≡◌, ◌≢◌, ◌+◌, ◌≤◌, ◌<◌, ◌^◌, length};
ghost use Rattle.cells.specs.Writes.{pick};
ghost use Rattle.cells.specs.Trail.{trail};
ghost use Rattle.cells.specs.Changes.{Room, Pushed, Joined};
ghost use Rattle.cells.specs.Empty.{Emptied, Cleared};
ghost use Rattle.cells.specs.Reading.{Reached};
ghost use Rattle.cells.specs.Cuts.{Seen, Removed};
ghost use Rattle.lists.specs.Reads.{Word};

use broken::Broken;

// Where a cell stands in a list: how many cells are before it, the index of the word that names it, and the cell that follows it. Where none does, `after` is 0
// and no `None`: 0 is what `remove` writes in that case, so that an `Option` would be turned back into it at its one use.
#[derive(Clone, Copy)]
struct Spot {
    before: usize,
    word: usize,
    after: usize,
}

// The first of two words where a count is 0, else the second.
fn choose(n: u32, x: u32, y: u32) -> u32
    ensures { result ≡ pick n x y }
{
    if n == 0 { x } else { y }
}

// Appends a cell, which is in no list, to a list.
pub fn push(
    ws: &mut [u32],
    lists: usize,
    cells: usize,
    list: usize,
    cell: usize,
) -> Result<(), Broken>
    requires room { Room ws.old lists cells }
    requires list_lt_lists { (list < lists) × (cell < cells) }
    ensures { Pushed ws.old ws.new lists cells list cell result }
{
    let f = list + lists;
    let n = f + lists;
    let size = ws[n];
    if size as usize >= cells {
        return Err(Broken);
    }
    let p = lists + lists + lists + cell;
    let end = cell as u32;
    let before = ws[list];
    let first = choose(size, end, ws[f]);
    ws[p] = before;
    ws[f] = first;
    ws[list] = end;
    ws[n] = size + 1;
    Ok(())
}

// Appends the list `gone` to the list `stay`, and empties `gone`.
pub fn join(
    ws: &mut [u32],
    lists: usize,
    cells: usize,
    stay: usize,
    gone: usize,
) -> Result<(), Broken>
    requires room { Room ws.old lists cells }
    requires stay_lt_lists { (stay < lists) × (gone < lists) × (stay ≢ gone) }
    ensures { Joined ws.old ws.new lists cells stay gone result }
{
    let gf = gone + lists;
    let gn = gf + lists;
    let more = ws[gn];
    if more == 0 {
        return Ok(());
    }
    let sf = stay + lists;
    let sn = sf + lists;
    let size = ws[sn];
    if size as usize + more as usize > cells {
        return Err(Broken);
    }
    let head = ws[gf];
    let seam = head as usize;
    if seam >= cells {
        return Err(Broken);
    }
    let p = lists + lists + lists + seam;
    let before = ws[stay];
    let end = ws[gone];
    let first = choose(size, head, ws[sf]);
    ws[p] = before;
    ws[sf] = first;
    ws[stay] = end;
    ws[sn] = size + more;
    ws[gn] = 0;
    Ok(())
}

// The lists, to be read.
#[derive(Clone, Copy)]
pub struct Pool<'a> {
    pub ws: &'a [u32],
    pub lists: usize,
    pub cells: usize,
    ghost room: { Room ws.now lists cells },
}

impl Pool<'_> {
    // The number of cells of a list.
    pub fn len(&self, list: usize) -> usize
        requires { list < self.now.lists }
        ensures { Word self.now.ws.now (list + self.now.lists + self.now.lists) result }
    {
        let n = list + self.lists + self.lists;
        self.ws[n] as usize
    }

    // The word that holds a list's last cell; it says nothing of an empty list.
    pub fn last(&self, list: usize) -> usize
        requires { list < self.now.lists }
        ensures { Word self.now.ws.now list result }
    {
        self.ws[list] as usize
    }

    // The word that holds the cell before a cell; it says nothing of a first cell.
    pub fn link(&self, cell: usize) -> usize
        requires { cell < self.now.cells }
        ensures { Word self.now.ws.now (self.now.lists + self.now.lists + self.now.lists + cell) result }
    {
        let p = self.lists + self.lists + self.lists + cell;
        self.ws[p] as usize
    }

    // k steps back from a cell. This walk, and those of `seek`, of table's `seek` and of tidying's `copy`, are no iterator of cells: each keeps something
    // else of a cell passed (its number, the word that names it, the id that it is), and each refuses at a broken link. An iterator that may refuse, as
    // `ClassNodes` of egraph, would be the lines of one such loop as its `next`, with a model and a definition of its items, and keep one of the three.
    fn walk(&self, cell: usize, k: usize) -> Result<usize, Broken>
        requires { cell < self.now.cells }
        ensures { result ≡ trail self.now.ws.now self.now.lists self.now.cells k cell }
    {
        let mut c = cell;
        for taken in 0..k {
            let x = self.link(c);
            if x >= self.cells {
                return Err(Broken);
            }
            c = x;
        }
        Ok(c)
    }

    // The cell of a list that k others follow.
    pub fn nth(&self, list: usize, k: usize) -> Result<usize, Broken>
        requires { list < self.now.lists }
        ensures { Reached self.now.ws.now self.now.lists self.now.cells list k result }
    {
        if k >= self.len(list) {
            return Err(Broken);
        }
        if k >= self.cells {
            return Err(Broken);
        }
        let end = self.last(list);
        if end >= self.cells {
            return Err(Broken);
        }
        self.walk(end, k)
    }

    // Where a cell stands in a list.
    fn seek(&self, list: usize, cell: usize) -> Result<Option<Spot>, Broken>
        requires { list < self.now.lists }
        ensures { Seen self.now.ws.now self.now.lists self.now.cells list cell result }
    {
        let links = self.lists + self.lists + self.lists;
        let size = self.len(list);
        if size > self.cells {
            return Err(Broken);
        }
        let mut spot = list;
        let mut after = 0;
        for passed in 0..size {
            let cur = self.ws[spot] as usize;
            if cur >= self.cells {
                return Err(Broken);
            }
            if cur == cell {
                return Ok(Some(Spot {
                    before: size - passed - 1,
                    word: spot,
                    after,
                }));
            }
            spot = links + cur;
            after = cur;
        }
        Ok(None)
    }
}

// Takes a cell out of a list, wherever it stands there: the word that names it then names the cell before it.
pub fn remove(
    ws: &mut [u32],
    lists: usize,
    cells: usize,
    list: usize,
    cell: usize,
) -> Result<bool, Broken>
    requires room { Room ws.old lists cells }
    requires list_lt_lists { (list < lists) × (cell < cells) }
    ensures { Removed ws.old ws.new lists cells list cell result }
{
    let pool = Pool { ws, lists, cells };
    let Some(spot) = pool.seek(list, cell)? else {
        return Ok(false);
    };
    let f = list + lists;
    let n = f + lists;
    let p = lists + lists + lists + cell;
    let size = ws[n];
    let before = ws[p];
    let first = choose(spot.before as u32, spot.after as u32, ws[f]);
    ws[spot.word] = before;
    ws[f] = first;
    ws[n] = size - 1;
    Ok(true)
}

// Gives up a list: its cells are in no list then.
pub fn empty(ws: &mut [u32], lists: usize, list: usize)
    requires { (lists + lists + lists ≤ length ws.old) × (list < lists) }
    ensures { Emptied ws.old ws.new lists list }
{
    let n = list + lists + lists;
    ws[n] = 0;
}

// Empties every list, whatever the words were.
pub fn clear(ws: &mut [u32], lists: usize)
    requires { lists + lists + lists ≤ length ws.old }
    ensures { Cleared ws.old ws.new lists lists }
{
    ws[2 * lists..3 * lists].fill(0);
}
