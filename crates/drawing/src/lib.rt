// What the programs of random calls share: numbers that look random, the same in every run, from a linear congruential generator;
// and how many words a call changed.
#![tactic(auto)]

ghost use Rattle.std.specs.Prelude.{Some, ◌≡◌, ◌+◌, ◌<◌, ◌≤◌, drop, length, take, ◌%◌};
ghost use Rattle.std.specs.List.{slice_range};
ghost use Rattle.drawing.specs.Changed.{differing};
ghost use Rattle.drawing.specs.Drawn.{drawn, following, upper_half};

// The generator's next number: a word, of which the upper half is used where a small number is asked for.
#[tactic(auto, unfolding(crate::specs::Drawn::following))]
pub fn next(x: u64) -> u64
    ensures few { result < 4294967296 }
    ensures exact { result ≡ following x }
{
    (x % 4294967296 * 1664525 + 1013904223) % 4294967296
}

// The generator's numbers from one on, that one left out. They do not end.
#[derive(Clone, Drop)]
pub struct Draws(u64);

impl Draws {
    pub fn new(seed: u64) -> Draws
        ensures { result.0 ≡ seed }
    {
        Draws(seed)
    }
}

impl Iterator for Draws {
    type Item = u64;

    ghost next_gives = { λ old r new. (r ≡ Some new.0) × (new.0 < 4294967296) × (new.0 ≡ following old.0) };

    fn next(&mut self) -> Option<u64> {
        self.0 = next(self.0);
        Some(self.0)
    }
}

// The upper half of a number of the generator.
#[tactic(auto, unfolding(crate::specs::Drawn::upper_half))]
fn upper(x: u64) -> u32
    ensures { result ≡ upper_half x }
{
    (x % 4294967296 / 65536) as u32
}

// A number below `n` out of a number of the generator.
pub fn below(x: u64, n: u32) -> u32
    requires { 1 ≤ n }
    ensures few { result < n }
    ensures exact { result ≡ upper_half x % n }
{
    upper(x) % n
}

// A number below `n` out of a seed. Another `salt` gives another number: the seed is the trial's, and the salt the place in the program that draws, so that
// they stay two.
#[tactic(auto, unfolding(crate::specs::Drawn::drawn))]
pub fn draw(seed: u64, salt: u64, n: usize) -> usize
    requires { (1 ≤ n) × (salt < 100) }
    ensures few { result < n }
    ensures exact { result ≡ drawn seed salt n }
{
    upper(next(next(seed) + salt * 40503)) as usize % n
}

// The same as a word.
pub fn draw_word(seed: u64, salt: u64, n: usize) -> u32
    requires { (1 ≤ n) × (n ≤ 100) × (salt < 100) }
    ensures few { result < n }
    ensures exact { result ≡ drawn seed salt n }
{
    draw(seed, salt, n) as u32
}

// How many of two slices' words differ.
pub fn changed(old: &[u32], new: &[u32]) -> u64
    ensures exact { result ≡ differing old.now new.now }
    ensures few { result ≤ length old.now }
{
    old.iter().zip(new).filter(|(a, b)| a != b).count() as u64
}

// How many words of two slices differ in the stretch that a call was lent, and how many outside it.
#[derive(Clone, Copy)]
pub struct Change {
    pub inside: u64,
    pub outside: u64,
}

impl Change {
    // The stretch goes from `lo` to `hi`.
    pub fn of_part(old: &[u32], new: &[u32], lo: usize, hi: usize) -> Change
        requires { (lo ≤ hi) × (hi ≤ length old.now) × (hi ≤ length new.now) }
        ensures inside { result.inside ≡ differing (slice_range old.now lo hi) (slice_range new.now lo hi) }
        ensures outside { result.outside ≡ differing (take lo old.now) (take lo new.now) + differing (drop hi old.now) (drop hi new.now) }
    {
        let before = changed(&old[..lo], &new[..lo]);
        let behind = changed(&old[hi..], &new[hi..]);
        Change {
            inside: changed(&old[lo..hi], &new[lo..hi]),
            outside: before + behind,
        }
    }
}
