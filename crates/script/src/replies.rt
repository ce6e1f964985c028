// The line that answers a call, put into a slice at a place. Each function answers the place behind what it has put, and leaves all else of the slice as it
// was. Slice and place stay two parameters, as `put_reply` has them (docs/PROMISES.md): a struct of both may be given another loan, so that each of these would
// say too that it kept its own. They are no `Display`: what is promised is the bytes of a slice that is lent, which no `fmt` writes.
ghost use Rattle.std.specs.Prelude.{◌∷◌, ◌++◌, ◌≡◌, ◌+◌, ◌*◌, ◌≤◌, ◌<◌, ◌^◌, length, decimal};
ghost use Rattle.script.specs.Reply.{fed, word, words as words_of, reply_line};
ghost use Rattle.script.specs.Puts.{Wrote};

use super::Reply;

// The bytes of src.
fn put(out: &mut [u8], at: usize, src: &[u8]) -> usize
    requires { at + length src.now ≤ length out.old }
    ensures { Wrote out.old at src.now result out.new }
{
    let next = at + src.len();
    out[at..next].copy_from_slice(src);
    next
}

// A number in decimal.
fn put_number(out: &mut [u8], at: usize, n: u64) -> usize
    requires { at + 20 ≤ length out.old }
    ensures { Wrote out.old at (decimal n) result out.new }
{
    put(out, at, itoa::Buffer::new().format(n).as_bytes())
}

// A space and a number.
fn put_word(out: &mut [u8], at: usize, n: u64) -> usize
    requires { at + 21 ≤ length out.old }
    ensures wrote { Wrote out.old at (word n) result out.new }
    ensures upper_bound { (result ≤ at + 21) × (n < 2 ^ 32 → result ≤ at + 11) }
{
    let next = put(out, at, b" ");
    put_number(out, next, n)
}

// A space and a number for each word.
fn put_words(out: &mut [u8], at: usize, words: &[u32]) -> usize
    requires { at + 11 * length words.now + 21 ≤ length out.old }
    ensures wrote { Wrote out.old at (words_of words.now) result out.new }
    ensures upper_bound { result ≤ at + 11 * length words.now }
{
    let mut next = at;
    for w in words {
        next = put_word(out, next, u64::from(*w));
    }
    next
}

// What stands in front, one number, and the end of the line.
fn put_one(out: &mut [u8], at: usize, front: &[u8], n: u64) -> usize
    requires { at + length front.now + 22 ≤ length out.old }
    ensures { Wrote out.old at (fed (front.now ++ word n)) result out.new }
{
    let a = put(out, at, front);
    let b = put_word(out, a, n);
    put(out, b, b"\n")
}

// The words of a list.
fn put_list(out: &mut [u8], at: usize, words: &[u32]) -> usize
    requires { at + 11 * length words.now + 22 ≤ length out.old }
    ensures { Wrote out.old at (fed (48 ∷ words_of words.now)) result out.new }
{
    let a = put(out, at, b"0");
    let b = put_words(out, a, words);
    put(out, b, b"\n")
}

// A size, and the words of a form.
fn put_form(out: &mut [u8], at: usize, size: u64, words: &[u32]) -> usize
    requires { at + 11 * length words.now + 43 ≤ length out.old }
    ensures { Wrote out.old at (48 ∷ (word size ++ fed (words_of words.now))) result out.new }
{
    let a = put(out, at, b"0");
    let b = put_word(out, a, size);
    let c = put_words(out, b, words);
    put(out, c, b"\n")
}

// The line of a reply, whose list or form are these words.
pub fn put_reply(out: &mut [u8], at: usize, reply: Reply, words: &[u32]) -> usize
    requires { at + 11 * length words.now + 43 ≤ length out.old }
    ensures { Wrote out.old at (reply_line reply words.now) result out.new }
{
    match reply {
        Reply::Done => put(out, at, b"0\n"),
        Reply::Number(k) => put_one(out, at, b"0", k),
        Reply::Yes => put(out, at, b"0 yes\n"),
        Reply::No => put(out, at, b"0 no\n"),
        Reply::None => put(out, at, b"0 none\n"),
        Reply::Words => put_list(out, at, words),
        Reply::Sized(size) => put_form(out, at, size, words),
        Reply::Refused(r) => put_one(out, at, b"no", u64::from(r)),
        Reply::Bad => put(out, at, b"?\n"),
        Reply::Skip => at,
    }
}
