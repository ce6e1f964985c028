// What a whole line says.
ghost use Rattle.std.specs.Prelude.{◌≡◌, ◌≤◌, length};
ghost use Rattle.std.specs.Option.{option_map_or};
ghost use Rattle.script.specs.Fields.{fields_of};
ghost use Rattle.script.specs.Line.{Says, SaysBare, bad, bare, of_fields, said};
ghost use Rattle.script.specs.Gathered.{Keeps};

use super::fields::number;
use super::verbs::verb_of;
use super::{Call, LONGEST, NUMBERS, Verb};

fn plain(verb: Verb) -> Call
    ensures { (result.verb ≡ verb) × (result.count ≡ 0) }
{
    Call {
        verb,
        count: 0,
        numbers: [0; NUMBERS],
    }
}

// One byte more of a line that is read byte by byte; bytes past the slice's length are passed over. A slice of LONGEST + 1 bytes is enough to know what the
// line says. Slice and `used` are what `keep` takes, a public function that docs/PROMISES.md names: the slice is lent, and `used` says how much of it is
// filled.
pub fn keep(line: &mut [u8], used: usize, b: u8) -> usize
    requires { used ≤ length line.old }
    ensures { Keeps line.old used b result line.new }
{
    if line.len() <= used {
        return used;
    }
    line[used] = b;
    used + 1
}

// A line without the byte-order mark that it may begin with, and without the carriage return that it may end with.
fn bare(line: &[u8]) -> &[u8]
    ensures { result.now ≡ bare line.now }
{
    let line = line.strip_prefix(b"\xef\xbb\xbf").unwrap_or(line);
    line.strip_suffix(b"\r").unwrap_or(line)
}

// The call that a bare line makes: a verb, and as many numbers as it takes.
fn call_of(line: &[u8]) -> Option<Call>
    ensures { of_fields (fields_of line.now) ≡ option_map_or said result bad }
{
    let mut fields = line.split(|b| *b == b' ');
    let shape = verb_of(fields.next()?)?;
    let mut numbers = [0; NUMBERS];
    let mut count = 0;
    for field in fields {
        if count == NUMBERS {
            return None;
        }
        // counted by hand: `count` is part of the answer, and a number too many is refused where it stands
        numbers[count] = number(field)?;
        count += 1;
    }
    if !(shape.least..=shape.most).contains(&count) {
        return None;
    }
    Some(Call {
        verb: shape.verb,
        count,
        numbers,
    })
}

// What a bare line says.
fn parse_bare(line: &[u8]) -> Call
    ensures { SaysBare line.now result }
{
    match line {
        [] | [b'#', ..] => plain(Verb::Skip),
        _ => call_of(line).unwrap_or(plain(Verb::Bad)),
    }
}

// What a line without its line feed says.
pub fn parse(line: &[u8]) -> Call
    ensures { Says line.now result }
{
    if LONGEST < line.len() {
        return plain(Verb::Bad);
    }
    parse_bare(bare(line))
}
