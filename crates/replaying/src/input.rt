// Standard input read in pieces, its lines answered, the answers written out.
ghost use Rattle.std.specs.Prelude.{◌≡◌, ◌+◌, ◌*◌, ◌≤◌, length};
ghost use Rattle.replaying.specs.Calls.{Sound};
ghost use Rattle.replaying.specs.Said.{Room, Said, Answers, told_line};
ghost use Rattle.script.specs.Puts.{Wrote};

use super::calls::make;
use super::{LINE, LIST, OUT, Told, WORDS};
use script::Call;
use std::io::{Print, Read, Stdout};

// Answers that have grown to this many bytes are written out.
const FULL: usize = 65536;

// A read takes at most this many bytes.
const PIECE: usize = 4096;

// What is under way: how many bytes of a line have been read, how many bytes of answers are not written out yet, whether there may be more
// to read, and whether a read or a write has failed. The line and the answers stand in arrays that are lent, and `used` and `at` say how
// much of each is filled: so script's `keep` and `put_reply` take them, and a vector would be taken apart for each of these calls. The three flags are no enum:
// a write may fail after the last read or before it, and both may fail.
#[derive(Clone, Copy)]
struct Progress {
    used: usize,
    at: usize,
    open: bool,
    unread: bool,
    unwritten: bool,
}

// The line that tells an answer, with its words from the start of the list.
fn put_told(out: &mut [u8], at: usize, told: Told, list: &[u32]) -> usize
    requires { at + 11 * length list.now + 43 ≤ length out.old }
    ensures { Wrote out.old at (told_line told list.now) result out.new }
{
    let n = told.words.min(list.len());
    script::put_reply(out, at, told.reply, &list[..n])
}

impl Progress {
    // Writes the answers out. What a failed write loses is told at the end.
    fn flush(&mut self, to: Stdout, out: &[u8])
        ensures { self.new.at ≡ 0 }
    {
        let n = self.at.min(out.len());
        if to.write_all(&out[..n]).is_err() {
            self.open = false;
            self.unwritten = true;
        }
        self.at = 0;
    }

    // Answers that have grown long are written out.
    fn make_room(&mut self, to: Stdout, out: &[u8])
        ensures { Room self.old.at self.new.at }
    {
        if FULL < self.at {
            self.flush(to, out);
        }
    }

    // The answer behind those that stand there.
    fn say(&mut self, to: Stdout, out: &mut [u8; OUT], told: Told, list: &[u32; LIST])
        ensures { Said out.old self.old.at told list.now self.new.at out.new }
    {
        self.make_room(to, out);
        self.at = put_told(out, self.at, told, list);
    }
}

// The arrays that the program lends, and how far the script is answered in them.
#[derive(Drop)]
struct Replay<'a> {
    ws: &'a mut [u32; WORDS],
    list: &'a mut [u32; LIST],
    line: &'a mut [u8; LINE],
    out: &'a mut [u8; OUT],
    progress: Progress,
}

impl<'a> Replay<'a> {
    // A call made, and its answer said. Words and list are lent on by variables, since the check covers no two such loans from fields in one call.
    fn answer(&mut self, to: Stdout, call: Call)
        requires { Sound call }
        ensures { Answers call
            self.old.ws.now self.old.list.now self.old.out.now self.old.progress.at
            self.new.ws.now self.new.list.now self.new.out.now self.new.progress.at }
    {
        let ws = &mut *self.ws;
        let list = &mut *self.list;
        let told = make(ws, list, call);
        self.progress.say(to, self.out, told, self.list);
    }

    // One byte: kept, or the answer to a whole line.
    fn take(&mut self, to: Stdout, b: u8) {
        let used = self.progress.used.min(LINE);
        if b != b'\n' {
            self.progress.used = script::keep(self.line, used, b);
            return;
        }
        let call = script::parse(&self.line[..used]);
        self.progress.used = 0;
        self.answer(to, call);
    }

    // Reads once, takes what came, and writes the answers out, so that someone who types sees them.
    fn turn(&mut self, rt: HostRuntime) {
        let mut piece = [0u8; PIECE];
        match rt.stdin().read(&mut piece) {
            Ok(0) => self.progress.open = false,
            Ok(n) => {
                let to = rt.stdout();
                for b in &piece[..n] {
                    self.take(to, *b);
                }
                self.progress.flush(to, self.out);
            }
            Err(_) => {
                self.progress.open = false;
                self.progress.unread = true;
            }
        }
    }
}

// What went wrong with the input or the output, on standard error; the program ends with status 0 all the same. That such a line can't be
// written is told nowhere.
fn warn(rt: HostRuntime, p: Progress) {
    if p.unread {
        let _ = eprintln!(rt; "replay: standard input could not be read to its end");
    }
    if p.unwritten {
        let _ = eprintln!(rt; "replay: standard output did not take all answers");
    }
}

// All of the input; its last line need not end with a line feed. Each turn reads once; they are counted, since every loop is proved to end.
pub fn run(
    rt: HostRuntime,
    ws: &mut [u32; WORDS],
    list: &mut [u32; LIST],
    line: &mut [u8; LINE],
    out: &mut [u8; OUT],
) {
    let progress = Progress {
        used: 0,
        at: 0,
        open: true,
        unread: false,
        unwritten: false,
    };
    let mut replay = Replay {
        ws,
        list,
        line,
        out,
        progress,
    };
    for _ in 0..u64::MAX {
        if !replay.progress.open {
            break;
        }
        replay.turn(rt);
    }
    if 0 < replay.progress.used {
        replay.take(rt.stdout(), b'\n');
    }
    let mut progress = replay.progress;
    progress.flush(rt.stdout(), replay.out);
    warn(rt, progress);
}
