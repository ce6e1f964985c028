// What a call answered as a reply.
ghost use Rattle.std.specs.Prelude.{◌≡◌};
ghost use Rattle.replaying.specs.Replies.{alone, count_tells, flag_tells, form_tells, found_tells, id_tells, list_tells, refusal_reply, setup_tells, told};
ghost use Rattle.replaying.specs.declared.Told.{Told};

use super::Told;
use egraph::Refusal;
use extract::Form;
use language::Id;
use script::Reply;

// How many words of the list a call has written.
#[derive(Clone, Copy)]
pub struct Words(pub usize);

// What a call may answer with.
pub trait Tells {
    ghost tells: { Self → Told };

    fn tell(self) -> Told
        ensures { result ≡ tells self };
}

// A reply without words.
pub fn plain(reply: Reply) -> Told
    ensures { result ≡ alone reply }
{
    Told { reply, words: 0 }
}

impl Tells for () {
    ghost tells = { setup_tells };

    fn tell(self) -> Told {
        plain(Reply::Done)
    }
}

impl Tells for Id {
    ghost tells = { id_tells };

    fn tell(self) -> Told {
        plain(Reply::Number(u64::from(self.0)))
    }
}

impl Tells for Option<Id> {
    ghost tells = { found_tells };

    fn tell(self) -> Told {
        match self {
            Some(id) => id.tell(),
            None => plain(Reply::None),
        }
    }
}

impl Tells for bool {
    ghost tells = { flag_tells };

    fn tell(self) -> Told {
        plain(if self { Reply::Yes } else { Reply::No })
    }
}

impl Tells for u64 {
    ghost tells = { count_tells };

    fn tell(self) -> Told {
        plain(Reply::Number(self))
    }
}

impl Tells for usize {
    ghost tells = { count_tells };

    fn tell(self) -> Told {
        plain(Reply::Number(self as u64))
    }
}

impl Tells for Words {
    ghost tells = { λ k. list_tells k.0 };

    fn tell(self) -> Told {
        Told {
            reply: Reply::Words,
            words: self.0,
        }
    }
}

impl Tells for Form {
    ghost tells = { form_tells };

    fn tell(self) -> Told {
        Told {
            reply: Reply::Sized(self.size),
            words: self.words,
        }
    }
}

impl From<Refusal> for Told {
    ghost from_gives = { λ q r. r ≡ alone (refusal_reply q) };

    fn from(why: Refusal) -> Told {
        plain(Reply::Refused(why.number()))
    }
}

// An impl of std's `From` for a type of this crate, as capi has one for its own.
impl<T: Tells> From<Result<T, Refusal>> for Told {
    ghost from_gives = { λ a r. r ≡ told T.tells a };

    fn from(answer: Result<T, Refusal>) -> Told {
        match answer {
            Ok(value) => value.tell(),
            Err(why) => Told::from(why),
        }
    }
}
