// What a call answered, as the struct that C reads.
ghost use Rattle.std.specs.Prelude.{List, [], ◌∷◌, ◌≡◌, ℕ};
ghost use Rattle.egraph.specs.Answers.{flag, found, no_by, number_of, says, yes_with};
ghost use Rattle.capi.specs.Spoken.{spoken};

use super::Reply;
use egraph::Refusal;
use extract::Form;
use language::Id;

// What a call may answer with, told as its values; no answer to C has more than two.
pub trait Values {
    ghost values: { Self → List ℕ };

    fn told(self) -> Reply
        ensures { result ≡ spoken (yes_with (values self)) };
}

// Success with one value, and with two; success without a value is the struct's default.
fn one(v: u64) -> Reply
    ensures { result ≡ spoken (yes_with (v ∷ [])) }
{
    Reply {
        count: 1,
        first: v,
        ..Reply::default()
    }
}

fn two(v: u64, w: u64) -> Reply
    ensures { result ≡ spoken (yes_with (v ∷ w ∷ [])) }
{
    Reply {
        count: 2,
        first: v,
        second: w,
        ..Reply::default()
    }
}

impl Values for () {
    ghost values = { λ _. [] };

    fn told(self) -> Reply {
        Reply::default()
    }
}

impl Values for u64 {
    ghost values = { λ v. v ∷ [] };

    fn told(self) -> Reply {
        one(self)
    }
}

impl Values for usize {
    ghost values = { λ k. k ∷ [] };

    fn told(self) -> Reply {
        one(self as u64)
    }
}

impl Values for bool {
    ghost values = { flag };

    fn told(self) -> Reply {
        one(u64::from(self))
    }
}

impl Values for Id {
    ghost values = { λ i. i.0 ∷ [] };

    fn told(self) -> Reply {
        one(u64::from(self.0))
    }
}

// Found nothing is success without a value.
impl Values for Option<Id> {
    ghost values = { found };

    fn told(self) -> Reply {
        match self {
            Some(id) => id.told(),
            None => Reply::default(),
        }
    }
}

impl Values for Form {
    ghost values = { λ f. f.size ∷ f.words ∷ [] };

    fn told(self) -> Reply {
        two(self.size, self.words as u64)
    }
}

impl From<Refusal> for Reply {
    ghost from_gives = { λ q r. r ≡ spoken (no_by (number_of q)) };

    fn from(why: Refusal) -> Reply {
        Reply {
            number: why.number(),
            ..Reply::default()
        }
    }
}

// An impl of std's `From` for a type of this crate, as replaying has one for its own.
impl<T: Values> From<Result<T, Refusal>> for Reply {
    ghost from_gives = { λ a r. r ≡ spoken (says T.values a) };

    fn from(answer: Result<T, Refusal>) -> Reply {
        match answer {
            Ok(value) => value.told(),
            Err(why) => Reply::from(why),
        }
    }
}
