// Why a call is refused, with the outcome's number (docs/RULES.md, O1 to O16).
ghost use Rattle.std.specs.Prelude.{◌≡◌};
ghost use Rattle.rules.specs.Refusals.{number_of, refusal_of};

use format::judging::Flaw;

// Every outcome but 0 and 8, which write the reply: a refused call changes nothing.
#[derive(Clone, Copy, Debug, PartialEq, Eq)]
pub enum Refusal {
    BadLength = 1,
    Malformed = 2,
    BadRequest = 3,
    BeforeStart = 4,
    WrongEnabler = 5,
    ShortReply = 7,
    NoLease = 9,
    LeasesFull = 10,
    NoRoom = 11,
    AlreadyContainer = 12,
    TooManyStretches = 13,
    BadList = 16,
}

impl Refusal {
    // The outcome's number.
    pub fn number(self) -> u32
        ensures { result ≡ number_of self }
    {
        self as u32
    }
}

impl From<Flaw> for Refusal {
    ghost from_gives = { λ flaw refusal. refusal ≡ refusal_of flaw };

    fn from(flaw: Flaw) -> Refusal {
        match flaw {
            Flaw::BadLength => Refusal::BadLength,
            Flaw::Malformed => Refusal::Malformed,
        }
    }
}
