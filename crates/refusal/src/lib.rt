// The refusals of the entries, each with its number; and the bytes that a message, a policy and a payload may hold.
#![tactic(auto)]

pub mod input;
pub mod limits;

ghost use Rattle.std.specs.Prelude.{◌≡◌};
ghost use Rattle.refusal.specs.Refusal as R;

// Why a call is refused, by the word and with the number that the table of refusals has for it.
#[derive(Clone, Copy)]
pub enum Refusal {
    // short bench
    ShortBuffer = 1,
    // long
    TooLong = 2,
    // foreign
    ForeignByte = 3,
    // headless
    BadHeader = 4,
    // bad segment
    BadSegment = 5,
    // crowded
    TooMany = 6,
    // bad action
    BadAction = 7,
    // bad path
    BadPath = 8,
    // bad directive
    BadDirective = 9,
    // learnt full
    TooMuchLearnt = 10,
    // swollen
    MessageTooLong = 11,
    // report full
    ReportTooLong = 12,
    // withheld
    Withheld = 13,
    // no such built-in
    NoSuchBuiltin = 14,
    // day count missing, unreadable or out of range
    BadDayCount = 15,
}

// The number that a caller gets for a refusal.
#[tactic(auto, unfolding(crate::specs::Refusal::number))]
pub fn number(refusal: Refusal) -> u32
    ensures { result ≡ R.number refusal }
{
    refusal as u32
}

// A refusal, and the number of the policy's line that is at fault, 0 where none is.
#[derive(Clone, Copy)]
pub struct Refused {
    pub refusal: Refusal,
    pub line: usize,
}

#[tactic(auto, unfolding(crate::specs::Refusal::without_line))]
impl From<Refusal> for Refused {
    ghost from_gives = { λ refusal r. r ≡ R.without_line refusal };

    fn from(refusal: Refusal) -> Refused {
        Refused { refusal, line: 0 }
    }
}
