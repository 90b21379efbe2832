// Document 01's questions, in the order in which they are put to a call.
#![tactic(auto)]

ghost use Rattle.std.specs.Prelude.{◌≡◌};
ghost use Rattle.questions.specs.Refusals.{number_of};

use std::fmt;

/// The first question that a call failed.
#[derive(Clone, Copy, Debug, PartialEq, Eq)]
pub enum Refusal {
    /// The state, the store or the output is not as it must be.
    BadState = 1,
    /// The lengths do not fill the call, or a spare bit is not zero.
    Unfilled = 2,
    /// The tag is not known.
    UnknownTag = 3,
    /// There was no start.
    NotStarted = 4,
    /// A value is out of range.
    OutOfRange = 5,
    /// The receipt is taken.
    ReceiptTaken = 6,
    /// No row is free.
    NoRow = 7,
    /// There is no place in the queue, or no room in the lent bytes.
    NoRoom = 8,
    /// The frame has fewer than four bits.
    ShortFrame = 9,
    /// The frame's type is none of the basic link's.
    OtherType = 10,
    /// The frame's header is cut short.
    ShortHeader = 11,
    /// The check is not right.
    WrongCheck = 12,
    /// All acknowledgements that may be due are due.
    AcksFull = 13,
    /// The receipt is not Transmitted, or no acknowledgement is expected.
    NotAwaiting = 14,
    /// The receipt is not Pending, or its message was not submitted.
    NotPending = 15,
    /// The receipt is not taken, its message is held, or it is not final.
    NotFinal = 16,
}

impl From<Refusal> for u8 {
    ghost from_gives = { λ r n. n ≡ number_of r };

    fn from(r: Refusal) -> u8 {
        r as u8
    }
}

impl fmt::Display for Refusal {
    fn fmt<W: fmt::Write>(&self, f: &mut fmt::Formatter<W>) -> fmt::Result {
        write!(f, "refused ({})", u8::from(*self))
    }
}
