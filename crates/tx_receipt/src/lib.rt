// Transmit receipts by value, from tetra-core's tx_receipt.rs. A mark that the Rust panics on is
// refused, and the receipt stays as it was.
#![tactic(auto)]

ghost use Rattle.std.specs.Prelude.{◌≡◌, Bool, true, false};
ghost use Rattle.tx_receipt.specs.States.{number, numbered, is, at_least, final};
ghost use Rattle.tx_receipt.specs.Marks.{transmitted, discarded, acknowledged, lost, reset, target, allowed, at, answer, marked};

use questions::Refusal;
use std::fmt;

/// The marks that take a receipt lent to them.
pub mod lent;

/// How far the message of a receipt has come.
#[derive(Clone, Copy, Debug, PartialEq, Eq, PartialOrd, Ord)]
pub enum TxState {
    /// The message is queued and not yet sent over the air.
    Pending = 0,
    /// The lower layer had to discard the message.
    Discarded = 1,
    /// The lower layer has sent the message over the air.
    Transmitted = 2,
    /// The message was transmitted and no acknowledgement came.
    Lost = 3,
    /// The remote side has acknowledged receipt.
    Acknowledged = 4,
}

/// A mark on a receipt.
#[derive(Clone, Copy, Debug, PartialEq, Eq)]
pub enum Mark {
    /// Pending to Transmitted: the lower layer has sent the message over the air.
    Transmitted,
    /// Pending to Discarded: the lower layer was too busy to transmit.
    Discarded,
    /// Transmitted to Acknowledged: an acknowledgement came from the remote side.
    Acknowledged,
    /// Transmitted to Lost: no acknowledgement came in time.
    Lost,
    /// Back to Pending from any state, for a message that is sent again.
    Reset,
}

/// A transmit receipt.
#[derive(Clone, Copy, Debug, PartialEq, Eq)]
pub struct TxReceipt {
    /// Is an acknowledgement expected?
    pub expects_ack: bool,
    /// How far the message has come.
    pub state: TxState,
}

impl From<u8> for TxState {
    ghost from_gives = { λ n s. s ≡ numbered n };

    /// The state with a number; Acknowledged for each number from 4 on.
    fn from(v: u8) -> TxState {
        match v {
            0 => TxState::Pending,
            1 => TxState::Discarded,
            2 => TxState::Transmitted,
            3 => TxState::Lost,
            _ => TxState::Acknowledged,
        }
    }
}

impl From<TxState> for u8 {
    ghost from_gives = { λ s n. n ≡ number s };

    /// The number of the state.
    fn from(state: TxState) -> u8 {
        state as u8
    }
}

impl fmt::Display for TxState {
    fn fmt<W: fmt::Write>(&self, f: &mut fmt::Formatter<W>) -> fmt::Result {
        write!(f, "{} {:?}", u8::from(*self), self)
    }
}

impl Mark {
    // The state that the mark leads to.
    fn target(self) -> TxState
        ensures { result ≡ target self }
    {
        match self {
            Mark::Transmitted => TxState::Transmitted,
            Mark::Discarded => TxState::Discarded,
            Mark::Acknowledged => TxState::Acknowledged,
            Mark::Lost => TxState::Lost,
            Mark::Reset => TxState::Pending,
        }
    }
}

impl TxReceipt {
    /// A receipt for acknowledged service.
    pub fn new() -> TxReceipt
        ensures { result ≡ record { expects_ack = true; state = TxState.Pending } }
    {
        TxReceipt {
            expects_ack: true,
            state: TxState::Pending,
        }
    }

    /// A receipt for unacknowledged service.
    pub fn new_unacked() -> TxReceipt
        ensures { result ≡ record { expects_ack = false; state = TxState.Pending } }
    {
        TxReceipt {
            expects_ack: false,
            state: TxState::Pending,
        }
    }

    /// The current state.
    pub fn get_state(self) -> TxState
        ensures { result ≡ self.state }
    {
        self.state
    }

    /// Was the message discarded by the lower layer?
    pub fn is_discarded(self) -> bool
        ensures { result ≡ is TxState.Discarded self }
    {
        self.state == TxState::Discarded
    }

    /// Has the message been sent over the air, or come further?
    pub fn is_transmitted(self) -> bool
        ensures { result ≡ at_least TxState.Transmitted self }
    {
        self.state >= TxState::Transmitted
    }

    /// Has the remote side acknowledged receipt?
    pub fn is_acknowledged(self) -> bool
        ensures { result ≡ is TxState.Acknowledged self }
    {
        self.state == TxState::Acknowledged
    }

    /// Is this the final state for the message?
    pub fn is_in_final_state(self) -> bool
        ensures { result ≡ final self }
    {
        match self.state {
            TxState::Pending => false,
            TxState::Transmitted => !self.expects_ack,
            TxState::Discarded | TxState::Lost | TxState::Acknowledged => true,
        }
    }

    /// May the receipt take a mark?
    pub fn allows(self, mark: Mark) -> bool
        ensures { result ≡ allowed mark self }
    {
        match mark {
            Mark::Transmitted | Mark::Discarded => self.state == TxState::Pending,
            Mark::Acknowledged | Mark::Lost => self.expects_ack
                && self.state == TxState::Transmitted,
            Mark::Reset => true,
        }
    }

    /// The receipt after a mark; a mark that is not allowed is refused, and the receipt is as it was.
    pub fn mark(self, mark: Mark) -> Result<TxReceipt, Refusal>
        ensures { answer self result ≡ marked mark self }
    {
        match mark {
            Mark::Transmitted | Mark::Discarded if !self.allows(mark) => Err(Refusal::NotPending),
            Mark::Acknowledged | Mark::Lost if !self.allows(mark) => Err(Refusal::NotAwaiting),
            _ => Ok(self.at(mark.target())),
        }
    }

    /// Pending to Transmitted: the lower layer has sent the message over the air.
    pub fn mark_transmitted(self) -> Result<TxReceipt, Refusal>
        ensures { answer self result ≡ marked transmitted self }
    {
        self.mark(Mark::Transmitted)
    }

    /// Pending to Discarded: the lower layer was too busy to transmit.
    pub fn mark_discarded(self) -> Result<TxReceipt, Refusal>
        ensures { answer self result ≡ marked discarded self }
    {
        self.mark(Mark::Discarded)
    }

    /// Transmitted to Acknowledged: an acknowledgement came from the remote side.
    pub fn mark_acknowledged(self) -> Result<TxReceipt, Refusal>
        ensures { answer self result ≡ marked acknowledged self }
    {
        self.mark(Mark::Acknowledged)
    }

    /// Transmitted to Lost: no acknowledgement came in time.
    pub fn mark_lost(self) -> Result<TxReceipt, Refusal>
        ensures { answer self result ≡ marked lost self }
    {
        self.mark(Mark::Lost)
    }

    /// Back to Pending from any state, for a message that is sent again.
    pub fn reset(self) -> TxReceipt
        ensures { result ≡ (marked reset self).receipt }
    {
        self.at(TxState::Pending)
    }

    // The receipt in another state.
    fn at(self, state: TxState) -> TxReceipt
        ensures { result ≡ at state self }
    {
        TxReceipt { state, ..self }
    }
}
