// The receipts of a state, by their numbers.
ghost use Rattle.std.specs.Prelude.{◌≡◌, ◌&&◌, ◌<◌};
ghost use Rattle.questions.specs.Outcome.{number};
ghost use Rattle.questions.specs.Refusals.{outcome};
ghost use Rattle.tx_receipt.specs.Marks.{acknowledged, allowed, answer, marked};
ghost use Rattle.llc_state.specs.Receipts.{receipt_of, receipt_in, taken_by, requested_receipt, marked_place, place_of, mark_receipt, take_receipt, free_receipt};

use crate::{ReceiptPlace, State};
use questions::Refusal;
use tx_receipt::{Mark, TxReceipt, TxState, lent};

// The receipt of a request: one of acknowledged service, or of unacknowledged service.
fn requested(expects_ack: bool) -> TxReceipt
    ensures { result ≡ requested_receipt expects_ack }
{
    if expects_ack {
        TxReceipt::new()
    } else {
        TxReceipt::new_unacked()
    }
}

// What a mark by value answers, and the receipt after it: where it is refused the receipt is as it was.
fn by_value(tx: TxReceipt, made: Result<TxReceipt, Refusal>) -> (Result<(), Refusal>, TxReceipt)
    ensures { record { number = number (outcome result.0); receipt = result.1 } ≡ answer tx made }
{
    (made.and(Ok(())), made.unwrap_or(tx))
}

// What a mark answers, and the receipt after it.
fn marked(mut tx: TxReceipt, mark: Mark) -> (Result<(), Refusal>, TxReceipt)
    ensures { record { number = number (outcome result.0); receipt = result.1 } ≡ marked mark tx }
{
    match mark {
        Mark::Transmitted => by_value(tx, tx.mark_transmitted()),
        Mark::Discarded => by_value(tx, tx.mark_discarded()),
        Mark::Acknowledged => (lent::acknowledged(&mut tx), tx),
        Mark::Lost => (lent::lost(&mut tx), tx),
        Mark::Reset => (lent::reset(&mut tx), tx),
    }
}

impl ReceiptPlace {
    /// The receipt of the place; of one that is not taken what was left there.
    pub fn receipt(self) -> TxReceipt
        ensures { result ≡ receipt_of self }
    {
        TxReceipt {
            expects_ack: self.expects_ack,
            state: TxState::from(self.state),
        }
    }

    /// The receipt of the place, if it is taken.
    pub fn receipt_if_taken(self) -> Option<TxReceipt>
        ensures { result ≡ receipt_in self }
    {
        self.taken.then_some(self.receipt())
    }

    // The place that a receipt has taken.
    fn taken_by(receipt: TxReceipt) -> ReceiptPlace
        ensures { result ≡ taken_by receipt }
    {
        ReceiptPlace {
            taken: true,
            expects_ack: receipt.expects_ack,
            state: u8::from(receipt.state),
        }
    }

    /// The place with its receipt marked, if it is taken. A mark that is refused leaves the receipt as it was.
    pub fn marked(self, mark: Mark) -> ReceiptPlace
        ensures { result ≡ marked_place mark self }
    {
        self.receipt_if_taken()
            .map_or(self, |tx| ReceiptPlace::taken_by(marked(tx, mark).1))
    }

    /// Is the place taken, and may its receipt be marked as acknowledged?
    pub fn is_awaiting(self) -> bool
        ensures { result ≡ self.taken && allowed acknowledged (receipt_of self) }
    {
        self.receipt_if_taken()
            .is_some_and(|tx| marked(tx, Mark::Acknowledged).0.is_ok())
    }
}

impl State {
    /// The place of a receipt's number.
    pub fn receipt_place(&self, receipt: u8) -> ReceiptPlace
        requires { receipt < 128 }
        ensures { result ≡ place_of self.now.receipts receipt }
    {
        let places = &self.receipts;
        places[receipt as usize]
    }

    /// Marks the receipt of a place, if the place is taken.
    pub fn mark_receipt(&mut self, receipt: u8, mark: Mark)
        requires { receipt < 128 }
        ensures { self.new ≡ mark_receipt self.old receipt mark }
    {
        self.receipts[receipt as usize] = self.receipt_place(receipt).marked(mark);
    }

    /// Lets a place be taken by a pending receipt.
    pub fn take_receipt(&mut self, receipt: u8, expects_ack: bool)
        requires { receipt < 128 }
        ensures { self.new ≡ take_receipt self.old receipt expects_ack }
    {
        self.receipts[receipt as usize] = ReceiptPlace::taken_by(requested(expects_ack));
    }

    /// Frees a place.
    pub fn free_receipt(&mut self, receipt: u8)
        requires { receipt < 128 }
        ensures { self.new ≡ free_receipt self.old receipt }
    {
        self.receipts[receipt as usize] = ReceiptPlace::empty();
    }
}
