// Receipts, by the methods of TxReceipt.
ghost use Rattle.std.specs.Prelude.{◌≡◌};
ghost use Rattle.tx_receipt.specs.States.{is, at_least, final};
ghost use Rattle.tx_receipt.specs.Marks.{transmitted, discarded, acknowledged, lost, reset, marked, answer};
ghost use Rattle.leaf_exports.specs.Receipts.{receipt_of, to_receipt, answer_of};

use questions::Refusal;
use tx_receipt::{TxReceipt, TxState};

/// A number, and a receipt.
#[repr(C)]
#[derive(Clone, Copy)]
pub struct ReceiptAnswer {
    /// Document 01's number, 0 where it is accepted.
    pub number: u8,
    /// Is an acknowledgement expected?
    pub expects_ack: bool,
    /// The state's number, 0 to 4.
    pub state: u8,
}

/// mark_transmitted.
#[unsafe(no_mangle)]
pub extern "C" fn leaf_mark_transmitted(expects_ack: bool, state: u8) -> ReceiptAnswer
    ensures { result ≡ answer_of (marked transmitted (receipt_of expects_ack state)) }
{
    let receipt = receipt_of(expects_ack, state);
    ReceiptAnswer::of(receipt, receipt.mark_transmitted())
}

/// mark_discarded.
#[unsafe(no_mangle)]
pub extern "C" fn leaf_mark_discarded(expects_ack: bool, state: u8) -> ReceiptAnswer
    ensures { result ≡ answer_of (marked discarded (receipt_of expects_ack state)) }
{
    let receipt = receipt_of(expects_ack, state);
    ReceiptAnswer::of(receipt, receipt.mark_discarded())
}

/// mark_acknowledged.
#[unsafe(no_mangle)]
pub extern "C" fn leaf_mark_acknowledged(expects_ack: bool, state: u8) -> ReceiptAnswer
    ensures { result ≡ answer_of (marked acknowledged (receipt_of expects_ack state)) }
{
    let receipt = receipt_of(expects_ack, state);
    ReceiptAnswer::of(receipt, receipt.mark_acknowledged())
}

/// mark_lost.
#[unsafe(no_mangle)]
pub extern "C" fn leaf_mark_lost(expects_ack: bool, state: u8) -> ReceiptAnswer
    ensures { result ≡ answer_of (marked lost (receipt_of expects_ack state)) }
{
    let receipt = receipt_of(expects_ack, state);
    ReceiptAnswer::of(receipt, receipt.mark_lost())
}

/// reset.
#[unsafe(no_mangle)]
pub extern "C" fn leaf_reset(expects_ack: bool, state: u8) -> ReceiptAnswer
    ensures { result ≡ answer_of (marked reset (receipt_of expects_ack state)) }
{
    ReceiptAnswer::numbered(0, receipt_of(expects_ack, state).reset())
}

/// is_discarded.
#[unsafe(no_mangle)]
pub extern "C" fn leaf_is_discarded(expects_ack: bool, state: u8) -> bool
    ensures { result ≡ is TxState.Discarded (receipt_of expects_ack state) }
{
    receipt_of(expects_ack, state).is_discarded()
}

/// is_transmitted.
#[unsafe(no_mangle)]
pub extern "C" fn leaf_is_transmitted(expects_ack: bool, state: u8) -> bool
    ensures { result ≡ at_least TxState.Transmitted (receipt_of expects_ack state) }
{
    receipt_of(expects_ack, state).is_transmitted()
}

/// is_acknowledged.
#[unsafe(no_mangle)]
pub extern "C" fn leaf_is_acknowledged(expects_ack: bool, state: u8) -> bool
    ensures { result ≡ is TxState.Acknowledged (receipt_of expects_ack state) }
{
    receipt_of(expects_ack, state).is_acknowledged()
}

/// is_in_final_state.
#[unsafe(no_mangle)]
pub extern "C" fn leaf_is_in_final_state(expects_ack: bool, state: u8) -> bool
    ensures { result ≡ final (receipt_of expects_ack state) }
{
    receipt_of(expects_ack, state).is_in_final_state()
}

// The receipt that a caller names.
fn receipt_of(expects_ack: bool, state: u8) -> TxReceipt
    ensures { result ≡ receipt_of expects_ack state }
{
    TxReceipt {
        expects_ack,
        state: TxState::from(state),
    }
}

impl ReceiptAnswer {
    // A number and a receipt.
    fn numbered(number: u8, receipt: TxReceipt) -> ReceiptAnswer
        ensures { result ≡ to_receipt number receipt }
    {
        ReceiptAnswer {
            number,
            expects_ack: receipt.expects_ack,
            state: receipt.state.into(),
        }
    }

    // What a mark on a receipt answers: where it is refused, the receipt as it was.
    fn of(receipt: TxReceipt, marked: Result<TxReceipt, Refusal>) -> ReceiptAnswer
        ensures { result ≡ answer_of (answer receipt marked) }
    {
        match marked {
            Ok(after) => ReceiptAnswer::numbered(0, after),
            Err(r) => ReceiptAnswer::numbered(r.into(), receipt),
        }
    }
}
