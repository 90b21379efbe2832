// What becomes of a message that was handed down, by its receipt; and a receipt given back.
ghost use Rattle.std.specs.Prelude.{ℕ, ◌<◌, ◌≡◌, true, List};
ghost use Rattle.llc_state.specs.Ranges.{state_in_range};
ghost use Rattle.llc_steps.specs.Answers.{WithAny, answered, done};
ghost use Rattle.llc_steps.specs.Calls.{on_report, on_release};

use llc_queues::{holds, waits};
use llc_state::State;
use questions::Refusal;
use tx_receipt::{Mark, TxState};

/// A report: 1 transmitted, 2 discarded.
#[tactic(auto, using(llc_state::proofs::Counts::counts))]
pub fn rx_tma_report_ind(state: &mut State, receipt: u8, how: u8) -> Result<(), Refusal>
    requires state_value { state_in_range state.old ≡ true }
    requires receipt_bound { receipt < 128 }
    ensures { WithAny (answered state.new (done result)) state.old (λ (store : List ℕ). on_report receipt how state.old store) }
{
    let tx = state
        .receipt_place(receipt)
        .receipt_if_taken()
        .ok_or(Refusal::NotPending)?;
    if tx.get_state() != TxState::Pending || waits(state, receipt) {
        return Err(Refusal::NotPending);
    }
    let mark = if how == 1 {
        Mark::Transmitted
    } else {
        Mark::Discarded
    };
    state.mark_receipt(receipt, mark);
    Ok(())
}

/// A release: a receipt that is final, and whose message is no longer held, is free again.
#[tactic(auto, using(llc_state::proofs::Counts::counts))]
pub fn release(state: &mut State, receipt: u8) -> Result<(), Refusal>
    requires state_value { state_in_range state.old ≡ true }
    requires receipt_bound { receipt < 128 }
    ensures { WithAny (answered state.new (done result)) state.old (λ (store : List ℕ). on_release receipt state.old store) }
{
    let tx = state
        .receipt_place(receipt)
        .receipt_if_taken()
        .ok_or(Refusal::NotFinal)?;
    if !tx.is_in_final_state() || holds(state, receipt) {
        return Err(Refusal::NotFinal);
    }
    state.free_receipt(receipt);
    Ok(())
}
