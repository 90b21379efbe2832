// A frame that came in: an acknowledgement for it becomes due, its own finishes a message, and its SDU goes up unless it is a repeat.
ghost use Rattle.std.specs.Prelude.{ℕ, ◌≤◌, ◌≡◌, true, List, length};
ghost use Rattle.questions.specs.Outcome.{accepted};
ghost use Rattle.bits.specs.Parts.{bits_of};
ghost use Rattle.llc_pdus.specs.Received.{received};
ghost use Rattle.llc_rule.specs.Limits.{longest_frame, output_bytes};
ghost use Rattle.llc_calls.specs.Decoded.{frame_of};
ghost use Rattle.llc_calls.specs.Ranges.{frame_range};
ghost use Rattle.llc_state.specs.Ranges.{state_in_range};
ghost use Rattle.llc_steps.specs.Answers.{answered, WithAnyStore};
ghost use Rattle.llc_steps.specs.Calls.{on_received};

use crate::acked::{ack_place, process_incoming_ack};
use crate::numbered::{acknowledge, is_repeat, seq_row};
use bits::Part;
use llc_calls::FrameCall;
use llc_pdus::{Pdu, from_bitbuf, sdu_bytes};
use llc_received::put_upward;
use llc_state::State;
use questions::Refusal;

// A frame that was read, with its SDU. All questions come before the first change.
#[tactic(auto, using(llc_received::proofs::SentUp::frame_small))]
fn rx_tma_unitdata_ind_bl(
    state: &mut State,
    out: &mut [u8],
    f: &FrameCall,
    pdu: Pdu,
    sdu: Part,
) -> Result<usize, Refusal>
    requires state_value { state_in_range state.old ≡ true }
    requires output_bytes_in_bounds { output_bytes ≤ length out.old }
    requires f_value { frame_range f.now ≡ true }
    requires sdu_short { sdu.len ≤ longest_frame }
    requires started_value { state.old.started ≡ true }
    ensures { WithAnyStore (answered state.new result) out.new state.old out.old (λ (store : List ℕ). on_received (frame_of f.now) (accepted (record { header = pdu; sdu = bits_of sdu.entry })) state.old store) }
{
    let heard = seq_row(state, f, pdu.ns())?;
    let ack = ack_place(state, f, pdu.nr())?;
    let len = if is_repeat(state, f, heard) {
        0
    } else {
        put_upward(out, 0, f, pdu, sdu)
    };
    acknowledge(state, f, heard);
    process_incoming_ack(state, ack);
    Ok(len)
}

/// A frame: what goes up of it is taken from the part that the reader hands back.
pub fn rx_tma_unitdata_ind(
    state: &mut State,
    out: &mut [u8],
    f: &FrameCall,
) -> Result<usize, Refusal>
    requires state_value { state_in_range state.old ≡ true }
    requires output_bytes_in_bounds { output_bytes ≤ length out.old }
    requires f_value { frame_range f.now ≡ true }
    requires pdu_place { f.now.pdu.place ≡ 0 }
    requires started_value { state.old.started ≡ true }
    ensures { WithAnyStore (answered state.new result) out.new state.old out.old (λ (store : List ℕ). on_received (frame_of f.now) (received (frame_of f.now).pdu) state.old store) }
{
    let frame = f.pdu.bytes;
    let (pdu, sdu) = from_bitbuf(frame, f.pdu.len)?;
    let part = Part {
        bytes: sdu_bytes(frame, sdu)?,
        place: sdu.place,
        len: sdu.len,
    };
    rx_tma_unitdata_ind_bl(state, out, f, pdu, part)
}
