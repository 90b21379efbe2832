// The N(R) of a frame that came in: it finishes the message that it is for, or that message goes back to the head of the queue.
ghost use Rattle.std.specs.Prelude.{◌≡◌, ◌≤◌, ◌<◌, true, IfSome};
ghost use Rattle.lists.specs.Lists.{all};
ghost use Rattle.questions.specs.Outcome.{ask, accepted};
ghost use Rattle.questions.specs.Refusals.{outcome};
ghost use Rattle.llc_calls.specs.Decoded.{frame_of};
ghost use Rattle.llc_pdus.specs.Headers.{option_of};
ghost use Rattle.llc_state.specs.Ranges.{message_in_range, state_in_range};
ghost use Rattle.llc_steps.specs.Calls.{fits as fits_to, may_finish};
ghost use Rattle.llc_steps.specs.States.{messages_of};
ghost use Rattle.llc_frames.specs.Answered.{acked_at};
ghost use Rattle.llc_frames.specs.Numbers.{ack_place};

use llc_calls::FrameCall;
use llc_queues::{expected_ack_for_ssi, push_front_expected_ack, take_expected_ack};
use llc_state::{Entry, State};
use questions::Refusal;
use tx_receipt::Mark;

// Does an N(R) fit a message: was its transmission noted, and is the N(R) its N(S)?
fn fits(e: &Entry, nr: bool) -> bool
    ensures { result ≡ fits_to nr e.now }
{
    e.progress.has_umac_done && e.progress.ns == nr
}

// A frame's N(R), with the place of the message that it is for.
#[derive(Clone, Copy)]
pub(crate) struct AckPlace {
    place: usize,
    nr: bool,
}

// The place of the message that an N(R) is for, by question 14: where it finishes the message, its receipt must be awaiting.
#[tactic(auto, using(llc_state::proofs::Counts::few_messages))]
pub(crate) fn ack_place(
    state: &State,
    f: &FrameCall,
    nr: Option<bool>,
) -> Result<Option<AckPlace>, Refusal>
    requires { state_in_range state.now ≡ true }
    ensures { outcome result ≡ ask 14 (may_finish (frame_of f.now) (option_of nr) state.now) (accepted (ack_place f.now.ssi f.now.carrier (option_of nr) state.now)) }
{
    let Some(nr) = nr else {
        return Ok(None);
    };
    let Some(place) = expected_ack_for_ssi(state, f.ssi, f.carrier) else {
        return Ok(None);
    };
    let e = &state.outbound_messages[place];
    if fits(e, nr) && !state.receipt_place(e.sent.receipt).is_awaiting() {
        return Err(Refusal::NotAwaiting);
    }
    Ok(Some(AckPlace { place, nr }))
}

// An acknowledgement for the message of a place: it finishes the message, or the message goes back to the head of the queue.
pub(crate) fn process_incoming_ack(state: &mut State, ack: Option<AckPlace>)
    requires n_messages_bound { state.old.n_messages ≤ 64 }
    requires messages_value { all message_in_range (messages_of state.old) ≡ true }
    requires within { IfSome ack (λ a. a.place < state.old.n_messages) }
    ensures { state.new ≡ acked_at ack state.old }
{
    let Some(ack) = ack else {
        return;
    };
    if fits(&state.outbound_messages[ack.place], ack.nr) {
        let e = take_expected_ack(state, ack.place);
        state.mark_receipt(e.sent.receipt, Mark::Acknowledged);
    } else {
        push_front_expected_ack(state, ack.place);
    }
}
