// The N(S) of a frame that came in: an acknowledgement of it becomes due, and it is the last one accepted from its SSI.
ghost use Rattle.std.specs.Prelude.{◌≡◌, ◌<◌, true, IfSome, IfOk};
ghost use Rattle.questions.specs.Outcome.{ask, accepted};
ghost use Rattle.questions.specs.Refusals.{outcome};
ghost use Rattle.tdma_time.specs.Slots.{valid};
ghost use Rattle.llc_pdus.specs.Headers.{option_of};
ghost use Rattle.llc_rule.specs.Messages.{slot_before};
ghost use Rattle.llc_state.specs.Ranges.{state_in_range};
ghost use Rattle.llc_steps.specs.Calls.{row_if_numbered, ack_room, numbered, is_repeat};
ghost use Rattle.llc_frames.specs.Numbers.{row_place, ns_in};

use llc_calls::FrameCall;
use llc_queues::{schedule_outgoing_ack, send_seq, send_seq_row_or_free, set_send_seq};
use llc_state::{LinkSendSeq, ScheduledOutAck, State};
use questions::Refusal;
use tdma_time::TdmaTime;

// The slot two before now, in which a message on the uplink was sent.
fn slot_before(time: TdmaTime) -> u8
    requires { valid time ≡ true }
    ensures { result ≡ slot_before time }
{
    time.add_timeslots(-2).unwrap().t
}

// A frame's N(S), with the place of the row of its SSI.
#[derive(Clone, Copy)]
pub(crate) struct SeqRow {
    row: usize,
    ns: bool,
}

// The row of its SSI for a frame with an N(S), by questions 7 and 13.
#[tactic(auto, using(llc_state::proofs::Counts::few_rows))]
pub(crate) fn seq_row(
    state: &State,
    f: &FrameCall,
    ns: Option<bool>,
) -> Result<Option<SeqRow>, Refusal>
    requires { state_in_range state.now ≡ true }
    ensures place { outcome result ≡ ask 7 (row_if_numbered f.now.ssi (option_of ns) state.now) (ask 13 (ack_room (option_of ns) state.now) (accepted (row_place f.now.ssi (option_of ns) state.now))) }
    ensures bound { IfOk result (λ heard. IfSome heard (λ r. r.row < 256)) }
{
    let Some(ns) = ns else {
        return Ok(None);
    };
    let row = send_seq_row_or_free(state, f.ssi)?;
    if state.n_acks >= state.scheduled_out_acks.len() {
        return Err(Refusal::AcksFull);
    }
    Ok(Some(SeqRow { row, ns }))
}

// Is the N(S) of a frame the last one accepted from its SSI?
#[tactic(auto, using(llc_state::proofs::Counts::few_rows))]
pub(crate) fn is_repeat(state: &State, f: &FrameCall, heard: Option<SeqRow>) -> bool
    requires state_value { state_in_range state.now ≡ true }
    requires row_value { heard ≡ row_place f.now.ssi (ns_in heard) state.now }
    ensures { result ≡ is_repeat f.now.ssi (ns_in heard) state.now }
{
    let Some(heard) = heard else {
        return false;
    };
    let seq = send_seq(state, heard.row, f.ssi);
    seq.has_last_ns && seq.last_ns == heard.ns
}

// A frame with an N(S) makes an acknowledgement due, and its N(S) is the last one of its SSI.
#[tactic(auto, using(llc_state::proofs::Counts::few_rows))]
pub(crate) fn acknowledge(state: &mut State, f: &FrameCall, heard: Option<SeqRow>)
    requires state_value { state_in_range state.old ≡ true }
    requires started_value { state.old.started ≡ true }
    requires ack_free { ack_room (ns_in heard) state.old ≡ true }
    requires row_value { heard ≡ row_place f.now.ssi (ns_in heard) state.old }
    requires row_bound { IfSome heard (λ r. r.row < 256) }
    ensures { state.new ≡ numbered f.now.ssi f.now.ssi_type f.now.carrier (ns_in heard) state.old }
{
    let Some(heard) = heard else {
        return;
    };
    let seq = send_seq(state, heard.row, f.ssi);
    let ts = slot_before(state.dltime);
    schedule_outgoing_ack(
        state,
        ScheduledOutAck {
            ssi: f.ssi,
            ssi_type: f.ssi_type,
            carrier_num: f.carrier,
            nr: heard.ns,
            ts,
        },
    );
    set_send_seq(
        state,
        heard.row,
        LinkSendSeq {
            ssi: f.ssi,
            vs: seq.vs,
            has_last_ns: true,
            last_ns: heard.ns,
        },
    );
}
