// The four passes, one behind the other.
ghost use Rattle.std.specs.Prelude.{◌≤◌, ◌≡◌, true, length};
ghost use Rattle.bits.specs.Bits.{bits};
ghost use Rattle.llc_rule.specs.Limits.{output_bytes, store_bytes};
ghost use Rattle.llc_rule.specs.Calls.{tick_end};
ghost use Rattle.llc_state.specs.Lengths.{Lengths};
ghost use Rattle.llc_state.specs.Ranges.{state_in_range};
ghost use Rattle.llc_steps.specs.Answers.{effect, answer, delivered};
ghost use Rattle.llc_steps.specs.Steps.{acts};

use crate::free_messages::submit_free_messages_to_umac;
use crate::replies::submit_ack_replies_to_umac;
use crate::retransmissions::submit_retransmissions_to_umac;
use crate::udata::submit_udata_msgs_to_umac;
use llc_state::{Entry, LinkSendSeq, ReceiptPlace, ScheduledOutAck, State};

// The arrays behind a reference are as long as their types say, which the proof reads of them as slices.
fn lengths(state: &State)
    ensures { Lengths state.now }
{
    let _messages: &[Entry] = &state.outbound_messages;
    let _udata: &[Entry] = &state.outbound_udata_messages;
    let _acks: &[ScheduledOutAck] = &state.scheduled_out_acks;
    let _places: &[ReceiptPlace] = &state.receipts;
    let _rows: &[LinkSendSeq] = &state.link_send_seq;
}

/// A tick end. It gives the place behind what it wrote.
pub fn tick_end(state: &mut State, store: &[u8], out: &mut [u8]) -> usize
    requires state_value { state_in_range state.old ≡ true }
    requires store_len { length store.now ≡ store_bytes }
    requires output_bytes_in_bounds { output_bytes ≤ length out.old }
    requires started_value { state.old.started ≡ true }
    ensures { effect (answer 0 state.new result) (bits store.now) out.new ≡ delivered state.old (bits store.now) out.old (acts tick_end state.old (bits store.now)) }
{
    lengths(state);
    let resent = submit_retransmissions_to_umac(state, store, out, 0);
    let sent = submit_free_messages_to_umac(state, store, out, resent);
    let replied = submit_ack_replies_to_umac(state, out, sent);
    submit_udata_msgs_to_umac(state, store, out, replied)
}
