// The third pass: each due acknowledgement is handed down as a reply.
ghost use Rattle.std.specs.Prelude.{◌+◌, ◌≤◌, ◌≡◌, [], length};
ghost use Rattle.lists.specs.Writes.{Wrote};
ghost use Rattle.llc_rule.specs.Messages.{reply_to};
ghost use Rattle.llc_rule.specs.Records.{reply as reply_record};
ghost use Rattle.llc_records.specs.Records.{reply};
ghost use Rattle.llc_state.specs.View.{due_in};
ghost use Rattle.llc_steps.specs.States.{acks_of, with_acks};
ghost use Rattle.llc_tick_end.specs.Passes.{reply_bytes_of};

use llc_records::{ReplyRecord, put_reply};
use llc_state::{ScheduledOutAck, State};

// The reply to a message that came in a slot: on 2 to 4 it steals that slot.
fn ack_reply(ack: ScheduledOutAck) -> ReplyRecord
    ensures { reply_record (reply result) ≡ reply_to (due_in ack) }
{
    let (link, mask) = match ack.ts {
        2..=4 => (ack.ts as u32, Some(1 << (ack.ts - 1))),
        _ => (0, None),
    };
    ReplyRecord {
        ssi: ack.ssi,
        ssi_type: ack.ssi_type,
        carrier: ack.carrier_num,
        link,
        steal: mask.is_some(),
        mask,
        nr: ack.nr,
    }
}

// Hands down the due acknowledgements, the oldest first, and leaves none due.
pub(crate) fn submit_ack_replies_to_umac(state: &mut State, out: &mut [u8], mut at: usize) -> usize
    requires n_acks_bound { state.old.n_acks ≤ 64 }
    requires room { at + length (reply_bytes_of (acks_of state.old)) ≤ length out.old }
    ensures after { state.new ≡ with_acks state.old [] }
    ensures wrote { Wrote out.old at (reply_bytes_of (acks_of state.old)) out.new result }
{
    let due = &mut state.scheduled_out_acks[..state.n_acks];
    for ack in due.iter() {
        at = put_reply(out, at, ack_reply(*ack));
    }
    due.fill(ScheduledOutAck::empty());
    state.n_acks = 0;
    at
}
