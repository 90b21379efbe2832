// What of the state's arrays is in use.
ghost use Rattle.std.specs.Prelude.{◌≤◌, ◌≡◌, length};
ghost use Rattle.llc_steps.specs.States.{messages_of, udata_of, acks_of, rows_of};

use llc_state::{Entry, LinkSendSeq, ScheduledOutAck, State};

// The messages, the one to be sent first in front.
pub(crate) fn messages(state: &State) -> &[Entry]
    requires { state.now.n_messages ≤ 64 }
    ensures part { result.now ≡ messages_of state.now }
    ensures count { length result.now ≡ state.now.n_messages }
{
    &state.outbound_messages[..state.n_messages]
}

// The unacknowledged messages.
pub(crate) fn udata(state: &State) -> &[Entry]
    requires { state.now.n_udata ≤ 32 }
    ensures { result.now ≡ udata_of state.now }
{
    &state.outbound_udata_messages[..state.n_udata]
}

// The acknowledgements that are due.
pub(crate) fn acks(state: &State) -> &[ScheduledOutAck]
    requires { state.now.n_acks ≤ 64 }
    ensures part { result.now ≡ acks_of state.now }
    ensures count { length result.now ≡ state.now.n_acks }
{
    &state.scheduled_out_acks[..state.n_acks]
}

// The rows of the SSIs.
pub(crate) fn rows(state: &State) -> &[LinkSendSeq]
    requires { state.now.n_rows ≤ 256 }
    ensures part { result.now ≡ rows_of state.now }
    ensures count { length result.now ≡ state.now.n_rows }
{
    &state.link_send_seq[..state.n_rows]
}
