// The fourth pass: each unacknowledged message is handed down.
ghost use Rattle.std.specs.Prelude.{◌+◌, ◌≤◌, ◌≡◌, true, [], length};
ghost use Rattle.lists.specs.Lists.{all};
ghost use Rattle.lists.specs.Writes.{Wrote};
ghost use Rattle.bits.specs.Bits.{bits};
ghost use Rattle.llc_rule.specs.Limits.{store_bytes};
ghost use Rattle.llc_state.specs.Ranges.{udata_in_range};
ghost use Rattle.llc_steps.specs.States.{udata_of, with_udata};
ghost use Rattle.llc_tick_end.specs.Passes.{udata_bytes_of};

use crate::messages::put_message;
use llc_state::{Entry, State};

// Hands down the unacknowledged messages, the oldest first, and leaves none.
pub(crate) fn submit_udata_msgs_to_umac(
    state: &mut State,
    store: &[u8],
    out: &mut [u8],
    mut at: usize,
) -> usize
    requires n_udata_bound { state.old.n_udata ≤ 32 }
    requires in_range { all udata_in_range (udata_of state.old) ≡ true }
    requires store_len { length store.now ≡ store_bytes }
    requires room { at + length (udata_bytes_of (bits store.now) (udata_of state.old)) ≤ length out.old }
    ensures after { state.new ≡ with_udata state.old [] }
    ensures wrote { Wrote out.old at (udata_bytes_of (bits store.now) (udata_of state.old)) out.new result }
{
    let messages = &mut state.outbound_udata_messages[..state.n_udata];
    for message in messages.iter() {
        at = put_message(out, at, 3, message, store);
    }
    messages.fill(Entry::empty());
    state.n_udata = 0;
    at
}
