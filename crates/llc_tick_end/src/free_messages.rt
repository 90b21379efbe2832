// The second pass: the oldest waiting message of each address that has none under way is handed down.
ghost use Rattle.std.specs.Prelude.{◌+◌, ◌≤◌, ◌≡◌, true, length, reverse};
ghost use Rattle.lists.specs.Lists.{all, among};
ghost use Rattle.lists.specs.Writes.{Wrote};
ghost use Rattle.bits.specs.Bits.{bits};
ghost use Rattle.llc_rule.specs.Limits.{store_bytes};
ghost use Rattle.llc_state.specs.Ranges.{message_in_range};
ghost use Rattle.llc_steps.specs.TickEnd.{first_sendings, after_sendings};
ghost use Rattle.llc_steps.specs.States.{messages_of};
ghost use Rattle.llc_tick_end.specs.Passes.{sent_bytes_of};

use crate::messages::{put_message, submitted};
use llc_state::State;
use tx_receipt::Mark;

// Is an SSI one of these? The newest are asked first.
fn has_ssi(ssis: &[u32], ssi: u32) -> bool
    ensures { result ≡ among ssi (reverse ssis.now) }
{
    ssis.iter().rev().any(|blocked| *blocked == ssi)
}

// Goes through the messages: one that waits is handed down unless its SSI has one under way.
pub(crate) fn submit_free_messages_to_umac(
    state: &mut State,
    store: &[u8],
    out: &mut [u8],
    mut at: usize,
) -> usize
    requires messages_len { length state.old.outbound_messages ≡ 64 }
    requires n_messages_bound { state.old.n_messages ≤ 64 }
    requires in_range { all message_in_range (messages_of state.old) ≡ true }
    requires store_len { length store.now ≡ store_bytes }
    requires room { at + length (sent_bytes_of (bits store.now) (first_sendings state.old).out) ≤ length out.old }
    ensures after { state.new ≡ after_sendings state.old }
    ensures wrote { Wrote out.old at (sent_bytes_of (bits store.now) (first_sendings state.old).out) out.new result }
{
    // The SSIs that have a message under way.
    let mut blocked = [0; 64];
    let mut k = 0;
    for i in 0..state.n_messages {
        let message = state.outbound_messages[i];
        if message.progress.submitted_to_umac {
            blocked[k] = message.sent.ssi;
            k += 1;
            continue;
        }
        if has_ssi(&blocked[..k], message.sent.ssi) {
            continue;
        }
        at = put_message(out, at, 1, &message, store);
        state.mark_receipt(message.sent.receipt, Mark::Reset);
        state.outbound_messages[i] = submitted(message, message.progress.retransmit_count);
        blocked[k] = message.sent.ssi;
        k += 1;
    }
    at
}
