// The first pass: messages whose time has run out are handed down again, or leave after three retransmissions.
ghost use Rattle.std.specs.Prelude.{◌+◌, ◌≤◌, ◌≡◌, true, ◌&&◌, length};
ghost use Rattle.lists.specs.Writes.{Wrote};
ghost use Rattle.bits.specs.Bits.{bits};
ghost use Rattle.tdma_time.specs.Slots.{valid};
ghost use Rattle.llc_rule.specs.Limits.{store_bytes};
ghost use Rattle.llc_rule.specs.Messages.{overdue as is_overdue, reported};
ghost use Rattle.llc_state.specs.Ranges.{if_there, state_in_range};
ghost use Rattle.llc_state.specs.Receipts.{receipt_of};
ghost use Rattle.llc_steps.specs.TickEnd.{retransmissions, after_retransmissions, timed_by, is_due};
ghost use Rattle.llc_tick_end.specs.Passes.{sent_bytes_of};

use crate::messages::{put_message, submitted};
use llc_state::{Entry, ReceiptPlace, State};
use tdma_time::TdmaTime;
use tx_receipt::Mark;

/// How often a message is handed down again.
const N252_BL_MAX_TLSDU_RETRANSMITS_ACKED: u8 = 3;

// Is the time since a message was done T251 or more? A difference below zero counts as due.
fn overdue(dltime: TdmaTime, t251: u16, done: TdmaTime) -> bool
    requires dltime_value { valid dltime ≡ true }
    requires done_value { valid done ≡ true }
    ensures { result ≡ is_overdue dltime t251 done }
{
    dltime
        .diff(done)
        .map_or(true, |age| age < 0 || t251 as i32 <= age)
}

// Is the receipt of a place taken, and was the message transmitted or discarded?
fn is_reported(place: ReceiptPlace) -> bool
    ensures { result ≡ place.taken && reported (receipt_of place) }
{
    place.receipt_if_taken().is_some_and(|receipt| receipt.is_discarded()
        || receipt.is_transmitted())
}

// The message with its done time, which starts once its receipt is reported.
fn timed(mut e: Entry, place: ReceiptPlace, dltime: TdmaTime) -> Entry
    ensures { result ≡ timed_by dltime place e }
{
    if !e.progress.has_umac_done && is_reported(place) {
        e.progress.has_umac_done = true;
        e.progress.t_umac_done = dltime;
    }
    e
}

// Is it time to hand the message down again, or to give it up?
fn is_due(e: &Entry, dltime: TdmaTime, t251: u16) -> bool
    requires dltime_value { valid dltime ≡ true }
    requires t_umac_done_value { if_there e.now.progress.has_umac_done (valid e.now.progress.t_umac_done) ≡ true }
    ensures { result ≡ is_due dltime t251 e.now }
{
    e.progress.has_umac_done && overdue(dltime, t251, e.progress.t_umac_done)
}

// Goes through the messages: one that is due is handed down or leaves, and those that stay keep their order.
pub(crate) fn submit_retransmissions_to_umac(
    state: &mut State,
    store: &[u8],
    out: &mut [u8],
    mut at: usize,
) -> usize
    requires messages_len { length state.old.outbound_messages ≡ 64 }
    requires in_range { state_in_range state.old ≡ true }
    requires store_len { length store.now ≡ store_bytes }
    requires room { at + length (sent_bytes_of (bits store.now) (retransmissions state.old).out) ≤ length out.old }
    requires started { state.old.started ≡ true }
    ensures after { state.new ≡ after_retransmissions state.old }
    ensures wrote { Wrote out.old at (sent_bytes_of (bits store.now) (retransmissions state.old).out) out.new result }
{
    let n = state.n_messages;
    let dltime = state.dltime;
    let t251 = state.t251;
    let mut kept = 0;
    for i in 0..n {
        let held = state.outbound_messages[i];
        let receipt = held.sent.receipt;
        let mut e = timed(held, state.receipt_place(receipt), dltime);
        if is_due(&e, dltime, t251) {
            if e.progress.retransmit_count >= N252_BL_MAX_TLSDU_RETRANSMITS_ACKED {
                state.mark_receipt(receipt, Mark::Lost);
                continue;
            }
            at = put_message(out, at, 1, &e, store);
            state.mark_receipt(receipt, Mark::Reset);
            e = submitted(e, e.progress.retransmit_count + 1);
        }
        state.outbound_messages[kept] = e;
        kept += 1;
    }
    state.outbound_messages[kept..n].fill(Entry::empty());
    state.n_messages = kept;
    at
}
