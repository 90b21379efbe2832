// Searches: each goes through what is in use, oldest first.
ghost use Rattle.std.specs.Prelude.{◌≤◌, ◌<◌, ◌≡◌, length, get_or, IfSome, IfOk};
ghost use Rattle.lists.specs.Arrays.{position, place_in};
ghost use Rattle.questions.specs.Outcome.{accepted, ask};
ghost use Rattle.questions.specs.Refusals.{outcome};
ghost use Rattle.llc_state.specs.States.{new_seq};
ghost use Rattle.llc_steps.specs.States.{messages_of, acks_of, rows_of};
ghost use Rattle.llc_steps.specs.Places.{free_place};
ghost use Rattle.llc_steps.specs.Calls.{held, waits as waits_in, row_of, row_for};
ghost use Rattle.llc_queues.specs.Queues.{ack_on, expected_on};

use crate::in_use::{acks, messages, rows, udata};
use llc_state::{LinkSendSeq, STORE_PLACES, State};
use questions::Refusal;

/// The place of the oldest acknowledgement that is due on an SSI and carrier.
pub fn out_ack_if_any(state: &State, ssi: u32, carrier_num: u16) -> Option<usize>
    requires { state.now.n_acks ≤ 64 }
    ensures place { place_in state.now.n_acks result ≡ position (ack_on ssi carrier_num) (acks_of state.now) }
    ensures bound { IfSome result (λ i. i < state.now.n_acks) }
    ensures count { length (acks_of state.now) ≡ state.now.n_acks }
{
    acks(state)
        .iter()
        .position(|ack| ack.ssi == ssi && ack.carrier_num == carrier_num)
}

/// The place of an SSI's row; the number of rows where it has none yet.
pub fn send_seq_row(state: &State, ssi: u32) -> usize
    requires { state.now.n_rows ≤ 256 }
    ensures place { result ≡ position (row_of ssi) (rows_of state.now) }
    ensures count { length (rows_of state.now) ≡ state.now.n_rows }
{
    rows(state)
        .iter()
        .position(|row| row.ssi == ssi)
        .unwrap_or(state.n_rows)
}

/// The place of an SSI's row, or the next free one where it has none yet, by question 7.
pub fn send_seq_row_or_free(state: &State, ssi: u32) -> Result<usize, Refusal>
    requires { state.now.n_rows ≤ 256 }
    ensures place { outcome result ≡ ask 7 (row_for ssi state.now) (accepted (position (row_of ssi) (rows_of state.now))) }
    ensures bound { IfOk result (λ i. (i ≤ state.now.n_rows) × (i < 256)) }
{
    let row = send_seq_row(state, ssi);
    if row >= state.link_send_seq.len() {
        return Err(Refusal::NoRow);
    }
    Ok(row)
}

/// The row of a place; a new one of the SSI where there is none yet.
pub fn send_seq(state: &State, i: usize, ssi: u32) -> LinkSendSeq
    requires { state.now.n_rows ≤ 256 }
    ensures { result ≡ get_or (rows_of state.now) i (new_seq ssi) }
{
    rows(state).get(i).copied().unwrap_or(LinkSendSeq::new(ssi))
}

/// The place of the message of an SSI on a carrier that was passed down.
pub fn expected_ack_for_ssi(state: &State, ssi: u32, carrier_num: u16) -> Option<usize>
    requires { state.now.n_messages ≤ 64 }
    ensures place { place_in state.now.n_messages result ≡ position (expected_on ssi carrier_num) (messages_of state.now) }
    ensures bound { IfSome result (λ i. i < state.now.n_messages) }
{
    messages(state).iter().position(|e| {
        e.sent.ssi == ssi && e.sent.carrier_num == carrier_num && e.progress.submitted_to_umac
    })
}

/// Is the message of a receipt held?
pub fn holds(state: &State, receipt: u8) -> bool
    requires n_messages_bound { state.now.n_messages ≤ 64 }
    requires n_udata_bound { state.now.n_udata ≤ 32 }
    ensures { result ≡ held receipt state.now }
{
    messages(state)
        .iter()
        .chain(udata(state))
        .any(|e| e.sent.receipt == receipt)
}

/// Is the message of a receipt held, and was it not passed down yet?
pub fn waits(state: &State, receipt: u8) -> bool
    requires n_messages_bound { state.now.n_messages ≤ 64 }
    requires n_udata_bound { state.now.n_udata ≤ 32 }
    ensures { result ≡ waits_in receipt state.now }
{
    messages(state).iter().any(|e| e.sent.receipt == receipt && !e.progress.submitted_to_umac)
        || udata(state).iter().any(|e| e.sent.receipt == receipt)
}

/// The first place of the store that no held message has.
pub fn free_place(state: &State) -> usize
    requires n_messages_bound { state.now.n_messages ≤ 64 }
    requires n_udata_bound { state.now.n_udata ≤ 32 }
    ensures { result ≡ free_place state.now }
{
    let mut used = [false; STORE_PLACES];
    for e in messages(state).iter().chain(udata(state)) {
        if e.frame.place < STORE_PLACES {
            used[e.frame.place] = true;
        }
    }
    used.iter().position(|flag| !*flag).unwrap_or(0)
}
