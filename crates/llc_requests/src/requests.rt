// The two requests.
ghost use Rattle.std.specs.Prelude.{◌≤◌, ◌<◌, ◌≡◌, true, List, length, MatchOption};
ghost use Rattle.lists.specs.Lists.{nothing, first, others};
ghost use Rattle.lists.specs.Arrays.{position};
ghost use Rattle.questions.specs.Outcome.{accepted};
ghost use Rattle.bits.specs.Bits.{bits};
ghost use Rattle.llc_pdus.specs.declared.Pdu.TheVariants.{BlAdata, BlData};
ghost use Rattle.llc_rule.specs.Limits.{store_bytes};
ghost use Rattle.llc_rule.specs.Messages.{carrier_of};
ghost use Rattle.llc_rule.specs.Ranges.{wants_fcs};
ghost use Rattle.llc_calls.specs.Decoded.{request_of};
ghost use Rattle.llc_calls.specs.Ranges.{request_range};
ghost use Rattle.llc_state.specs.Ranges.{state_in_range};
ghost use Rattle.llc_steps.specs.Answers.{WithAnyOut, answer, answered, done};
ghost use Rattle.llc_steps.specs.States.{acks_of, rows_of, with_acks};
ghost use Rattle.llc_steps.specs.Calls.{with_acknowledged, with_unacknowledged, on_data, on_unitdata, row_of, ack_for};

use crate::entries::{entry_of, put_frame};
use llc_calls::RequestCall;
use llc_pdus::Pdu;
use llc_queues::{
    free_place, out_ack_if_any, push_message, push_udata_message, send_seq, send_seq_row_or_free,
    set_send_seq, take_out_ack,
};
use llc_state::{FramePlace, LinkSendSeq, ScheduledOutAck, State};
use questions::Refusal;

// The carrier of a request: the one given, else the main carrier.
#[tactic(auto, unfolding(llc_calls::specs::Decoded::request_of))]
fn preferred_carrier(q: &RequestCall, main_carrier: u16) -> u16
    ensures { result ≡ carrier_of main_carrier (request_of q.now) }
{
    if q.given == 1 {
        q.carrier
    } else {
        main_carrier
    }
}

// Takes out the oldest acknowledgement that is due to the address of a request on its carrier, if there is one.
fn take_due_ack(state: &mut State, q: &RequestCall) -> Option<ScheduledOutAck>
    requires n_acks_bound { state.old.n_acks ≤ 64 }
    ensures value { MatchOption result (ack_for (request_of q.now) state.old ≡ nothing) (λ d. ack_for (request_of q.now) state.old ≡ first d (acks_of state.new)) }
    ensures state_after { state.new ≡ with_acks state.old (others (ack_for (request_of q.now) state.old) (acks_of state.old)) }
{
    let i = out_ack_if_any(state, q.ssi, preferred_carrier(q, state.main_carrier))?;
    take_out_ack(state, i)
}

// BL-ADATA with the N(R) of an acknowledgement, or BL-DATA where there is none.
fn data_pdu(q: &RequestCall, due: Option<ScheduledOutAck>, ns: bool) -> Pdu
    ensures { MatchOption due (result ≡ BlData (wants_fcs (request_of q.now)) ns) (λ d. result ≡ BlAdata (wants_fcs (request_of q.now)) d.nr ns) }
{
    let has_fcs = q.wants_fcs();
    match due {
        Some(ack) => Pdu::BlAdata {
            has_fcs,
            nr: ack.nr,
            ns,
        },
        None => Pdu::BlData { has_fcs, ns },
    }
}

// Puts a message last that is to be acknowledged, for the row of a place.
#[tactic(auto, using(llc_state::proofs::Counts::counts, crate::proofs::Puts::asking))]
fn put_acknowledged(state: &mut State, store: &mut [u8], q: &RequestCall, row: usize)
    requires state_value { state_in_range state.old ≡ true }
    requires store_len { length store.old ≡ store_bytes }
    requires q_value { request_range q.now ≡ true }
    requires row_value { row ≡ position (row_of q.now.ssi) (rows_of state.old) }
    requires row_bound { row < 256 }
    requires n_messages_bound { state.old.n_messages < 64 }
    ensures { WithAnyOut (answer 0 state.new 0) (bits store.new) state.old (bits store.old) (accepted (with_acknowledged (request_of q.now) state.old (bits store.old))) }
{
    let carrier = preferred_carrier(q, state.main_carrier);
    let seq = send_seq(state, row, q.ssi);
    let due = take_due_ack(state, q);
    let pdu = data_pdu(q, due, seq.vs);
    let place = free_place(state);
    let len = put_frame(store, place, pdu, q);
    push_message(
        state,
        entry_of(q, carrier, 0, FramePlace { place, len }, seq.vs),
    );
    state.take_receipt(q.receipt, true);
    set_send_seq(
        state,
        row,
        LinkSendSeq {
            ssi: q.ssi,
            vs: !seq.vs,
            ..seq
        },
    );
}

// Puts a message last that is not acknowledged, behind a header. An acknowledgement may have been taken out before.
#[tactic(auto, using(llc_state::proofs::Counts::counts, crate::proofs::Puts::asking))]
fn put_unacknowledged(state: &mut State, store: &mut [u8], q: &RequestCall, link: u32, pdu: Pdu)
    requires n_messages_bound { state.old.n_messages ≤ 64 }
    requires n_udata_bound { state.old.n_udata < 32 }
    requires store_len { length store.old ≡ store_bytes }
    requires q_value { request_range q.now ≡ true }
    ensures { (s : State) (ds : List ScheduledOutAck) → state.old ≡ with_acks s ds → WithAnyOut (answer 0 state.new 0) (bits store.new) s (bits store.old) (accepted (with_unacknowledged (request_of q.now) link pdu ds s (bits store.old))) }
{
    let carrier = preferred_carrier(q, state.main_carrier);
    let place = free_place(state);
    let len = put_frame(store, place, pdu, q);
    push_udata_message(
        state,
        entry_of(q, carrier, link, FramePlace { place, len }, false),
    );
    state.take_receipt(q.receipt, false);
}

/// A data request.
#[tactic(auto, using(llc_state::proofs::Counts::counts, crate::proofs::Puts::asking))]
pub fn rx_tla_tldata_req_bl(
    state: &mut State,
    store: &mut [u8],
    q: &RequestCall,
) -> Result<(), Refusal>
    requires state_value { state_in_range state.old ≡ true }
    requires store_len { length store.old ≡ store_bytes }
    requires q_value { request_range q.now ≡ true }
    ensures { WithAnyOut (answered state.new (done result)) (bits store.new) state.old (bits store.old) (on_data (request_of q.now) state.old (bits store.old)) }
{
    if state.receipts[q.receipt as usize].taken {
        return Err(Refusal::ReceiptTaken);
    }
    if q.ssi_type == 1 && !q.steals() {
        let row = send_seq_row_or_free(state, q.ssi)?;
        if state.n_messages >= state.outbound_messages.len() {
            return Err(Refusal::NoRoom);
        }
        put_acknowledged(state, store, q, row);
        return Ok(());
    }
    if state.n_udata >= state.outbound_udata_messages.len() {
        return Err(Refusal::NoRoom);
    }
    let due = if q.steals() {
        take_due_ack(state, q)
    } else {
        None
    };
    match due {
        Some(ack) => {
            let header = Pdu::BlAck {
                has_fcs: q.wants_fcs(),
                nr: ack.nr,
            };
            put_unacknowledged(state, store, q, q.link, header);
        }
        None => put_unacknowledged(state, store, q, 0, Pdu::BlUdata { has_fcs: false }),
    }
    Ok(())
}

/// A unitdata request.
#[tactic(auto, using(llc_state::proofs::Counts::counts, crate::proofs::Puts::asking))]
pub fn rx_tla_tlunitdata_req_bl(
    state: &mut State,
    store: &mut [u8],
    q: &RequestCall,
) -> Result<(), Refusal>
    requires state_value { state_in_range state.old ≡ true }
    requires store_len { length store.old ≡ store_bytes }
    requires q_value { request_range q.now ≡ true }
    ensures { WithAnyOut (answered state.new (done result)) (bits store.new) state.old (bits store.old) (on_unitdata (request_of q.now) state.old (bits store.old)) }
{
    if state.receipts[q.receipt as usize].taken {
        return Err(Refusal::ReceiptTaken);
    }
    if state.n_udata >= state.outbound_udata_messages.len() {
        return Err(Refusal::NoRoom);
    }
    put_unacknowledged(state, store, q, q.link, Pdu::BlUdata { has_fcs: false });
    Ok(())
}
