// A new message: its entry, and its frame in the store.
ghost use Rattle.std.specs.Prelude.{◌≤◌, ◌<◌, ◌≡◌, length};
ghost use Rattle.bits.specs.Bits.{bits, splice};
ghost use Rattle.llc_pdus.specs.Frames.{frame_bits};
ghost use Rattle.llc_pdus.specs.Writes.{longest};
ghost use Rattle.llc_rule.specs.Limits.{store_bytes, store_places};
ghost use Rattle.llc_calls.specs.Decoded.{request_of};
ghost use Rattle.llc_state.specs.View.{place_bit};
ghost use Rattle.llc_steps.specs.Calls.{sent_for, entry_of};

use llc_calls::RequestCall;
use llc_pdus::{Pdu, to_bitbuf};
use llc_state::{Entry, FramePlace, PLACE_BYTES, Progress, TmaUnitdataReq};

// The block of a request, with zeros behind it.
#[tactic(auto, unfolding(llc_calls::specs::Decoded::request_of))]
fn block_of(q: &RequestCall) -> [u8; 64]
    requires { length q.now.block.now ≤ 64 }
    ensures { result ≡ (sent_for (request_of q.now) 0 0).block }
{
    let mut block = [0; 64];
    block[..q.block.len()].copy_from_slice(q.block);
    block
}

// What of a request is handed down, on a carrier and with a link id.
#[tactic(auto, unfolding(llc_calls::specs::Decoded::request_of))]
fn sent_of(q: &RequestCall, carrier: u16, link: u32) -> TmaUnitdataReq
    requires { length q.now.block.now ≤ 64 }
    ensures { result ≡ sent_for (request_of q.now) carrier link }
{
    TmaUnitdataReq {
        ssi: q.ssi,
        ssi_type: q.ssi_type,
        carrier_num: carrier,
        link_id: link,
        endpoint_id: q.endpoint,
        req_handle: q.handle,
        stealing_permission: q.steals(),
        has_mask: q.has_mask(),
        mask: q.mask,
        receipt: q.receipt,
        block_len: q.block.len(),
        block: block_of(q),
    }
}

// The entry of a request's message.
#[tactic(auto, unfolding(llc_steps::specs::Calls::entry_of))]
pub(crate) fn entry_of(
    q: &RequestCall,
    carrier: u16,
    link: u32,
    frame: FramePlace,
    ns: bool,
) -> Entry
    requires { length q.now.block.now ≤ 64 }
    ensures { result ≡ entry_of (request_of q.now) carrier link frame.place frame.len ns }
{
    Entry {
        sent: sent_of(q, carrier, link),
        frame,
        progress: Progress::new(ns),
    }
}

// Writes the frame of a request's message to a place of the store, and answers how many bits it has.
pub(crate) fn put_frame(store: &mut [u8], place: usize, pdu: Pdu, q: &RequestCall) -> usize
    requires store_len { length store.old ≡ store_bytes }
    requires place_lt_store_places { place < store_places }
    requires sdu_len_bound { q.now.sdu.len ≤ longest }
    ensures store_after { bits store.new ≡ splice (bits store.old) (place_bit place) (frame_bits pdu (request_of q.now).sdu) }
    ensures value { result ≡ length (frame_bits pdu (request_of q.now).sdu) }
{
    let first = place * PLACE_BYTES;
    let end = first + PLACE_BYTES;
    to_bitbuf(
        pdu,
        q.sdu.bytes,
        q.sdu.place,
        q.sdu.len,
        &mut store[first..end],
    )
    .unwrap()
}
