// A message handed down: its record, and how far it has come then.
ghost use Rattle.std.specs.Prelude.{◌+◌, ◌≤◌, ◌<◌, ◌≡◌, length};
ghost use Rattle.lists.specs.Writes.{Wrote};
ghost use Rattle.bits.specs.Bits.{bits};
ghost use Rattle.llc_pdus.specs.Writes.{longest_sent};
ghost use Rattle.llc_rule.specs.Limits.{store_bytes, store_places};
ghost use Rattle.llc_rule.specs.Records.{sent_bytes};
ghost use Rattle.llc_state.specs.View.{sent_in};
ghost use Rattle.llc_steps.specs.TickEnd.{submitted_entry};

use bits::Part;
use llc_records::{SentRecord, put_sent};
use llc_state::{Entry, PLACE_BYTES};

// Writes the record of a message, whose frame is in the store, from a place of the output on.
pub(crate) fn put_message<'a>(
    out: &mut [u8],
    at: usize,
    kind: u8,
    e: &'a Entry,
    store: &'a [u8],
) -> usize
    requires store_len { length store.now ≡ store_bytes }
    requires block_len { e.now.sent.block_len ≤ 64 }
    requires place { e.now.frame.place < store_places }
    requires frame_len { e.now.frame.len ≤ longest_sent }
    requires room { at + length (sent_bytes kind (sent_in (bits store.now) e.now)) ≤ length out.old }
    ensures { Wrote out.old at (sent_bytes kind (sent_in (bits store.now) e.now)) out.new result }
{
    let sent = &e.sent;
    let record = SentRecord {
        ssi: sent.ssi,
        ssi_type: sent.ssi_type,
        carrier: sent.carrier_num,
        link: sent.link_id,
        endpoint: sent.endpoint_id,
        handle: sent.req_handle,
        steal: sent.stealing_permission,
        mask: sent.has_mask.then_some(sent.mask),
        receipt: sent.receipt,
        block: &sent.block[..sent.block_len],
        frame: Part {
            bytes: &store[e.frame.place * PLACE_BYTES..],
            place: 0,
            len: e.frame.len,
        },
    };
    put_sent(out, at, kind, record)
}

// The message as handed down, after so many retransmissions.
pub(crate) fn submitted(mut e: Entry, retransmit_count: u8) -> Entry
    ensures { result ≡ submitted_entry retransmit_count e }
{
    e.progress.submitted_to_umac = true;
    e.progress.has_umac_done = false;
    e.progress.retransmit_count = retransmit_count;
    e
}
