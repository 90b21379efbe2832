// What goes up of a frame, written into lent bytes.
ghost use Rattle.std.specs.Prelude.{◌+◌, ◌^◌, ◌≤◌, ◌<◌, length};
ghost use Rattle.lists.specs.Writes.{Wrote};
ghost use Rattle.bits.specs.Parts.{bits_of};
ghost use Rattle.llc_rule.specs.Upward.{upward};
ghost use Rattle.llc_rule.specs.Records.{all_bytes, indication_bytes};
ghost use Rattle.llc_calls.specs.Decoded.{frame_of};
ghost use Rattle.llc_received.specs.Upward.{sent_up};

use bits::Part;
use llc_calls::FrameCall;
use llc_pdus::Pdu;
use llc_records::{IndicationRecord, put_indication};

/// What goes up of a frame, written from a place on: its SDU, as TL-UNITDATA after BL-UDATA, else as TL-DATA, and with its link id
/// after BL-DATA and BL-ADATA alone. Of a BL-ACK with nothing left nothing goes up.
#[tactic(auto, using(lists::proofs::Writes::wrote_none), unfolding(llc_calls::specs::Decoded::frame_of, llc_rule::specs::Upward::upward, llc_rule::specs::Records::all_bytes, llc_rule::specs::Records::bytes))]
pub fn put_upward(out: &mut [u8], at: usize, f: &FrameCall, pdu: Pdu, sdu: Part) -> usize
    requires block_len_bound { length f.now.block.now < 2 ^ 16 }
    requires len_bound { sdu.len < 2 ^ 16 }
    requires len_in_bounds { at + length (all_bytes (upward (frame_of f.now) pdu (bits_of sdu))) ≤ length out.old }
    ensures { Wrote out.old at (all_bytes (upward (frame_of f.now) pdu (bits_of sdu.entry))) out.new result }
{
    let (kind, link, has_fcs) = match pdu {
        Pdu::BlAdata { has_fcs, .. } => (4, f.link, has_fcs),
        Pdu::BlData { has_fcs, .. } => (4, f.link, has_fcs),
        Pdu::BlUdata { has_fcs } => (5, 0, has_fcs),
        Pdu::BlAck { .. } if sdu.len == 0 => return at,
        Pdu::BlAck { has_fcs, .. } => (4, 0, has_fcs),
    };
    let s = IndicationRecord {
        ssi: f.ssi,
        ssi_type: f.ssi_type,
        link,
        endpoint: f.endpoint,
        block: f.block,
        has_fcs,
        sdu,
    };
    put_indication(out, at, kind, s)
}
