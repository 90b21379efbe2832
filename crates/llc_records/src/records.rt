// The records, put together from their fields. Each function answers the place behind what it wrote.
ghost use Rattle.std.specs.Prelude.{◌+◌, ◌/◌, ◌^◌, ◌≤◌, ◌<◌, length};
ghost use Rattle.lists.specs.Writes.{Wrote};
ghost use Rattle.bits.specs.Parts.{bits_of};
ghost use Rattle.llc_pdus.specs.Headers.{option_of};
ghost use Rattle.llc_rule.specs.Records.{masked, counted_if_any, sent_bytes, reply_bytes, indication_bytes};
ghost use Rattle.llc_records.specs.Records.{sent, reply, indication, head_fields, end_fields, route_fields, steal_fields, down_fields, up_fields};

use crate::fields::{
    put_ack, put_block, put_counted, put_counted_if_any, put_flag, put_mask, put_number,
};
use crate::{IndicationRecord, ReplyRecord, SentRecord};
use bits::Part;

// Fields 01 to 03.
#[tactic(auto, unfolding(llc_rule::specs::Calls::to_bytes))]
fn put_head(out: &mut [u8], at: usize, kind: u8, ssi: u32, ssi_type: u8) -> usize
    requires { at + 14 ≤ length out.old }
    ensures { Wrote out.old at (head_fields kind ssi ssi_type) out.new result }
{
    let p = put_number(out, at, 0x01, 1, kind as u32);
    let p = put_number(out, p, 0x02, 3, ssi);
    put_number(out, p, 0x03, 1, ssi_type as u32)
}

// Fields 05 and 06.
#[tactic(auto, unfolding(llc_rule::specs::Calls::to_bytes))]
fn put_ends(out: &mut [u8], at: usize, link: u32, endpoint: u32) -> usize
    requires { at + 14 ≤ length out.old }
    ensures { Wrote out.old at (end_fields link endpoint) out.new result }
{
    let p = put_number(out, at, 0x05, 4, link);
    put_number(out, p, 0x06, 4, endpoint)
}

// Fields 04 to 07.
#[tactic(auto, unfolding(llc_rule::specs::Calls::to_bytes))]
fn put_route(
    out: &mut [u8],
    at: usize,
    carrier: u16,
    link: u32,
    endpoint: u32,
    handle: u32,
) -> usize
    requires { at + 26 ≤ length out.old }
    ensures { Wrote out.old at (route_fields carrier link endpoint handle) out.new result }
{
    let p = put_number(out, at, 0x04, 2, carrier as u32);
    let p = put_ends(out, p, link, endpoint);
    put_number(out, p, 0x07, 4, handle)
}

// Field 08, and 09 if there is a mask.
#[tactic(auto, unfolding(llc_rule::specs::Calls::to_bytes))]
fn put_steal(out: &mut [u8], at: usize, steal: bool, mask: Option<u8>) -> usize
    requires { at + 4 + length (masked (option_of mask)) ≤ length out.old }
    ensures { Wrote out.old at (steal_fields steal (option_of mask)) out.new result }
{
    let p = put_flag(out, at, 0x08, steal);
    put_mask(out, p, mask)
}

// Fields 0A, 0B and 0C.
#[tactic(auto, unfolding(llc_rule::specs::Calls::to_bytes))]
fn put_down(out: &mut [u8], at: usize, receipt: u8, block: &[u8], frame: Part) -> usize
    requires block_len_bound { length block.now < 2 ^ 16 }
    requires len_bound { frame.len < 2 ^ 16 }
    requires len_in_bounds { at + 12 + length block.now + (frame.len + 7) / 8 ≤ length out.old }
    ensures { Wrote out.old at (down_fields receipt block.now (bits_of frame.entry)) out.new result }
{
    let p = put_number(out, at, 0x0A, 1, receipt as u32);
    let p = put_block(out, p, block);
    put_counted(out, p, frame)
}

/// A message as it is handed down.
#[tactic(auto, using(crate::proofs::Whole::size_sent), unfolding(llc_rule::specs::Calls::to_bytes))]
pub fn put_sent(out: &mut [u8], at: usize, kind: u8, s: SentRecord) -> usize
    requires block_len_bound { length s.block.now < 2 ^ 16 }
    requires len_bound { s.frame.len < 2 ^ 16 }
    requires len_in_bounds { at + length (sent_bytes kind (sent s)) ≤ length out.old }
    ensures { Wrote out.old at (sent_bytes kind (sent s.entry)) out.new result }
{
    let p = put_head(out, at, kind, s.ssi, s.ssi_type);
    let p = put_route(out, p, s.carrier, s.link, s.endpoint, s.handle);
    let p = put_steal(out, p, s.steal, s.mask);
    put_down(out, p, s.receipt, s.block, s.frame)
}

/// An acknowledgement reply as it is handed down.
#[tactic(auto, using(crate::proofs::Whole::size_reply), unfolding(llc_rule::specs::Calls::to_bytes))]
pub fn put_reply(out: &mut [u8], at: usize, s: ReplyRecord) -> usize
    requires { at + length (reply_bytes (reply s)) ≤ length out.old }
    ensures { Wrote out.old at (reply_bytes (reply s)) out.new result }
{
    let p = put_head(out, at, 2, s.ssi, s.ssi_type);
    let p = put_route(out, p, s.carrier, s.link, 0, 0);
    let p = put_steal(out, p, s.steal, s.mask);
    put_ack(out, p, s.nr)
}

// Fields 0B and 0D, and 0C if an SDU is left.
#[tactic(auto, unfolding(llc_rule::specs::Calls::to_bytes))]
fn put_up(out: &mut [u8], at: usize, block: &[u8], has_fcs: bool, sdu: Part) -> usize
    requires block_len_bound { length block.now < 2 ^ 16 }
    requires len_bound { sdu.len < 2 ^ 16 }
    requires len_in_bounds { at + 7 + length block.now + length (counted_if_any (bits_of sdu)) ≤ length out.old }
    ensures { Wrote out.old at (up_fields block.now has_fcs (bits_of sdu.entry)) out.new result }
{
    let p = put_block(out, at, block);
    let p = put_flag(out, p, 0x0D, has_fcs);
    put_counted_if_any(out, p, sdu)
}

/// What a received frame sends up.
#[tactic(auto, using(crate::proofs::Whole::size_indication), unfolding(llc_rule::specs::Calls::to_bytes))]
pub fn put_indication(out: &mut [u8], at: usize, kind: u8, s: IndicationRecord) -> usize
    requires block_len_bound { length s.block.now < 2 ^ 16 }
    requires len_bound { s.sdu.len < 2 ^ 16 }
    requires len_in_bounds { at + length (indication_bytes kind (indication s)) ≤ length out.old }
    ensures { Wrote out.old at (indication_bytes kind (indication s.entry)) out.new result }
{
    let p = put_head(out, at, kind, s.ssi, s.ssi_type);
    let p = put_ends(out, p, s.link, s.endpoint);
    put_up(out, p, s.block, s.has_fcs, s.sdu)
}
