// The fields of a record. Each function answers the place behind what it wrote.
ghost use Rattle.std.specs.Prelude.{◌+◌, ◌/◌, ◌%◌, ◌^◌, ◌≤◌, ◌<◌, ◌≡◌, false, ◌∷◌, length};
ghost use Rattle.lists.specs.Writes.{Wrote};
ghost use Rattle.bits.specs.Parts.{bits_of};
ghost use Rattle.llc_pdus.specs.Headers.{bit, header, option_of};
ghost use Rattle.llc_pdus.specs.declared.Pdu.{Pdu};
ghost use Rattle.llc_rule.specs.Calls.{to_bytes};
ghost use Rattle.llc_rule.specs.Records.{field, number_field, pack, counted, counted_if_any, masked};

use bit_fields::{copy_bytes, get};
use bits::Part;

// Bytes as they are.
#[tactic(auto, using(crate::proofs::Parts::copied))]
fn put_bytes(out: &mut [u8], at: usize, bytes: &[u8]) -> usize
    requires { at + length bytes.now ≤ length out.old }
    ensures { Wrote out.old at bytes.now out.new result }
{
    let end = at + bytes.len();
    out[at..end].copy_from_slice(bytes);
    end
}

// The n lowest bytes of a number, the highest first.
fn put_lowest(out: &mut [u8], at: usize, n: usize, v: u32) -> usize
    requires n_bound { n ≤ 4 }
    requires n_in_bounds { at + n ≤ length out.old }
    ensures { Wrote out.old at (to_bytes n v) out.new result }
{
    put_bytes(out, at, &v.to_be_bytes()[4 - n..])
}

// The tag of a field and the length of its value.
fn put_tag(out: &mut [u8], at: usize, tag: u8, n: usize) -> usize
    requires n_bound { n < 2 ^ 16 }
    requires n_in_bounds { at + 3 ≤ length out.old }
    ensures { Wrote out.old at (tag ∷ to_bytes 2 n) out.new result }
{
    out[at] = tag;
    put_lowest(out, at + 1, 2, n as u32)
}

// A number of n bytes as a field.
#[tactic(auto, unfolding(llc_rule::specs::Calls::to_bytes))]
pub(crate) fn put_number(out: &mut [u8], at: usize, tag: u8, n: usize, v: u32) -> usize
    requires n_bound { n ≤ 4 }
    requires n_in_bounds { at + 3 + n ≤ length out.old }
    ensures { Wrote out.old at (number_field tag n v) out.new result }
{
    let p = put_tag(out, at, tag, n);
    put_lowest(out, p, n, v)
}

// A block as field 0B.
#[tactic(auto, unfolding(llc_rule::specs::Calls::to_bytes))]
pub(crate) fn put_block(out: &mut [u8], at: usize, block: &[u8]) -> usize
    requires len_bound { length block.now < 2 ^ 16 }
    requires len_in_bounds { at + 3 + length block.now ≤ length out.old }
    ensures { Wrote out.old at (field 0x0B block.now) out.new result }
{
    let p = put_tag(out, at, 0x0B, block.len());
    put_bytes(out, p, block)
}

// Bits that fill whole bytes.
fn put_whole(out: &mut [u8], at: usize, bits: Part) -> usize
    requires len_value { bits.len % 8 ≡ 0 }
    requires len_in_bounds { at + bits.len / 8 ≤ length out.old }
    ensures { Wrote out.old at (pack (bits_of bits.entry)) out.new result }
{
    let end = at + bits.len / 8;
    copy_bytes(bits, &mut out[at..end]);
    end
}

// Fewer than eight bits, in the highest bits of a byte.
fn put_last(out: &mut [u8], at: usize, bits: Part) -> usize
    requires len_bound { bits.len < 8 }
    requires len_in_bounds { at + (bits.len + 7) / 8 ≤ length out.old }
    ensures { Wrote out.old at (pack (bits_of bits.entry)) out.new result }
{
    if bits.len == 0 {
        return at;
    }
    out[at] = (get(bits.bytes, bits.place, bits.len) << (8 - bits.len)) as u8;
    at + 1
}

// Bits, packed.
fn put_packed(out: &mut [u8], at: usize, bits: Part) -> usize
    requires len_bound { bits.len < 2 ^ 16 }
    requires len_in_bounds { at + (bits.len + 7) / 8 ≤ length out.old }
    ensures { Wrote out.old at (pack (bits_of bits.entry)) out.new result }
{
    let whole = bits.len - bits.len % 8;
    let p = put_whole(out, at, bits.before(whole));
    put_last(out, p, bits.behind(whole))
}

// Bits behind their count, as field 0C.
#[tactic(auto, unfolding(llc_rule::specs::Calls::to_bytes))]
pub(crate) fn put_counted(out: &mut [u8], at: usize, bits: Part) -> usize
    requires len_bound { bits.len < 2 ^ 16 }
    requires len_in_bounds { at + 5 + (bits.len + 7) / 8 ≤ length out.old }
    ensures { Wrote out.old at (counted (bits_of bits.entry)) out.new result }
{
    let p = put_tag(out, at, 0x0C, 2 + (bits.len + 7) / 8);
    let p = put_lowest(out, p, 2, bits.len as u32);
    put_packed(out, p, bits)
}

// The same, if there are any.
pub(crate) fn put_counted_if_any(out: &mut [u8], at: usize, bits: Part) -> usize
    requires len_bound { bits.len < 2 ^ 16 }
    requires len_in_bounds { at + length (counted_if_any (bits_of bits)) ≤ length out.old }
    ensures { Wrote out.old at (counted_if_any (bits_of bits.entry)) out.new result }
{
    if bits.len == 0 {
        return at;
    }
    put_counted(out, at, bits)
}

// A mask as field 09, if there is one.
#[tactic(auto, using(lists::proofs::Writes::wrote_none), unfolding(llc_rule::specs::Calls::to_bytes, llc_rule::specs::Records::masked))]
pub(crate) fn put_mask(out: &mut [u8], at: usize, mask: Option<u8>) -> usize
    requires { at + length (masked (option_of mask)) ≤ length out.old }
    ensures { Wrote out.old at (masked (option_of mask)) out.new result }
{
    match mask {
        Some(m) => put_number(out, at, 0x09, 1, m as u32),
        None => at,
    }
}

// A flag as a field.
pub(crate) fn put_flag(out: &mut [u8], at: usize, tag: u8, b: bool) -> usize
    requires { at + 4 ≤ length out.old }
    ensures { Wrote out.old at (number_field tag 1 (bit b)) out.new result }
{
    put_number(out, at, tag, 1, b as u32)
}

// The five bits of a BL-ACK behind their count, as field 0C.
#[tactic(auto, unfolding(llc_rule::specs::Calls::to_bytes))]
pub(crate) fn put_ack(out: &mut [u8], at: usize, nr: bool) -> usize
    requires { at + 6 ≤ length out.old }
    ensures { Wrote out.old at (counted (header (Pdu.BlAck false nr))) out.new result }
{
    put_number(out, at, 0x0C, 3, if nr { 0x0538 } else { 0x0530 })
}
