// A frame put together: the header, the SDU behind it, and its check sequence.
ghost use Rattle.std.specs.Prelude.{◌+◌, ◌≤◌, ◌≡◌, length};
ghost use Rattle.bits.specs.Bits.{to_bits, value, bits, splice};
ghost use Rattle.bits.specs.Parts.{bits_of};
ghost use Rattle.fcs.specs.Fcs.{fcs_bits};
ghost use Rattle.questions.specs.Effect.{effect};
ghost use Rattle.questions.specs.Refusals.{outcome};
ghost use Rattle.llc_pdus.specs.Headers.{header};
ghost use Rattle.llc_pdus.specs.Frames.{check_bits, check_sequence, frame_bits};
ghost use Rattle.llc_pdus.specs.Writes.{longest, written};

use crate::Pdu;
use bitbuffer::BitBuffer;
use bits::{Part, within};
use fcs::{FCS_BITS, sum_of};
use questions::Refusal;

/// The longest SDU of an outgoing frame, in bits.
pub const N251_BL_MAX_TLSDU_LEN_BITS: usize = 2595;

/// Writes a PDU, with so many bits of an SDU from a place on and, where its FCS flag is set, their check sequence, to the front of
/// the lent bytes: the frame's length in bits. Number 5 for an SDU that has more bits than an outgoing one may have or does not lie
/// in its bytes, number 8 where the frame does not fit.
pub fn to_bitbuf(
    pdu: Pdu,
    sdu: &[u8],
    from: usize,
    len: usize,
    out: &mut [u8],
) -> Result<usize, Refusal>
    ensures { effect (outcome result) (bits out.new) ≡ written pdu (bits out.old) (bits sdu.now) from len }
{
    if N251_BL_MAX_TLSDU_LEN_BITS < len || usize::MAX - len < from {
        return Err(Refusal::OutOfRange);
    }
    let sdu = Part::new(sdu, from, len)?;
    let end = pdu.header_len() + len + pdu.check_len();
    if !within(end, out) {
        return Err(Refusal::NoRoom);
    }
    pdu.put_header(len, out);
    put_sdu(sdu, pdu.header_len(), out);
    pdu.put_check(sdu, out);
    Ok(end)
}

impl Pdu {
    // How many check bits the frame ends with.
    fn check_len(self) -> usize
        ensures { result ≡ check_bits self }
    {
        if self.has_fcs() { FCS_BITS } else { 0 }
    }

    // Puts the header to the front.
    fn put_header(self, len: usize, out: &mut [u8])
        requires len_le_longest { len ≤ longest }
        requires len_in_bounds { length (header self) + len ≤ length (bits out.old) }
        ensures { bits out.new ≡ splice (bits out.old) 0 (header self) }
    {
        let size = self.header_len();
        let front = BitBuffer {
            start: 0,
            pos: 0,
            end: size + len,
            flag_autoexpand: false,
        };
        let _ = front.write_bits(out, self.header_value(), size);
    }

    // Puts the check sequence of the SDU behind it, where the FCS flag announces one.
    fn put_check(self, sdu: Part, out: &mut [u8])
        requires sdu_le_longest { sdu.len ≤ longest }
        requires self_in_bounds { length (header self) + sdu.len + check_bits self ≤ length (bits out.old) }
        ensures { bits out.new ≡ splice (bits out.old) (length (header self) + sdu.entry.len) (check_sequence self (bits_of sdu.entry)) }
    {
        if self.has_fcs() {
            put_sum(sum_of(sdu), self.header_len() + sdu.len, out);
        }
    }

    // The header, as a number.
    #[tactic(auto, unfolding(bits::specs::Bits::value))]
    fn header_value(self) -> u64
        ensures { result ≡ value (header self) }
    {
        match self {
            Pdu::BlAdata { has_fcs, nr, ns } => u64::from(has_fcs) * 16
                + u64::from(nr) * 2
                + u64::from(ns),
            Pdu::BlData { has_fcs, ns } => u64::from(has_fcs) * 8 + 2 + u64::from(ns),
            Pdu::BlUdata { has_fcs } => u64::from(has_fcs) * 4 + 2,
            Pdu::BlAck { has_fcs, nr } => u64::from(has_fcs) * 8 + 6 + u64::from(nr),
        }
    }
}

// Puts the SDU behind a header of so many bits.
fn put_sdu(sdu: Part, size: usize, out: &mut [u8])
    requires size_bound { size ≤ 6 }
    requires sdu_le_longest { sdu.len ≤ longest }
    requires sdu_in_bounds { size + sdu.len ≤ length (bits out.old) }
    ensures { bits out.new ≡ splice (bits out.old) size (bits_of sdu.entry) }
{
    let behind = BitBuffer {
        start: 0,
        pos: size,
        end: size + sdu.len,
        flag_autoexpand: false,
    };
    let source = BitBuffer {
        start: sdu.place,
        pos: sdu.place,
        end: sdu.place + sdu.len,
        flag_autoexpand: false,
    };
    let _ = behind.copy_bits(out, source, sdu.bytes, sdu.len);
}

// Puts check bits, which are given as a number, to a place.
fn put_sum(sum: u32, at: usize, out: &mut [u8])
    requires at_bound { at ≤ 6 + longest }
    requires fcs_bits_in_bounds { at + fcs_bits ≤ length (bits out.old) }
    ensures { bits out.new ≡ splice (bits out.old) at (to_bits fcs_bits sum) }
{
    let last = BitBuffer {
        start: 0,
        pos: at,
        end: at + FCS_BITS,
        flag_autoexpand: false,
    };
    let _ = last.write_bits(out, sum as u64, FCS_BITS);
}
