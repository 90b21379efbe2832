// A frame taken apart: its header, its check sequence, and the SDU between them.
ghost use Rattle.std.specs.Prelude.{◌≡◌};
ghost use Rattle.bits.specs.Bits.{bits};
ghost use Rattle.questions.specs.Refusals.{outcome};
ghost use Rattle.llc_pdus.specs.Answers.{answered, read_from};
ghost use Rattle.llc_pdus.specs.Sdus.{sdu_at, handed, handed_back};

use crate::{Pdu, Sdu};
use fcs::{FCS_BITS, check_fcs};
use questions::Refusal;

/// The PDU of a frame of so many bits, and where its SDU lies, which ends before the check bits where the FCS flag is set. The
/// check is lent the bytes from the header's last byte onwards, and told how many bits stand behind the header.
// Put into its callers, which use one number of the answer or take it apart: called, it answers through memory, in twice the time.
#[inline(always)]
pub fn from_bitbuf(frame: &[u8], len: usize) -> Result<(Pdu, Sdu), Refusal>
    ensures { answered result ≡ read_from (bits frame.now) len }
{
    let pdu = Pdu::read_header(frame, len)?;
    let first = pdu.header_len();
    let behind = len - first;
    if !pdu.has_fcs() {
        return Ok((pdu, Sdu::at(first, behind)));
    }
    let end = pdu.header_end();
    let k = end.byte;
    check_fcs(&frame[k..], end.bits, behind)?;
    Ok((pdu, Sdu::at(first, behind - FCS_BITS)))
}

impl Sdu {
    // An SDU from a place of the frame on.
    fn at(first: usize, len: usize) -> Sdu
        ensures { result ≡ sdu_at first len }
    {
        Sdu {
            first,
            len,
            place: if len == 0 { 0 } else { first % 8 },
        }
    }
}

/// The bytes of a frame that hold an SDU, from its first to its last; none for an empty one. Number 5 for an SDU that does not
/// lie in the frame.
pub fn sdu_bytes<'a>(frame: &'a [u8], sdu: Sdu) -> Result<&'a [u8], Refusal>
    ensures { handed_back result ≡ handed frame.now sdu }
{
    let a = sdu.first / 8;
    let e = a + sdu.len / 8 + (sdu.first % 8 + sdu.len % 8 + 7) / 8;
    if frame.len() < e {
        return Err(Refusal::OutOfRange);
    }
    if sdu.len == 0 {
        return Ok(&frame[..0]);
    }
    Ok(&frame[a..e])
}
