// Frames read and written, their check bits checked, and the sixteen types.
ghost use Rattle.std.specs.Prelude.{◌≡◌};
ghost use Rattle.bits.specs.Bits.{bits};
ghost use Rattle.questions.specs.Outcome.{number as number_of};
ghost use Rattle.fcs.specs.Answers.{check};
ghost use Rattle.llc_pdus.specs.Answers.{answered, read_from};
ghost use Rattle.llc_pdus.specs.Types.{from_raw};
ghost use Rattle.llc_pdus.specs.Writes.{written};
ghost use Rattle.leaf_exports.specs.Frames.{pdu_numbered, frame_answer};
ghost use Rattle.leaf_exports.specs.Numbers.{sum_or, raw_or};

use crate::number_or;
use llc_pdus::{LlcPduType, Pdu, Sdu};
use questions::Refusal;

/// What reading a frame answers; past a refusal all is 0.
#[repr(C)]
#[derive(Clone, Copy, Default)]
pub struct FrameAnswer {
    /// Document 01's number, 0 where it is accepted.
    pub number: u8,
    /// The type, 0 to 3.
    pub kind: u8,
    /// The FCS flag.
    pub has_fcs: bool,
    /// N(R), if the type has one.
    pub nr: bool,
    /// N(S), if the type has one.
    pub ns: bool,
    /// The SDU's first bit's place in the frame.
    pub first: usize,
    /// How many bits the SDU has.
    pub len: usize,
    /// Its first bit's place in the bytes that hold it.
    pub place: usize,
}

/// from_bitbuf.
#[unsafe(no_mangle)]
pub extern "C" fn leaf_from_bitbuf(frame: &[u8], len: usize) -> FrameAnswer
    ensures { result ≡ frame_answer (read_from (bits frame.now) len) }
{
    llc_pdus::from_bitbuf(frame, len).into()
}

/// to_bitbuf of the PDU with a type and its flags.
#[unsafe(no_mangle)]
pub extern "C" fn leaf_to_bitbuf(
    kind: u8,
    has_fcs: bool,
    nr: bool,
    ns: bool,
    out: &mut [u8],
    sdu: &[u8],
    from: usize,
    len: usize,
) -> u64
    ensures value { result ≡ sum_or (written (pdu_numbered kind has_fcs nr ns) (bits out.old) (bits sdu.now) from len).answer }
    ensures out_after { bits out.new ≡ (written (pdu_numbered kind has_fcs nr ns) (bits out.old) (bits sdu.now) from len).bits }
{
    let pdu = pdu_numbered(kind, has_fcs, nr, ns);
    number_or(llc_pdus::to_bitbuf(pdu, sdu, from, len, out).map(|n| n as u64))
}

/// check_fcs of so many bits of a part from a place on: the number, 0 where the check is right.
#[unsafe(no_mangle)]
pub extern "C" fn leaf_check_fcs(part: &[u8], at: usize, len: usize) -> u64
    ensures { result ≡ number_of (check (bits part.now) at len) }
{
    match fcs::check_fcs(part, at, len) {
        Ok(()) => 0,
        Err(r) => u8::from(r) as u64,
    }
}

/// The number of the type with a number.
#[unsafe(no_mangle)]
pub extern "C" fn leaf_type(x: u64) -> u64
    ensures { result ≡ raw_or (from_raw x) }
{
    number_or(LlcPduType::try_from(x).map(u64::from))
}

// The PDU with a type and its flags.
fn pdu_numbered(kind: u8, has_fcs: bool, nr: bool, ns: bool) -> Pdu
    ensures { result ≡ pdu_numbered kind has_fcs nr ns }
{
    match kind {
        0 => Pdu::BlAdata { has_fcs, nr, ns },
        1 => Pdu::BlData { has_fcs, ns },
        2 => Pdu::BlUdata { has_fcs },
        _ => Pdu::BlAck { has_fcs, nr },
    }
}

impl From<Result<(Pdu, Sdu), Refusal>> for FrameAnswer {
    ghost from_gives = { λ r a. a ≡ frame_answer (answered r) };

    // A frame that is read, or the number of the refusal.
    fn from(r: Result<(Pdu, Sdu), Refusal>) -> FrameAnswer {
        match r {
            Ok((pdu, sdu)) => {
                let (kind, has_fcs, nr, ns) = match pdu {
                    Pdu::BlAdata { has_fcs, nr, ns } => (0, has_fcs, nr, ns),
                    Pdu::BlData { has_fcs, ns } => (1, has_fcs, false, ns),
                    Pdu::BlUdata { has_fcs } => (2, has_fcs, false, false),
                    Pdu::BlAck { has_fcs, nr } => (3, has_fcs, nr, false),
                };
                FrameAnswer {
                    number: 0,
                    kind,
                    has_fcs,
                    nr,
                    ns,
                    first: sdu.first,
                    len: sdu.len,
                    place: sdu.place,
                }
            }
            Err(refusal) => FrameAnswer {
                number: refusal.into(),
                ..FrameAnswer::default()
            },
        }
    }
}
