// The leaves for a program in another language, to compare and to measure them there.
#![tactic(auto)]

mod answers;
mod frames;
mod reads;
mod receipts;
mod times;
mod windows;
mod writes;

ghost use Rattle.std.specs.Prelude.{false, ◌≡◌};
ghost use Rattle.bits.specs.Bits.{bits};
ghost use Rattle.fcs.specs.Answers.{computed};
ghost use Rattle.questions.specs.Refusals.{outcome};
ghost use Rattle.llc_pdus.specs.Answers.{read_from};
ghost use Rattle.llc_pdus.specs.Writes.{written};
ghost use Rattle.leaf_exports.specs.Numbers.{sum_or, first_or};

use llc_pdus::Pdu;
use questions::Refusal;

/// The check bits of so many bits of a part from a place on.
#[unsafe(no_mangle)]
pub extern "C" fn leaf_fcs(part: &[u8], at: usize, len: usize) -> u64
    ensures { result ≡ sum_or (computed (bits part.now) at len) }
{
    number_or(fcs::compute_fcs(part, at, len).map(u64::from))
}

/// The place of the first bit of a frame's SDU.
#[unsafe(no_mangle)]
pub extern "C" fn leaf_read(frame: &[u8], len: usize) -> u64
    ensures { result ≡ first_or (read_from (bits frame.now) len) }
{
    number_or(llc_pdus::from_bitbuf(frame, len).map(|(_, sdu)| sdu.first as u64))
}

/// Writes a BL-DATA without FCS flag and with N(S) 0, and so many bits of an SDU from a place on: the frame's length.
#[unsafe(no_mangle)]
pub extern "C" fn leaf_write(out: &mut [u8], sdu: &[u8], from: usize, len: usize) -> u64
    ensures value { result ≡ sum_or (written (Pdu.BlData false false) (bits out.old) (bits sdu.now) from len).answer }
    ensures out_after { bits out.new ≡ (written (Pdu.BlData false false) (bits out.old) (bits sdu.now) from len).bits }
{
    let pdu = Pdu::BlData {
        has_fcs: false,
        ns: false,
    };
    number_or(llc_pdus::to_bitbuf(pdu, sdu, from, len, out).map(|n| n as u64))
}

// An answer as one number: a refusal is 2 ^ 32 and document 01's.
fn number_or(answered: Result<u64, Refusal>) -> u64
    ensures { result ≡ sum_or (outcome answered) }
{
    match answered {
        Ok(n) => n,
        Err(r) => 4_294_967_296 + u8::from(r) as u64,
    }
}
