// Bytes as lists of bits: the definitions in specs/Bits.antt, their laws in proofs/, one question, and bits that are lent.
#![tactic(auto)]

mod cuts;
mod parts;

ghost use Rattle.std.specs.Prelude.{◌≡◌, leb, length};
ghost use Rattle.bits.specs.Bits.{bits};

pub use parts::Part;

/// Do the bytes have so many bits? The bytes are counted, since eight times their number may be above any usize.
pub fn within(count: usize, bytes: &[u8]) -> bool
    ensures { result ≡ leb count (length (bits bytes.now)) }
{
    count / 8 + (count % 8 + 7) / 8 <= bytes.len()
}
