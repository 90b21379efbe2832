// Writes: every question is asked first, and a refusal changes nothing.
ghost use Rattle.std.specs.Prelude.{◌+◌, ◌*◌, ◌^◌, ◌≤◌, ◌<◌, ◌≡◌, ◌&&◌, cond, leb, ltb, length, replicate, OnOk};
ghost use Rattle.std.specs.Bool.{OnTrue};
ghost use Rattle.bits.specs.Bits.{bits};
ghost use Rattle.questions.specs.Effect.{effect};
ghost use Rattle.questions.specs.Outcome.{accepted, ask};
ghost use Rattle.questions.specs.Refusals.{outcome};
ghost use Rattle.bitbuffer.specs.Window.{with_pos, with_end};
ghost use Rattle.bitbuffer.specs.Writes.{room, widths, after_all, written as written_of, written_all, copied as copied_of, copied_from_pos};

use crate::{BitBuffer, Windows, reach};
use bit_fields::{copy, fill, put};
use bits::Part;
use questions::Refusal;

impl BitBuffer {
    /// Writes a value as up to 64 bits, which it fits, and moves the window past them.
    #[tactic(auto, using(crate::proofs::Widths::one_width))]
    pub fn write_bits(
        self,
        bytes: &mut [u8],
        value: u64,
        num_bits: usize,
    ) -> Result<BitBuffer, Refusal>
        ensures { effect (outcome result) (bits bytes.new) ≡ written_of self (bits bytes.old) value num_bits }
    {
        self.checked(bytes)?;
        if !fits(value, num_bits) {
            return Err(Refusal::OutOfRange);
        }
        let after = self.after(bytes, num_bits)?;
        put(bytes, self.pos, num_bits, value);
        Ok(after)
    }

    /// Writes a bit, 0 or 1.
    pub fn write_bit(self, bytes: &mut [u8], value: u8) -> Result<BitBuffer, Refusal>
        ensures { effect (outcome result) (bits bytes.new) ≡ written_of self (bits bytes.old) value 1 }
    {
        self.write_bits(bytes, value as u64, 1)
    }

    /// Writes any number of zeroes.
    pub fn write_zeroes(self, bytes: &mut [u8], num_bits: usize) -> Result<BitBuffer, Refusal>
        ensures { effect (outcome result) (bits bytes.new) ≡ written_all self (bits bytes.old) (replicate num_bits 0) }
    {
        self.write_alike(bytes, num_bits, false)
    }

    /// Writes any number of ones.
    pub fn write_ones(self, bytes: &mut [u8], num_bits: usize) -> Result<BitBuffer, Refusal>
        ensures { effect (outcome result) (bits bytes.new) ≡ written_all self (bits bytes.old) (replicate num_bits 1) }
    {
        self.write_alike(bytes, num_bits, true)
    }

    /// Writes the next bits of a source, and moves both windows past them.
    #[tactic(auto, using(bits::proofs::PartLaws::part_from))]
    pub fn copy_bits(
        self,
        bytes: &mut [u8],
        source: BitBuffer,
        src: &[u8],
        num_bits: usize,
    ) -> Result<Windows, Refusal>
        ensures { effect (outcome result) (bits bytes.new) ≡ copied_of self (bits bytes.old) source (bits src.now) num_bits }
    {
        self.checked(bytes)?;
        let from = source.checked(src)?.ahead(num_bits)?;
        let to = self.after(bytes, num_bits)?;
        let bits = Part {
            bytes: &src[source.pos / 8..],
            place: source.pos % 8,
            len: num_bits,
        };
        copy(bits, bytes, self.pos);
        Ok(Windows { to, from })
    }

    /// Copies the bytes that hold the bits from the position to the end, and gives a window over those bits there.
    pub fn from_bitbuffer_pos(self, bytes: &[u8], out: &mut [u8]) -> Result<BitBuffer, Refusal>
        ensures { effect (outcome result) (bits out.new) ≡ copied_from_pos self (bits bytes.now) (bits out.old) }
    {
        self.checked(bytes)?;
        let first = self.pos / 8;
        let count = self.end.div_ceil(8) - first;
        if out.len() < count {
            return Err(Refusal::NoRoom);
        }
        copy_whole(&bytes[first..first + count], &mut out[..count]);
        let start = self.pos % 8;
        Ok(BitBuffer {
            start,
            pos: start,
            end: start + (self.end - self.pos),
            flag_autoexpand: false,
        })
    }

    // Writes n times a bit.
    fn write_alike(self, bytes: &mut [u8], n: usize, bit: bool) -> Result<BitBuffer, Refusal>
        ensures { effect (outcome result) (bits bytes.new) ≡ written_all self (bits bytes.old) (replicate n (cond bit 1 0)) }
    {
        self.checked(bytes)?;
        let after = self.after(bytes, n)?;
        fill(bytes, self.pos, n, bit);
        Ok(after)
    }

    // The window after n bits are written, or number 8 where there is no room for them: before the end, or in the lent bytes
    // where it expands.
    #[tactic(auto, using(crate::proofs::Bounds::lengths))]
    fn after(self, bytes: &[u8], n: usize) -> Result<BitBuffer, Refusal>
        requires pos_le_end { self.pos ≤ self.end }
        requires end_inside { self.end ≤ 8 * length bytes.now }
        ensures value { outcome result ≡ ask 8 (room self (bits bytes.now) (after_all self (widths n)).end) (accepted (after_all self (widths n))) }
        ensures within { OnOk result ((self.pos + n ≤ 8 * length bytes.now) × (self.pos + n < 2 ^ 64)) }
    {
        let more = self.growth(n);
        if more == 0 || self.flag_autoexpand && more <= reach(bytes) - self.end {
            Ok(BitBuffer {
                pos: self.pos + n,
                end: self.end + more,
                ..self
            })
        } else {
            Err(Refusal::NoRoom)
        }
    }

    // How far a write of n bits moves the end: by each width of 64 and by what is left after them, where that crosses it.
    #[tactic(auto, using(crate::proofs::Widths::growing), unfolding(crate::proofs::Widths::end_after_all))]
    fn growth(self, n: usize) -> usize
        requires { self.pos ≤ self.end }
        ensures value { after_all self (widths n) ≡ with_end (with_pos self (self.pos + n)) (self.end + result) }
        ensures reached { self.pos + n ≤ self.end + result }
    {
        let left = self.end - self.pos;
        if n <= left {
            return 0;
        }
        let whole = 64 * (n / 64 - left / 64);
        if n % 64 <= left % 64 {
            return whole;
        }
        whole + n % 64
    }
}

// Does a value fit into so many bits, and are they at most 64?
fn fits(value: u64, num_bits: usize) -> bool
    ensures value { result ≡ leb num_bits 64 && ltb value (2 ^ num_bits) }
    ensures few { OnTrue result (num_bits ≤ 64) }
{
    if 64 <= num_bits {
        return num_bits == 64;
    }
    value < (1 << num_bits)
}

// The bytes of src in place of those of dst, one by one: `copy_from_slice` calls memmove, which a program for bare metal may lack.
fn copy_whole(src: &[u8], dst: &mut [u8])
    requires { length src.now ≡ length dst.old }
    ensures { dst.new ≡ src.now }
{
    for (i, b) in dst.iter_mut().enumerate() {
        *b = src[i];
    }
}
