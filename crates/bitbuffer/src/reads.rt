// Peeks and reads: past the end, or above 64 bits, they give nothing and move nothing.
ghost use Rattle.std.specs.Prelude.{◌*◌, ◌≤◌, ◌≡◌, length};
ghost use Rattle.bits.specs.Bits.{bits};
ghost use Rattle.bitbuffer.specs.Reads.{peeked_at, peeked as peeked_of, peeked_from_start, peeked_from_pos, read as read_of};
ghost use Rattle.bitbuffer.specs.Answers.{to_found, peeked, read};

use crate::BitBuffer;
use bit_fields::get;
use questions::Refusal;

impl BitBuffer {
    /// The next bits, as a number, or nothing where they are more than 64 or not all before the end.
    pub fn peek_bits(self, bytes: &[u8], num_bits: usize) -> Result<Option<u64>, Refusal>
        ensures { peeked result ≡ peeked_of self (bits bytes.now) num_bits }
    {
        self.checked(bytes)?;
        Ok(self.peek_at(bytes, self.pos, num_bits))
    }

    /// The bits from a place on that is counted from the start.
    pub fn peek_bits_startoffset(
        self,
        bytes: &[u8],
        offset: usize,
        num_bits: usize,
    ) -> Result<Option<u64>, Refusal>
        ensures { peeked result ≡ peeked_from_start self (bits bytes.now) offset num_bits }
    {
        self.checked(bytes)?;
        if self.end - self.start < offset {
            return Ok(None);
        }
        Ok(self.peek_at(bytes, self.start + offset, num_bits))
    }

    /// The bits from a place on that is counted from the position, backwards where the offset is negative.
    pub fn peek_bits_posoffset(
        self,
        bytes: &[u8],
        offset: isize,
        num_bits: usize,
    ) -> Result<Option<u64>, Refusal>
        ensures { peeked result ≡ peeked_from_pos self (bits bytes.now) offset num_bits }
    {
        self.checked(bytes)?;
        match self.step(offset) {
            Ok(w) => Ok(self.peek_at(bytes, w.pos, num_bits)),
            Err(_) => Ok(None),
        }
    }

    /// The next bits, as a number, and the window moved past them; or nothing, as a peek.
    pub fn read_bits(
        self,
        bytes: &[u8],
        num_bits: usize,
    ) -> Result<Option<(u64, BitBuffer)>, Refusal>
        ensures { read result ≡ read_of self (bits bytes.now) num_bits }
    {
        match self.peek_bits(bytes, num_bits)? {
            Some(value) => Ok(Some((value, self.at(self.pos + num_bits)))),
            None => Ok(None),
        }
    }

    /// The next bit, and the window moved past it.
    pub fn read_bit(self, bytes: &[u8]) -> Result<Option<(u64, BitBuffer)>, Refusal>
        ensures { read result ≡ read_of self (bits bytes.now) 1 }
    {
        self.read_bits(bytes, 1)
    }

    // The bits from a place up to the end on.
    fn peek_at(self, bytes: &[u8], at: usize, n: usize) -> Option<u64>
        requires at_le_end { at ≤ self.end }
        requires end_inside { self.end ≤ 8 * length bytes.now }
        ensures { to_found result ≡ peeked_at self (bits bytes.now) at n }
    {
        if 64 < n || self.end - at < n {
            return None;
        }
        Some(get(bytes, at, n))
    }
}
