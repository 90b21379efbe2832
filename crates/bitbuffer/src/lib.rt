// A window of start, position and end over lent bytes, by value, from tetra-core's bitbuffer.rs. The first bit of a byte is
// its highest. Every method takes every window and any bytes, and asks first whether the two fit (question 5).
#![tactic(auto)]

mod reads;
mod writes;

ghost use Rattle.std.specs.Prelude.{◌≡◌, ◌≤◌, ◌*◌, true, false, leb, length, OnOk, IfErr};
ghost use Rattle.bits.specs.Bits.{bits};
ghost use Rattle.questions.specs.Outcome.{accepted, ask};
ghost use Rattle.questions.specs.Refusals.{outcome};
ghost use Rattle.bitbuffer.specs.Window.{valid, reach as reach_of, with_pos, first_bits, all_bits, no_bits, len, remaining, position, sought, sought_by, start_set, pos_set, end_set};
ghost use Rattle.questions.specs.declared.Refusal.{Refusal};
ghost use Rattle.bitbuffer.specs.Steps.{ahead as ahead_of, back as back_of, stepped};

use bits::within;
use questions::Refusal;

/// A window over lent bits.
#[repr(C)]
#[derive(Clone, Copy, Debug, PartialEq, Eq)]
pub struct BitBuffer {
    /// Bits before this are out of the window.
    pub start: usize,
    /// The next bit to read or write.
    pub pos: usize,
    /// Bits from this on are out of the window.
    pub end: usize,
    /// Does a write that crosses the end move it?
    pub flag_autoexpand: bool,
}

/// The two windows of a copy, moved past the bits that were copied.
#[repr(C)]
#[derive(Clone, Copy, Debug, PartialEq, Eq)]
pub struct Windows {
    /// The window that was written.
    pub to: BitBuffer,
    /// The window that was read.
    pub from: BitBuffer,
}

impl BitBuffer {
    /// The first len_bits of the lent bits, which do not expand.
    #[tactic(auto, unfolding(crate::specs::Window::valid))]
    pub fn new(bytes: &[u8], len_bits: usize) -> Result<BitBuffer, Refusal>
        ensures { outcome result ≡ first_bits (bits bytes.now) len_bits }
    {
        BitBuffer {
            start: 0,
            pos: 0,
            end: len_bits,
            flag_autoexpand: false,
        }
        .checked(bytes)
    }

    /// All of the lent bits, which do not expand.
    pub fn from_bytes(bytes: &[u8]) -> BitBuffer
        ensures { result ≡ all_bits (bits bytes.now) }
    {
        BitBuffer {
            start: 0,
            pos: 0,
            end: reach(bytes),
            flag_autoexpand: false,
        }
    }

    /// None of the lent bits yet: the window expands as it is written.
    pub fn new_autoexpand() -> BitBuffer
        ensures { result ≡ no_bits }
    {
        BitBuffer {
            start: 0,
            pos: 0,
            end: 0,
            flag_autoexpand: true,
        }
    }

    /// The bits from start to end.
    pub fn get_len(self, bytes: &[u8]) -> Result<usize, Refusal>
        ensures { outcome result ≡ len self (bits bytes.now) }
    {
        self.checked(bytes)?;
        Ok(self.end - self.start)
    }

    /// The bits from the position to the end.
    pub fn get_len_remaining(self, bytes: &[u8]) -> Result<usize, Refusal>
        ensures { outcome result ≡ remaining self (bits bytes.now) }
    {
        self.checked(bytes)?;
        Ok(self.end - self.pos)
    }

    /// The bits from start to the position.
    pub fn get_pos(self, bytes: &[u8]) -> Result<usize, Refusal>
        ensures { outcome result ≡ position self (bits bytes.now) }
    {
        self.checked(bytes)?;
        Ok(self.pos - self.start)
    }

    /// The start, counted from the first of the lent bits.
    pub fn get_raw_start(self) -> usize
        ensures { result ≡ self.start }
    {
        self.start
    }

    /// The position, counted from the first of the lent bits.
    pub fn get_raw_pos(self) -> usize
        ensures { result ≡ self.pos }
    {
        self.pos
    }

    /// The end, counted from the first of the lent bits.
    pub fn get_raw_end(self) -> usize
        ensures { result ≡ self.end }
    {
        self.end
    }

    /// To a place counted from the start, up to the end.
    pub fn seek(self, bytes: &[u8], offset: usize) -> Result<BitBuffer, Refusal>
        ensures { outcome result ≡ sought self (bits bytes.now) offset }
    {
        self.checked(bytes)?;
        self.at(self.start).ahead(offset)
    }

    /// To a place counted from the position, backwards where the offset is negative, from the start up to the end.
    pub fn seek_rel(self, bytes: &[u8], offset: isize) -> Result<BitBuffer, Refusal>
        ensures { outcome result ≡ sought_by self (bits bytes.now) offset }
    {
        self.checked(bytes)?;
        self.step(offset)
    }

    /// Another start, not past the position.
    #[tactic(auto, unfolding(crate::specs::Window::valid))]
    pub fn set_raw_start(self, bytes: &[u8], start: usize) -> Result<BitBuffer, Refusal>
        ensures { outcome result ≡ start_set self (bits bytes.now) start }
    {
        self.checked(bytes)?;
        BitBuffer { start, ..self }.checked(bytes)
    }

    /// Another position, from the start up to the end.
    #[tactic(auto, unfolding(crate::specs::Window::valid))]
    pub fn set_raw_pos(self, bytes: &[u8], pos: usize) -> Result<BitBuffer, Refusal>
        ensures { outcome result ≡ pos_set self (bits bytes.now) pos }
    {
        self.checked(bytes)?;
        self.at(pos).checked(bytes)
    }

    /// Another end, from the position up to the last of the lent bits.
    #[tactic(auto, unfolding(crate::specs::Window::valid))]
    pub fn set_raw_end(self, bytes: &[u8], end: usize) -> Result<BitBuffer, Refusal>
        ensures { outcome result ≡ end_set self (bits bytes.now) end }
    {
        self.checked(bytes)?;
        BitBuffer { end, ..self }.checked(bytes)
    }

    // The window, or number 5 where it is not in order or not inside the lent bytes.
    #[tactic(auto, using(crate::proofs::Bounds::lengths), unfolding(crate::specs::Window::valid))]
    fn checked(self, bytes: &[u8]) -> Result<BitBuffer, Refusal>
        ensures value { outcome result ≡ ask 5 (valid self (bits bytes.now)) (accepted self) }
        ensures ok { OnOk result ((valid self (bits bytes.now) ≡ true) × (self.start ≤ self.pos) × (self.pos ≤ self.end) × (self.end ≤ 8 * length bytes.now)) }
        ensures err { IfErr result (λ r. (valid self (bits bytes.now) ≡ false) × (r ≡ Refusal.OutOfRange)) }
    {
        if self.start <= self.pos && self.pos <= self.end && within(self.end, bytes) {
            Ok(self)
        } else {
            Err(Refusal::OutOfRange)
        }
    }

    // The window with another position.
    fn at(self, pos: usize) -> BitBuffer
        ensures { result ≡ with_pos self pos }
    {
        BitBuffer { pos, ..self }
    }

    // The window n bits on, up to the end.
    fn ahead(self, n: usize) -> Result<BitBuffer, Refusal>
        requires { self.pos ≤ self.end }
        ensures { outcome result ≡ ahead_of self n }
    {
        if self.end - self.pos < n {
            return Err(Refusal::OutOfRange);
        }
        Ok(self.at(self.pos + n))
    }

    // The window n bits back, down to the start.
    fn back(self, n: usize) -> Result<BitBuffer, Refusal>
        requires { self.start ≤ self.pos }
        ensures { outcome result ≡ back_of self n }
    {
        if self.pos - self.start < n {
            return Err(Refusal::OutOfRange);
        }
        Ok(self.at(self.pos - n))
    }

    // The window by an offset with sign, from the start up to the end.
    fn step(self, offset: isize) -> Result<BitBuffer, Refusal>
        requires start_le_pos { self.start ≤ self.pos }
        requires pos_le_end { self.pos ≤ self.end }
        ensures { outcome result ≡ stepped self offset }
    {
        let n = offset.unsigned_abs();
        if offset < 0 {
            self.back(n)
        } else {
            self.ahead(n)
        }
    }
}

// The lent bits that a position can reach.
#[tactic(auto, using(crate::proofs::Bounds::lengths))]
fn reach(bytes: &[u8]) -> usize
    ensures { result ≡ reach_of (bits bytes.now) }
{
    bytes.len().saturating_mul(8)
}
