// Peeks and reads, by the methods of BitBuffer.
ghost use Rattle.std.specs.Prelude.{◌≡◌};
ghost use Rattle.bits.specs.Bits.{bits};
ghost use Rattle.bitbuffer.specs.Reads.{peeked, peeked_from_start, peeked_from_pos, read};
ghost use Rattle.leaf_exports.specs.Windows.{found_of, got_of};

use crate::answers::WindowAnswer;
use bitbuffer::BitBuffer;

/// peek_bits.
#[unsafe(no_mangle)]
pub extern "C" fn leaf_peek_bits(w: BitBuffer, bytes: &[u8], num_bits: usize) -> WindowAnswer
    ensures { result ≡ found_of w (peeked w (bits bytes.now) num_bits) }
{
    WindowAnswer::of_peeked(w, w.peek_bits(bytes, num_bits))
}

/// peek_bits_startoffset.
#[unsafe(no_mangle)]
pub extern "C" fn leaf_peek_bits_startoffset(
    w: BitBuffer,
    bytes: &[u8],
    offset: usize,
    num_bits: usize,
) -> WindowAnswer
    ensures { result ≡ found_of w (peeked_from_start w (bits bytes.now) offset num_bits) }
{
    WindowAnswer::of_peeked(w, w.peek_bits_startoffset(bytes, offset, num_bits))
}

/// peek_bits_posoffset.
#[unsafe(no_mangle)]
pub extern "C" fn leaf_peek_bits_posoffset(
    w: BitBuffer,
    bytes: &[u8],
    offset: isize,
    num_bits: usize,
) -> WindowAnswer
    ensures { result ≡ found_of w (peeked_from_pos w (bits bytes.now) offset num_bits) }
{
    WindowAnswer::of_peeked(w, w.peek_bits_posoffset(bytes, offset, num_bits))
}

/// read_bits.
#[unsafe(no_mangle)]
pub extern "C" fn leaf_read_bits(w: BitBuffer, bytes: &[u8], num_bits: usize) -> WindowAnswer
    ensures { result ≡ got_of w (read w (bits bytes.now) num_bits) }
{
    WindowAnswer::of_read(w, w.read_bits(bytes, num_bits))
}

/// read_bit.
#[unsafe(no_mangle)]
pub extern "C" fn leaf_read_bit(w: BitBuffer, bytes: &[u8]) -> WindowAnswer
    ensures { result ≡ got_of w (read w (bits bytes.now) 1) }
{
    WindowAnswer::of_read(w, w.read_bit(bytes))
}
