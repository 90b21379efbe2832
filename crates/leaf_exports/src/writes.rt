// Writes and copies, by the methods of BitBuffer.
ghost use Rattle.std.specs.Prelude.{◌≡◌, replicate};
ghost use Rattle.bits.specs.Bits.{bits};
ghost use Rattle.bitbuffer.specs.Writes.{written, written_all, copied, copied_from_pos};
ghost use Rattle.leaf_exports.specs.Windows.{window_of, copy_of};

use crate::answers::{CopyAnswer, WindowAnswer};
use bitbuffer::BitBuffer;

/// write_bits.
#[unsafe(no_mangle)]
pub extern "C" fn leaf_write_bits(
    w: BitBuffer,
    bytes: &mut [u8],
    value: u64,
    num_bits: usize,
) -> WindowAnswer
    ensures value { result ≡ window_of w (written w (bits bytes.old) value num_bits).answer }
    ensures bytes_after { bits bytes.new ≡ (written w (bits bytes.old) value num_bits).bits }
{
    WindowAnswer::of_window(w, w.write_bits(bytes, value, num_bits))
}

/// write_bit.
#[unsafe(no_mangle)]
pub extern "C" fn leaf_write_bit(w: BitBuffer, bytes: &mut [u8], value: u8) -> WindowAnswer
    ensures value { result ≡ window_of w (written w (bits bytes.old) value 1).answer }
    ensures bytes_after { bits bytes.new ≡ (written w (bits bytes.old) value 1).bits }
{
    WindowAnswer::of_window(w, w.write_bit(bytes, value))
}

/// write_zeroes.
#[unsafe(no_mangle)]
pub extern "C" fn leaf_write_zeroes(w: BitBuffer, bytes: &mut [u8], num_bits: usize) -> WindowAnswer
    ensures value { result ≡ window_of w (written_all w (bits bytes.old) (replicate num_bits 0)).answer }
    ensures bytes_after { bits bytes.new ≡ (written_all w (bits bytes.old) (replicate num_bits 0)).bits }
{
    WindowAnswer::of_window(w, w.write_zeroes(bytes, num_bits))
}

/// write_ones.
#[unsafe(no_mangle)]
pub extern "C" fn leaf_write_ones(w: BitBuffer, bytes: &mut [u8], num_bits: usize) -> WindowAnswer
    ensures value { result ≡ window_of w (written_all w (bits bytes.old) (replicate num_bits 1)).answer }
    ensures bytes_after { bits bytes.new ≡ (written_all w (bits bytes.old) (replicate num_bits 1)).bits }
{
    WindowAnswer::of_window(w, w.write_ones(bytes, num_bits))
}

/// copy_bits.
#[unsafe(no_mangle)]
pub extern "C" fn leaf_copy_bits(
    w: BitBuffer,
    bytes: &mut [u8],
    v: BitBuffer,
    src: &[u8],
    num_bits: usize,
) -> CopyAnswer
    ensures value { result ≡ copy_of w v (copied w (bits bytes.old) v (bits src.now) num_bits).answer }
    ensures bytes_after { bits bytes.new ≡ (copied w (bits bytes.old) v (bits src.now) num_bits).bits }
{
    CopyAnswer::of(w, v, w.copy_bits(bytes, v, src, num_bits))
}

/// from_bitbuffer_pos.
#[unsafe(no_mangle)]
pub extern "C" fn leaf_from_bitbuffer_pos(
    w: BitBuffer,
    bytes: &[u8],
    out: &mut [u8],
) -> WindowAnswer
    ensures value { result ≡ window_of w (copied_from_pos w (bits bytes.now) (bits out.old)).answer }
    ensures out_after { bits out.new ≡ (copied_from_pos w (bits bytes.now) (bits out.old)).bits }
{
    WindowAnswer::of_window(w, w.from_bitbuffer_pos(bytes, out))
}
