// New windows, their lengths and places, and their bounds set anew, by the methods of BitBuffer.
ghost use Rattle.std.specs.Prelude.{◌≡◌};
ghost use Rattle.bits.specs.Bits.{bits};
ghost use Rattle.bitbuffer.specs.Window.{first_bits, all_bits, no_bits, len, remaining, position, sought, sought_by, start_set, pos_set, end_set};
ghost use Rattle.leaf_exports.specs.Windows.{window_of, count_of};

use crate::answers::WindowAnswer;
use bitbuffer::BitBuffer;

/// new, where a refusal leaves the window w.
#[unsafe(no_mangle)]
pub extern "C" fn leaf_new(w: BitBuffer, bytes: &[u8], len_bits: usize) -> WindowAnswer
    ensures { result ≡ window_of w (first_bits (bits bytes.now) len_bits) }
{
    WindowAnswer::of_window(w, BitBuffer::new(bytes, len_bits))
}

/// from_bytes.
#[unsafe(no_mangle)]
pub extern "C" fn leaf_from_bytes(bytes: &[u8]) -> BitBuffer
    ensures { result ≡ all_bits (bits bytes.now) }
{
    BitBuffer::from_bytes(bytes)
}

/// new_autoexpand.
#[unsafe(no_mangle)]
pub extern "C" fn leaf_new_autoexpand() -> BitBuffer
    ensures { result ≡ no_bits }
{
    BitBuffer::new_autoexpand()
}

/// get_len.
#[unsafe(no_mangle)]
pub extern "C" fn leaf_get_len(w: BitBuffer, bytes: &[u8]) -> WindowAnswer
    ensures { result ≡ count_of w (len w (bits bytes.now)) }
{
    WindowAnswer::of_count(w, w.get_len(bytes))
}

/// get_len_remaining.
#[unsafe(no_mangle)]
pub extern "C" fn leaf_get_len_remaining(w: BitBuffer, bytes: &[u8]) -> WindowAnswer
    ensures { result ≡ count_of w (remaining w (bits bytes.now)) }
{
    WindowAnswer::of_count(w, w.get_len_remaining(bytes))
}

/// get_pos.
#[unsafe(no_mangle)]
pub extern "C" fn leaf_get_pos(w: BitBuffer, bytes: &[u8]) -> WindowAnswer
    ensures { result ≡ count_of w (position w (bits bytes.now)) }
{
    WindowAnswer::of_count(w, w.get_pos(bytes))
}

/// get_raw_start.
#[unsafe(no_mangle)]
pub extern "C" fn leaf_get_raw_start(w: BitBuffer) -> usize
    ensures { result ≡ w.start }
{
    w.get_raw_start()
}

/// get_raw_pos.
#[unsafe(no_mangle)]
pub extern "C" fn leaf_get_raw_pos(w: BitBuffer) -> usize
    ensures { result ≡ w.pos }
{
    w.get_raw_pos()
}

/// get_raw_end.
#[unsafe(no_mangle)]
pub extern "C" fn leaf_get_raw_end(w: BitBuffer) -> usize
    ensures { result ≡ w.end }
{
    w.get_raw_end()
}

/// seek.
#[unsafe(no_mangle)]
pub extern "C" fn leaf_seek(w: BitBuffer, bytes: &[u8], offset: usize) -> WindowAnswer
    ensures { result ≡ window_of w (sought w (bits bytes.now) offset) }
{
    WindowAnswer::of_window(w, w.seek(bytes, offset))
}

/// seek_rel.
#[unsafe(no_mangle)]
pub extern "C" fn leaf_seek_rel(w: BitBuffer, bytes: &[u8], offset: isize) -> WindowAnswer
    ensures { result ≡ window_of w (sought_by w (bits bytes.now) offset) }
{
    WindowAnswer::of_window(w, w.seek_rel(bytes, offset))
}

/// set_raw_start.
#[unsafe(no_mangle)]
pub extern "C" fn leaf_set_raw_start(w: BitBuffer, bytes: &[u8], start: usize) -> WindowAnswer
    ensures { result ≡ window_of w (start_set w (bits bytes.now) start) }
{
    WindowAnswer::of_window(w, w.set_raw_start(bytes, start))
}

/// set_raw_pos.
#[unsafe(no_mangle)]
pub extern "C" fn leaf_set_raw_pos(w: BitBuffer, bytes: &[u8], pos: usize) -> WindowAnswer
    ensures { result ≡ window_of w (pos_set w (bits bytes.now) pos) }
{
    WindowAnswer::of_window(w, w.set_raw_pos(bytes, pos))
}

/// set_raw_end.
#[unsafe(no_mangle)]
pub extern "C" fn leaf_set_raw_end(w: BitBuffer, bytes: &[u8], end: usize) -> WindowAnswer
    ensures { result ≡ window_of w (end_set w (bits bytes.now) end) }
{
    WindowAnswer::of_window(w, w.set_raw_end(bytes, end))
}
