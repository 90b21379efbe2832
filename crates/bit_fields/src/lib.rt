// The bits of one field in lent bytes, and a copy of many. A place counts bits from the first byte's highest; inside one
// field, places count from the field's first byte.
#![tactic(auto)]

ghost use Rattle.std.specs.Prelude.{◌+◌, ◌-◌, ◌*◌, ◌/◌, ◌%◌, ◌^◌, ◌≤◌, ◌<◌, ◌≡◌, ◌++◌, cond, length, replicate};
ghost use Rattle.bits.specs.Bits.{to_bits, value, bits, part, splice};
ghost use Rattle.bits.specs.Parts.{bits_of};

use bits::Part;

/// The number that n bits from a place on spell.
pub fn get(bytes: &[u8], at: usize, n: usize) -> u64
    requires n_bound { n ≤ 64 }
    requires n_bound_2 { at + n ≤ 8 * length bytes.now }
    ensures { result ≡ value (part (bits bytes.now) at n) }
{
    get_from(bytes, at / 8, at % 8, n)
}

// The same for a field whose first byte and place in it are given.
#[tactic(auto, using(crate::proofs::Reading::has_room))]
fn get_from(bytes: &[u8], first: usize, place: usize, n: usize) -> u64
    requires place_bound { place < 8 }
    requires n_bound { n ≤ 64 }
    requires n_bound_2 { 8 * first + place + n ≤ 8 * length bytes.now }
    ensures { result ≡ value (part (bits bytes.now) (8 * first + place) n) }
{
    let mut r: u64 = 0;
    let mut p = place;
    let mut left = n;
    // A step takes the bits that are left in a byte: fewer in the first and in the last.
    while 0 < left {
        let room = 8 - p % 8;
        let h = left.min(room);
        r = joined(r, h, piece(bytes[first + p / 8], room - h, h));
        p += h;
        left -= h;
    }
    r
}

/// Puts n bits of v at a place.
pub fn put(bytes: &mut [u8], at: usize, n: usize, v: u64)
    requires n_bound { n ≤ 64 }
    requires n_bound_2 { at + n ≤ 8 * length bytes.old }
    ensures { bits bytes.new ≡ splice (bits bytes.old) at (to_bits n v) }
{
    put_from(bytes, at / 8, at % 8, n, v)
}

// The same for a field whose first byte and place in it are given.
fn put_from(bytes: &mut [u8], first: usize, place: usize, n: usize, v: u64)
    requires place_bound { place < 8 }
    requires n_bound { n ≤ 64 }
    requires n_bound_2 { 8 * first + place + n ≤ 8 * length bytes.old }
    ensures { bits bytes.new ≡ splice (bits bytes.old) (8 * first + place) (to_bits n v) }
{
    let mut p = place;
    let mut left = n;
    // A step takes the bits that are left in a byte: fewer in the first and in the last.
    while 0 < left {
        let room = 8 - p % 8;
        let h = left.min(room);
        let q = first + p / 8;
        bytes[q] = replaced(bytes[q], room - h, h, v >> (left - h));
        p += h;
        left -= h;
    }
}

/// Puts n times a bit at a place, by up to 64 at once.
pub fn fill(bytes: &mut [u8], at: usize, n: usize, bit: bool)
    requires n_bound { at + n ≤ 8 * length bytes.old }
    requires n_bound_2 { at + n < 2 ^ 64 }
    ensures { bits bytes.new ≡ splice (bits bytes.old) at (replicate n (cond bit 1 0)) }
{
    let pattern = u64::from(bit) * u64::MAX;
    let whole = n / 64;
    for i in 0..whole {
        put(bytes, at + 64 * i, 64, pattern);
    }
    put(bytes, at + 64 * whole, n - 64 * whole, pattern);
}

/// Puts the bits of src at a place of dst: up to the next whole byte, whole bytes, and what is left.
pub fn copy(src: Part, dst: &mut [u8], at: usize)
    requires len_bound { at + src.len ≤ 8 * length dst.old }
    requires len_bound_2 { at + src.len < 2 ^ 64 }
    ensures { bits dst.new ≡ splice (bits dst.old) at (bits_of src.entry) }
{
    let room = 8 - at % 8;
    if src.len <= room {
        copy_field(src, dst, at);
        return;
    }
    copy_field(src.before(room), dst, at);
    let rest = src.behind(room);
    let q = at / 8 + 1;
    let k = rest.len / 8;
    copy_bytes(rest.before(8 * k), &mut dst[q..q + k]);
    copy_field(rest.behind(8 * k), dst, 8 * (q + k));
}

// The same for up to 64 bits.
fn copy_field(src: Part, dst: &mut [u8], at: usize)
    requires len_bound { src.len ≤ 64 }
    requires len_bound_2 { at + src.len ≤ 8 * length dst.old }
    ensures { bits dst.new ≡ splice (bits dst.old) at (bits_of src.entry) }
{
    put(dst, at, src.len, get(src.bytes, src.place, src.len));
}

/// Puts the bits of src in place of all of dst, whose bytes they fill.
pub fn copy_bytes(src: Part, dst: &mut [u8])
    requires { src.len ≡ 8 * length dst.old }
    ensures { bits dst.new ≡ bits_of src.entry }
{
    for (i, b) in dst.iter_mut().enumerate() {
        *b = byte(src, i);
    }
}

/// Byte i of a part: the eight bits from bit 8 * i on.
pub fn byte(src: Part, i: usize) -> u8
    requires { 8 * i + 8 ≤ src.len }
    ensures { to_bits 8 result ≡ part (bits_of src.entry) (8 * i) 8 }
{
    let first = src.bytes[i];
    if src.place == 0 {
        return first;
    }
    let two = first as u16 * 256 + src.bytes[i + 1] as u16;
    ((two >> (8 - src.place)) % 256) as u8
}

// A byte with h bits of x in place of those above its s lowest.
fn replaced(b: u8, s: usize, h: usize, x: u64) -> u8
    requires { h + s ≤ 8 }
    ensures { to_bits 8 result ≡ to_bits (8 - (h + s)) (b / 2 ^ (h + s)) ++ (to_bits h x ++ to_bits s b) }
{
    let top = piece(b, h + s, 8 - (h + s));
    let upper = joined(top, h, lowest(x, h));
    joined(upper, s, lowest(b as u64, s)) as u8
}

// h bits of a byte, above its s lowest.
fn piece(b: u8, s: usize, h: usize) -> u64
    requires { h + s ≤ 8 }
    ensures { result ≡ b / 2 ^ s % 2 ^ h }
{
    lowest((b as u64) >> s, h)
}

// The h lowest bits of a number.
fn lowest(x: u64, h: usize) -> u64
    requires { h ≤ 8 }
    ensures { result ≡ x % 2 ^ h }
{
    x % (1 << h)
}

// r, and h bits x behind it.
#[tactic(auto, using(crate::proofs::Powers::shifts))]
fn joined(r: u64, h: usize, x: u64) -> u64
    requires h_bound { h ≤ 8 }
    requires h_bound_2 { r * 2 ^ h < 2 ^ 64 }
    requires x_bound { x < 2 ^ h }
    ensures { result ≡ r * 2 ^ h + x }
{
    (r << h) | x
}
