// Bits that are lent: the bytes that hold them, where the first of them lies there, and how many they are.
ghost use Rattle.std.specs.Prelude.{◌≤◌, ◌<◌, ◌+◌, ◌*◌, length};

/// So many bits of lent bytes, from a place in their first byte on.
#[derive(Clone, Copy)]
pub struct Part<'a> {
    /// The bytes that hold the bits.
    pub bytes: &'a [u8],
    /// The place of the first bit in the first byte.
    pub place: usize,
    /// How many bits there are.
    pub len: usize,
    ghost begins: { place < 8 },
    ghost inside: { place + len ≤ 8 * length bytes.now },
}
