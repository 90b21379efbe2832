// Bytes and numbers written as text into a lent buffer.
ghost use Rattle.std.specs.Prelude.{◌+◌, ◌*◌, ◌≤◌, ◌<◌, ◌≡◌, [], ◌∷◌, ◌++◌, length};
ghost use Rattle.lists.specs.Writes.{Wrote};
ghost use Rattle.hex_lines.specs.Lines.{line_end, hex_digit, hex_of, decimal_of};

pub(crate) const LINE_END: u8 = b'\n';

// Writes one character.
#[tactic(auto, using(lists::proofs::Writes::wrote_one))]
fn put(out: &mut [u8], at: usize, c: u8) -> usize
    requires { at + 1 ≤ length out.old }
    ensures { Wrote out.old at (c ∷ []) out.new result }
{
    out[at] = c;
    at + 1
}

// The lower-case digit of a value.
#[tactic(auto, unfolding(crate::specs::Lines::hex_digit))]
fn hex_digit(v: u8) -> u8
    requires { v < 16 }
    ensures { result ≡ hex_digit v }
{
    char::from_digit(v.into(), 16).unwrap() as u8
}

/// Writes a byte as two lower-case digits, and gives the place behind them.
pub fn put_hex(out: &mut [u8], at: usize, b: u8) -> usize
    requires { at + 2 ≤ length out.old }
    ensures { Wrote out.old at (hex_of (b ∷ [])) out.new result }
{
    let p = put(out, at, hex_digit(b / 16));
    put(out, p, hex_digit(b % 16))
}

/// Writes bytes as a line of digits, and gives the place behind its line end.
#[tactic(auto, using(crate::proofs::Writes::digits_place))]
pub fn put_line(out: &mut [u8], at: usize, bytes: &[u8]) -> usize
    requires { at + 2 * length bytes.now + 1 ≤ length out.old }
    ensures { Wrote out.old at (hex_of bytes.now ++ (line_end ∷ [])) out.new result }
{
    let mut p = at;
    for b in bytes {
        p = put_hex(out, p, *b);
    }
    put(out, p, LINE_END)
}

/// Writes a number as a line in decimal, and gives the place behind its line end.
pub fn put_number(out: &mut [u8], at: usize, n: u8) -> usize
    requires { at + 4 ≤ length out.old }
    ensures { Wrote out.old at (decimal_of n ++ (line_end ∷ [])) out.new result }
{
    let mut p = at;
    if 100 <= n {
        p = put(out, p, b'0' + n / 100);
    }
    if 10 <= n {
        p = put(out, p, b'0' + n / 10 % 10);
    }
    p = put(out, p, b'0' + n % 10);
    put(out, p, LINE_END)
}
