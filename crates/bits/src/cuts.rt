// Parts cut out of lent bytes, and out of one another.
ghost use Rattle.std.specs.Prelude.{◌≡◌, ◌+◌, ◌-◌, min, leb, length, take, drop, IfOk};
ghost use Rattle.questions.specs.Outcome.{ask, accepted};
ghost use Rattle.bits.specs.Bits.{bits, part};
ghost use Rattle.bits.specs.Parts.{bits_of, parted};

use crate::Part;
use questions::Refusal;

impl<'a> Part<'a> {
    /// len bits of lent bytes from bit at on, or question 5 where they do not lie inside. In bytes, since at + len need not fit.
    pub fn new(bytes: &'a [u8], at: usize, len: usize) -> Result<Part<'a>, Refusal>
        ensures value { parted result ≡ ask 5 (leb (at + len) (length (bits bytes.now))) (accepted (part (bits bytes.now) at len)) }
        ensures count { IfOk result (λ p. p.len ≡ len) }
    {
        if bytes.len() < at / 8 + len / 8 + (at % 8 + len % 8 + 7) / 8 {
            return Err(Refusal::OutOfRange);
        }
        Ok(Part {
            bytes: &bytes[at / 8..],
            place: at % 8,
            len,
        })
    }

    /// The first n of the bits; all of them where there are no more.
    pub fn before(self, n: usize) -> Part<'a>
        ensures value { bits_of result ≡ take n (bits_of self.entry) }
        ensures count { result.len ≡ min n self.entry.len }
    {
        Part {
            bytes: self.bytes,
            place: self.place,
            len: n.min(self.len),
        }
    }

    /// The bits behind the first n; none where there are no more.
    pub fn behind(self, n: usize) -> Part<'a>
        ensures value { bits_of result ≡ drop n (bits_of self.entry) }
        ensures count { result.len ≡ self.entry.len - n }
    {
        let n = n.min(self.len);
        let over = self.place + n % 8;
        Part {
            bytes: &self.bytes[n / 8 + over / 8..],
            place: over % 8,
            len: self.len - n,
        }
    }
}
