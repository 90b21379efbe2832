// A line read character by character: its bytes gather in a lent buffer.
ghost use Rattle.std.specs.Prelude.{◌<◌, ◌≡◌, IfSome, MatchOption};
ghost use Rattle.std.proofs.Math.Option.{none, some};
ghost use Rattle.hex_lines.specs.Lines.{digit as digit_of};
ghost use Rattle.hex_lines.specs.Gathering.{gathered, fresh, feed_of, begun_of, finished_of};

use crate::Line;
use questions::Refusal;

// The most digits of a call.
const MOST: usize = 4096;

impl Line {
    /// A line of which no character has come.
    pub fn new() -> Line
        ensures { result ≡ fresh }
    {
        Line {
            digits: 0,
            bad: false,
        }
    }

    /// One more character, which is no line end. The bytes gather in buf, of at least 2,048 bytes.
    #[tactic(auto, unfolding(crate::specs::Gathering::feed_value))]
    pub fn feed(self, buf: &mut [u8], c: u8) -> Line
        ensures { gathered result buf.new ≡ feed_of self buf.old c }
    {
        let k = self.digits / 2;
        match value(c) {
            Some(v) if self.digits < MOST && k < buf.len() => {
                buf[k] = buf[k] % 16 * 16 + v;
                Line {
                    digits: self.digits + 1,
                    ..self
                }
            }
            _ => Line { bad: true, ..self },
        }
    }

    /// Has a character come? A last line that has begun counts.
    #[tactic(auto, unfolding(crate::specs::Gathering::begun_of))]
    pub fn begun(self) -> bool
        ensures { result ≡ begun_of self }
    {
        0 < self.digits || self.bad
    }

    /// The line is at its end: how many bytes are its call, or that it spells none.
    #[tactic(auto, unfolding(crate::specs::Gathering::finished_of))]
    pub fn finished(self) -> Result<usize, Refusal>
        ensures { result ≡ finished_of self }
    {
        if self.bad || MOST < self.digits || self.digits % 2 == 1 {
            return Err(Refusal::Unfilled);
        }
        Ok(self.digits / 2)
    }
}

// The value of a digit.
#[tactic(auto, unfolding(crate::specs::Lines::digit))]
fn value(c: u8) -> Option<u8>
    ensures value { MatchOption result (digit_of c ≡ none) (λ v. digit_of c ≡ some v) }
    ensures upper_bound { IfSome result (λ v. v < 16) }
{
    (c as char).to_digit(16).map(|v| v as u8)
}
