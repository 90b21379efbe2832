// The answers as text.
ghost use Rattle.std.specs.Prelude.{◌+◌, ◌*◌, ◌≤◌, [], ◌∷◌, ◌++◌, length, OnOk};
ghost use Rattle.lists.specs.Writes.{Wrote};
ghost use Rattle.llc_rule.specs.Limits.{output_bytes};
ghost use Rattle.hex_lines.specs.Lines.{line_end, decimal_of};
ghost use Rattle.record_lines.specs.Split.{lines_of_records};

use llc::OUTPUT;
use std::io::{self, Stdout};

// The characters of the longest answer.
const ANSWER: usize = 4 + 3 * OUTPUT;

/// Answers that wait to be written.
#[derive(Drop)]
pub(crate) struct Text {
    /// Their characters, with room for the longest answer and as many again.
    chars: [u8; 2 * ANSWER],
    /// How many wait.
    len: usize,
    ghost inside: { len ≤ length chars },
}

impl Text {
    // No answer waits. Made where it is kept, as `Run` is.
    #[inline(always)]
    pub(crate) fn new() -> Text {
        Text {
            chars: [0; 2 * ANSWER],
            len: 0,
        }
    }

    // Writes the answers that wait, so that there is room for one.
    pub(crate) fn write_out(&mut self, to: Stdout) -> io::Result<()>
        ensures { OnOk result (self.new.len + 4 + 3 * output_bytes ≤ length self.new.chars) }
    {
        to.write_all(&self.chars[..self.len])?;
        self.len = 0;
        Ok(())
    }

    // Makes room for an answer: where there is none, those that wait are written.
    fn make_room(&mut self, to: Stdout) -> io::Result<()>
        ensures { OnOk result (self.new.len + 4 + 3 * output_bytes ≤ length self.new.chars) }
    {
        if self.chars.len() - self.len < ANSWER {
            self.write_out(to)?;
        }
        Ok(())
    }

    // Puts a call's number and its records behind the answers that wait.
    pub(crate) fn put(&mut self, to: Stdout, number: u8, records: &[u8]) -> io::Result<()>
        requires { length records.now ≤ output_bytes }
    {
        self.make_room(to)?;
        self.len = put_answer(&mut self.chars, self.len, number, records);
        Ok(())
    }
}

// Writes a call's number and its records, and gives the place behind them.
fn put_answer(text: &mut [u8], at: usize, number: u8, records: &[u8]) -> usize
    requires { at + 4 + 3 * length records.now ≤ length text.old }
    ensures wrote { Wrote text.old at ((decimal_of number ++ (line_end ∷ [])) ++ lines_of_records records.now) text.new result }
    ensures upper_bound { result ≤ length text.new }
{
    let p = hex_lines::put_number(text, at, number);
    record_lines::put_records(text, p, records)
}
