// Standard input to its end, chunk by chunk.
ghost use Rattle.std.specs.Prelude.{◌≤◌, ◌≡◌, length, take};

use crate::run::Run;
use std::io::{self, Read, Stdin, Stdout};

// The most bytes of a chunk.
const CHUNK: usize = 65_536;

// Reads once; no bytes at the end of the input, or where it cannot be read.
fn read(from: Stdin, chunk: &mut [u8]) -> usize
    ensures in_bounds { result ≤ length chunk.new }
    ensures prefix { result ≡ length (take result chunk.new) }
{
    let mut from = from;
    from.read(chunk).unwrap_or(0)
}

impl Run {
    // Answers the lines of standard input to its end, or until an answer cannot be written. A last line without a line end counts.
    // A proved loop has to end, so this one has as many turns as no run uses up.
    pub(crate) fn run(&mut self, from: Stdin, to: Stdout) -> io::Result<()> {
        let mut chunk = [0; CHUNK];
        for _ in 0..u64::MAX {
            let n = read(from, &mut chunk);
            if n == 0 {
                break;
            }
            self.answer_lines(to, &chunk[..n])?;
        }
        if self.line.begun() {
            self.answer(to)?;
            self.text.write_out(to)?;
        }
        Ok(())
    }
}
