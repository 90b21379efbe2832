// The answer to a line.
ghost use Rattle.std.specs.Prelude.{◌≤◌};
ghost use Rattle.llc_rule.specs.Limits.{output_bytes};

use crate::run::Run;
use hex_lines::Line;
use std::io::{self, Stdout};

impl Run {
    // Makes the call of the line, which is at its end: its number, and how many bytes its records have.
    #[tactic(auto, using(hex_lines::proofs::Gathering::few_bytes))]
    fn call(&mut self) -> (u8, usize)
        ensures { result.1 ≤ output_bytes }
    {
        match self.line.finished() {
            Ok(n) => {
                let answer = llc::call(
                    self.state,
                    &mut self.store,
                    &mut self.out,
                    &self.bytes[..n],
                );
                self.state = answer.state;
                (answer.number, answer.len)
            }
            Err(r) => (r.into(), 0),
        }
    }

    // Answers the line, which is at its end, and begins the next.
    pub(crate) fn answer(&mut self, to: Stdout) -> io::Result<()> {
        let (number, len) = self.call();
        self.text.put(to, number, &self.out[..len])?;
        self.line = Line::new();
        Ok(())
    }
}
