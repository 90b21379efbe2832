// The lines of a chunk of the input.
use crate::run::Run;
use hex_lines::gather;
use std::io::{self, Stdout};

impl Run {
    // Answers the lines that end in a chunk, and writes the answers.
    pub(crate) fn answer_lines(&mut self, to: Stdout, chunk: &[u8]) -> io::Result<()> {
        let mut rest = chunk;
        while let Some(behind) = gather(&mut self.line, &mut self.bytes, rest) {
            self.answer(to)?;
            rest = behind;
        }
        self.text.write_out(to)
    }
}
