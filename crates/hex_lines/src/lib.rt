// Lines of hexadecimal digits: calls gathered from them character by character, numbers and bytes written as lines.
#![tactic(auto)]

mod chunks;
mod reading;
mod writing;

pub use chunks::gather;
pub use writing::{put_hex, put_line, put_number};

/// How far the current line has come.
#[derive(Clone, Copy)]
pub struct Line {
    /// How many digits it has so far.
    pub digits: usize,
    /// It spells no call, whatever follows.
    pub bad: bool,
}
