// What a run keeps from line to line.
use crate::text::Text;
use hex_lines::Line;
use llc::{OUTPUT, STORE};
use llc_state::{NEW, State};

// The most bytes of a line's call, of 4,096 digits.
const CALL: usize = 2048;

/// The link, the line under way, and the answers that wait.
#[derive(Drop)]
pub(crate) struct Run {
    /// The link's state.
    pub(crate) state: State,
    /// The link's store.
    pub(crate) store: [u8; STORE],
    /// How far the line under way has come.
    pub(crate) line: Line,
    /// The bytes of its call.
    pub(crate) bytes: [u8; CALL],
    /// The records of the last call.
    pub(crate) out: [u8; OUTPUT],
    /// The answers that wait to be written.
    pub(crate) text: Text,
}

impl Run {
    // A new link, before the first line. Made where it is kept: called, it would stand on the stack twice.
    #[inline(always)]
    pub(crate) fn new() -> Run {
        Run {
            state: NEW,
            store: [0; STORE],
            line: Line::new(),
            bytes: [0; CALL],
            out: [0; OUTPUT],
            text: Text::new(),
        }
    }
}
