// One call of the link on a state and a store, from tetra-entities' llc_bs_ms.rs: what it answers.
#![tactic(auto)]

ghost use Rattle.std.specs.Prelude.{◌≡◌};
ghost use Rattle.llc_steps.specs.Answers.{answered};

use llc_state::State;
use questions::Refusal;

/// What a call gives: its number, the next state, and how many bytes of the output are its records.
#[repr(C)]
#[derive(Clone, Copy)]
pub struct Answer {
    /// The state after the call.
    pub state: State,
    /// How many bytes at the front of the output are records of this call.
    pub len: usize,
    /// 0 if the call was accepted, else the number of the first question that it fails.
    pub number: u8,
}

impl Answer {
    /// The answer by the state after the call, and by how many bytes its records are or by the question that it fails.
    pub fn of(state: State, outcome: Result<usize, Refusal>) -> Answer
        ensures { result ≡ answered state outcome }
    {
        match outcome {
            Ok(len) => Answer {
                number: 0,
                state,
                len,
            },
            Err(refusal) => Answer {
                number: u8::from(refusal),
                state,
                len: 0,
            },
        }
    }
}
