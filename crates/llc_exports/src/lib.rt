// The link for a program in another language. The declarations of bindings/ mirror these.
#![tactic(auto)]

ghost use Rattle.std.specs.Prelude.{◌≡◌};
ghost use Rattle.bits.specs.Bits.{bits};
ghost use Rattle.llc_state.specs.States.{new_state};
ghost use Rattle.llc_steps.specs.Answers.{effect};
ghost use Rattle.llc.specs.Entry.{call_of};

use llc_state::State;
use llc_steps::Answer;

/// The new state: empty and not started.
#[unsafe(no_mangle)]
pub extern "C" fn wipturay_new() -> State
    ensures { result ≡ new_state }
{
    State::new()
}

/// One call of any bytes, on any state, with any store and output.
#[unsafe(no_mangle)]
pub extern "C" fn wipturay_call(
    state: State,
    store: &mut [u8],
    out: &mut [u8],
    bytes: &[u8],
) -> Answer
    ensures { effect result (bits store.new) out.new ≡ call_of state (bits store.old) out.old bytes.now }
{
    llc::call(state, store, out, bytes)
}
