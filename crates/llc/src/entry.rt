// Any bytes from any caller: questions 1 to 5, and then each call goes to its own function.
ghost use Rattle.std.specs.Prelude.{◌≡◌, ◌≤◌, ◌||◌, true, length};
ghost use Rattle.bits.specs.Bits.{bits};
ghost use Rattle.llc_rule.specs.Limits.{output_bytes, store_bytes};
ghost use Rattle.llc_rule.specs.Calls.{is_start};
ghost use Rattle.llc_calls.specs.Decoded.{call_of, Inside};
ghost use Rattle.llc_calls.specs.Ranges.{in_range_of};
ghost use Rattle.llc_state.specs.Ranges.{state_in_range};
ghost use Rattle.llc_steps.specs.Answers.{answered, delivered, effect};
ghost use Rattle.llc_steps.specs.Steps.{acts};
ghost use Rattle.llc.specs.Entry.{lent_right, call_of as entry_call};

use llc_calls::{Action, Call, Service, decode};
use llc_frames::rx_tma_unitdata_ind;
use llc_receipts::{release, rx_tma_report_ind};
use llc_requests::{rx_tla_tldata_req_bl, rx_tla_tlunitdata_req_bl};
use llc_state::{PLACE_BYTES, STORE_PLACES, State};
use llc_steps::Answer;
use llc_tick_end::tick_end;
use questions::Refusal;

/// How many bytes the store has.
pub const STORE: usize = STORE_PLACES * PLACE_BYTES;

/// How many bytes an output has at least.
pub const OUTPUT: usize = 47_040;

// Are store and output as long as they must be?
#[tactic(auto, using(crate::proofs::Ways::asked), unfolding(crate::specs::Entry::lent_right))]
fn lent_right(store: &[u8], out: &[u8]) -> bool
    ensures { result ≡ lent_right (bits store.now) out.now }
{
    store.len() == STORE && OUTPUT <= out.len()
}

// Is a call a start?
fn is_start(call: &Call) -> bool
    ensures { result ≡ is_start (call_of call.now) }
{
    matches!(call, Call::Start(..))
}

// What a call does once questions 1 to 5 are passed. It gives how many bytes of records it wrote.
#[tactic(auto, unfolding(llc_calls::specs::Ranges::in_range_of, llc_steps::specs::Steps::acts, llc_steps::specs::Answers::laid_out, llc_rule::specs::Records::all_bytes))]
fn act(state: &mut State, store: &mut [u8], out: &mut [u8], call: Call) -> Result<usize, Refusal>
    requires state_value { state_in_range state.old ≡ true }
    requires store_len { length store.old ≡ store_bytes }
    requires output_bytes_in_bounds { output_bytes ≤ length out.old }
    requires call_value { in_range_of call ≡ true }
    requires call_inside { Inside call }
    requires started_value { is_start (call_of call) || state.old.started ≡ true }
    ensures { effect (answered state.new result) (bits store.new) out.new ≡ delivered state.old (bits store.old) out.old (acts (call_of call.entry) state.old (bits store.old)) }
{
    match call {
        Call::Start(carrier, t251) => *state = State::start(carrier, t251),
        Call::TickStart(time) => state.tick_start(time),
        Call::TickEnd => return Ok(tick_end(state, store, out)),
        Call::Request(Service::TlData, q) => rx_tla_tldata_req_bl(state, store, &q)?,
        Call::Request(Service::TlUnitdata, q) => rx_tla_tlunitdata_req_bl(state, store, &q)?,
        Call::Frame(f) => return rx_tma_unitdata_ind(state, out, &f),
        Call::ByReceipt(receipt, Action::Report(how)) => rx_tma_report_ind(state, receipt, how)?,
        Call::ByReceipt(receipt, Action::Release) => release(state, receipt)?,
    }
    Ok(0)
}

// Puts questions 1 to 5 to a call, and makes it.
#[tactic(auto, using(crate::proofs::Ways::asked), unfolding(crate::specs::Entry::lent_right, crate::specs::Entry::call_of, crate::specs::Entry::outcome_of, llc_steps::specs::Steps::steps, llc_steps::specs::Steps::called))]
fn step(state: &mut State, store: &mut [u8], out: &mut [u8], bytes: &[u8]) -> Result<usize, Refusal>
    ensures { effect (answered state.new result) (bits store.new) out.new ≡ entry_call state.old (bits store.old) out.old bytes.now }
{
    if !lent_right(store, out) || !state.in_range() {
        return Err(Refusal::BadState);
    }
    let call = decode(bytes)?;
    if !state.started && !is_start(&call) {
        return Err(Refusal::NotStarted);
    }
    if !call.in_range() {
        return Err(Refusal::OutOfRange);
    }
    act(state, store, out, call)
}

/// One call of any bytes, on any state, with any store and output.
pub fn call(state: State, store: &mut [u8], out: &mut [u8], bytes: &[u8]) -> Answer
    ensures { effect result (bits store.new) out.new ≡ entry_call state (bits store.old) out.old bytes.now }
{
    let mut next = state;
    let answered = step(&mut next, store, out, bytes);
    Answer::of(next, answered)
}
