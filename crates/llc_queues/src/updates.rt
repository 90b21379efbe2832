// Changes of what is in use. An element that is no longer in use is left empty.
ghost use Rattle.std.specs.Prelude.{◌≤◌, ◌<◌, ◌≡◌, [], ◌∷◌, ◌++◌, length, take, get_or, MatchOption};
ghost use Rattle.lists.specs.Arrays.{without, fronted, placed, laid};
ghost use Rattle.llc_state.specs.States.{no_entry, no_ack};
ghost use Rattle.llc_steps.specs.States.{messages_of, udata_of, acks_of, rows_of, with_messages, with_udata, with_acks, with_rows};

use crate::in_use::acks;
use llc_state::{Entry, LinkSendSeq, ScheduledOutAck, State};

// Puts an element behind the n in use.
fn push<T: Copy>(elements: &mut [T], n: &mut usize, element: T)
    requires { n.old < length elements.old }
    ensures count { n.new ≡ length (take n.old elements.old ++ (element ∷ [])) }
    ensures after { (empty : T) → elements.new ≡ laid empty n.old (take n.old elements.old ++ (element ∷ [])) elements.old }
{
    elements[*n] = element;
    *n += 1;
}

// Takes the element of a place out of the n in use, and leaves an empty one behind them.
fn take_out<T: Copy>(elements: &mut [T], n: &mut usize, i: usize, empty: T) -> T
    requires i_bound { i < n.old }
    requires n_bound { n.old ≤ length elements.old }
    ensures element { result ≡ get_or (take n.old elements.old) i empty }
    ensures count { n.new ≡ length (without i (take n.old elements.old)) }
    ensures after { elements.new ≡ laid empty n.old (without i (take n.old elements.old)) elements.old }
{
    let element = elements[i];
    elements[i..*n].rotate_left(1);
    *n -= 1;
    elements[*n] = empty;
    element
}

// Moves the element of a place in front of the others.
fn move_to_front<T: Copy>(elements: &mut [T], i: usize)
    requires { i < length elements.old }
    ensures { elements.new ≡ fronted i elements.old }
{
    elements[..=i].rotate_right(1);
}

/// Puts a message last.
pub fn push_message(state: &mut State, e: Entry)
    requires { state.old.n_messages < 64 }
    ensures { state.new ≡ with_messages state.old (messages_of state.old ++ (e ∷ [])) }
{
    push(&mut state.outbound_messages, &mut state.n_messages, e);
}

/// Puts an unacknowledged message last.
pub fn push_udata_message(state: &mut State, e: Entry)
    requires { state.old.n_udata < 32 }
    ensures { state.new ≡ with_udata state.old (udata_of state.old ++ (e ∷ [])) }
{
    push(&mut state.outbound_udata_messages, &mut state.n_udata, e);
}

/// Puts a due acknowledgement last.
pub fn schedule_outgoing_ack(state: &mut State, ack: ScheduledOutAck)
    requires { state.old.n_acks < 64 }
    ensures { state.new ≡ with_acks state.old (acks_of state.old ++ (ack ∷ [])) }
{
    push(&mut state.scheduled_out_acks, &mut state.n_acks, ack);
}

/// Puts a row in the place of another, or behind the last.
#[tactic(auto, using(crate::proofs::Arrays::puts_row))]
pub fn set_send_seq(state: &mut State, i: usize, row: LinkSendSeq)
    requires i_bound { i ≤ state.old.n_rows }
    requires i_bound_2 { i < 256 }
    requires n_rows_bound { state.old.n_rows ≤ 256 }
    ensures { state.new ≡ with_rows state.old (placed row i (rows_of state.old)) }
{
    if i < state.n_rows {
        state.link_send_seq[i] = row;
    } else {
        push(&mut state.link_send_seq, &mut state.n_rows, row);
    }
}

/// Takes the acknowledgement of a place out; none where nothing is due there.
pub fn take_out_ack(state: &mut State, i: usize) -> Option<ScheduledOutAck>
    requires { state.old.n_acks ≤ 64 }
    ensures ack { MatchOption result (state.old.n_acks ≤ i) (λ ack. (i < state.old.n_acks) × (ack ≡ get_or (acks_of state.old) i no_ack)) }
    ensures after { state.new ≡ with_acks state.old (without i (acks_of state.old)) }
{
    acks(state).get(i)?;
    Some(take_out(
        &mut state.scheduled_out_acks,
        &mut state.n_acks,
        i,
        ScheduledOutAck::empty(),
    ))
}

/// Takes the message of a place out.
pub fn take_expected_ack(state: &mut State, i: usize) -> Entry
    requires i_bound { i < state.old.n_messages }
    requires n_messages_bound { state.old.n_messages ≤ 64 }
    ensures message { result ≡ get_or (messages_of state.old) i no_entry }
    ensures after { state.new ≡ with_messages state.old (without i (messages_of state.old)) }
{
    take_out(
        &mut state.outbound_messages,
        &mut state.n_messages,
        i,
        Entry::empty(),
    )
}

/// Moves the message of a place to the front.
#[tactic(auto, using(crate::proofs::Shifting::fronts_message))]
pub fn push_front_expected_ack(state: &mut State, i: usize)
    requires i_bound { i < state.old.n_messages }
    requires n_messages_bound { state.old.n_messages ≤ 64 }
    ensures { state.new ≡ with_messages state.old (fronted i (messages_of state.old)) }
{
    move_to_front(&mut state.outbound_messages, i);
}
