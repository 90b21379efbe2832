// Question 1 of a state's counts and values in use.
ghost use Rattle.std.specs.Prelude.{◌≡◌, ◌≤◌, Bool};
ghost use Rattle.std.specs.Bool.{OnTrue};
ghost use Rattle.std.specs.List.{list_all};
ghost use Rattle.std.specs.Fn.{FnReturnsAt};
ghost use Rattle.llc_rule.specs.Ranges.{is_type};
ghost use Rattle.llc_state.specs.Ranges.{is_ssi, sent_in_range, progress_in_range, entry_in_range, message_in_range, udata_in_range, ack_in_range, place_in_range, row_in_range, head_in_range, state_in_range};

use crate::{
    Entry, LinkSendSeq, Progress, ReceiptPlace, STORE_PLACES, ScheduledOutAck, State,
    TmaUnitdataReq,
};
use fcs::FCS_BITS;
use llc_pdus::N251_BL_MAX_TLSDU_LEN_BITS;

// The fewest and the most bits of an acknowledged message's frame: a header of 5 or 6 bits, the SDU and its check sequence.
const SHORTEST_MESSAGE: usize = 5;

const LONGEST_MESSAGE: usize = 6 + N251_BL_MAX_TLSDU_LEN_BITS + FCS_BITS;

// Those of an unacknowledged message's: a header of 4 or 5 bits, the SDU and its check sequence.
const SHORTEST_UDATA: usize = 4;

const LONGEST_UDATA: usize = 5 + N251_BL_MAX_TLSDU_LEN_BITS + FCS_BITS;

// Is it an SSI, of 24 bits?
fn is_ssi(ssi: u32) -> bool
    ensures { result ≡ is_ssi ssi }
{
    ssi < 1 << 24
}

// Is it individual or group?
fn is_type(ssi_type: u8) -> bool
    ensures { result ≡ is_type ssi_type }
{
    matches!(ssi_type, 1 | 2)
}

// What is handed down of a message.
#[tactic(auto, unfolding(crate::specs::Ranges::sent_in_range))]
fn sent_in_range(sent: &TmaUnitdataReq) -> bool
    ensures { result ≡ sent_in_range sent.now }
{
    is_ssi(sent.ssi)
        && is_type(sent.ssi_type)
        && (!sent.has_mask || sent.mask < 16)
        && sent.receipt < 128
        && sent.block_len <= sent.block.len()
}

// How far a message has come.
#[tactic(auto, unfolding(crate::specs::Ranges::progress_in_range))]
fn progress_in_range(progress: &Progress) -> bool
    ensures { result ≡ progress_in_range progress.now }
{
    progress.retransmit_count <= 3 && (!progress.has_umac_done || progress.t_umac_done.is_valid())
}

// An entry of either queue.
#[tactic(auto, unfolding(crate::specs::Ranges::entry_in_range))]
fn entry_in_range(e: &Entry) -> bool
    ensures { result ≡ entry_in_range e.now }
{
    sent_in_range(&e.sent) && e.frame.place < STORE_PLACES
}

// An entry of the acknowledged queue.
#[tactic(auto, unfolding(crate::specs::Ranges::message_in_range))]
fn message_in_range(e: &Entry) -> bool
    ensures { result ≡ message_in_range e.now }
{
    entry_in_range(e)
        && (SHORTEST_MESSAGE..=LONGEST_MESSAGE).contains(&e.frame.len)
        && progress_in_range(&e.progress)
}

// An entry of the unacknowledged queue.
#[tactic(auto, unfolding(crate::specs::Ranges::udata_in_range))]
fn udata_in_range(e: &Entry) -> bool
    ensures { result ≡ udata_in_range e.now }
{
    entry_in_range(e) && (SHORTEST_UDATA..=LONGEST_UDATA).contains(&e.frame.len)
}

// An acknowledgement that is due.
#[tactic(auto, unfolding(crate::specs::Ranges::ack_in_range))]
fn ack_in_range(a: &ScheduledOutAck) -> bool
    ensures { result ≡ ack_in_range a.now }
{
    is_ssi(a.ssi) && is_type(a.ssi_type) && (1..=4).contains(&a.ts)
}

// The place of a receipt.
#[tactic(auto, unfolding(crate::specs::Ranges::place_in_range))]
fn place_in_range(place: &ReceiptPlace) -> bool
    ensures { result ≡ place_in_range place.now }
{
    !place.taken || place.state < 5
}

// An address row.
#[tactic(auto, unfolding(crate::specs::Ranges::row_in_range))]
fn row_in_range(row: &LinkSendSeq) -> bool
    ensures { result ≡ row_in_range row.now }
{
    is_ssi(row.ssi)
}

// Do all elements pass?
fn all_of<T, F: Fn(&T) -> bool>(elements: &[T], passes: F) -> bool
    ghost test: { T → Bool }
    requires callable { F.IsAlwaysCallable passes }
    requires tests { (x : T) (r : Bool) → FnReturnsAt F.Fn passes x r → r ≡ test x }
    ensures { result ≡ list_all test elements.now }
{
    elements.iter().all(passes)
}

impl State {
    // The counts, and T251 and the time once they are set.
    #[tactic(auto, unfolding(crate::specs::Ranges::head_in_range))]
    fn head_in_range(&self) -> bool
        ensures value { result ≡ head_in_range self.now }
        ensures counts { OnTrue result ((self.now.n_messages ≤ 64) × (self.now.n_udata ≤ 32) × (self.now.n_acks ≤ 64) × (self.now.n_rows ≤ 256)) }
    {
        self.n_messages <= self.outbound_messages.len()
            && self.n_udata <= self.outbound_udata_messages.len()
            && self.n_acks <= self.scheduled_out_acks.len()
            && self.n_rows <= self.link_send_seq.len()
            && (!self.started || 0 < self.t251 && self.dltime.is_valid())
    }

    /// Is every count, and every value in use, within its range?
    #[tactic(auto, using(lists::proofs::Std::all_list), unfolding(crate::specs::Ranges::state_in_range))]
    pub fn in_range(&self) -> bool
        ensures { result ≡ state_in_range self.now }
    {
        self.head_in_range()
            && all_of(&self.outbound_messages[..self.n_messages], message_in_range)
            && all_of(
                &self.outbound_udata_messages[..self.n_udata],
                udata_in_range,
            )
            && all_of(&self.scheduled_out_acks[..self.n_acks], ack_in_range)
            && all_of(&self.link_send_seq[..self.n_rows], row_in_range)
            && all_of(&self.receipts, place_in_range)
    }
}
