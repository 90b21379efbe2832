// Question 5: are the values of a call in range?
ghost use Rattle.std.specs.Prelude.{◌≡◌, ◌&&◌, ◌||◌, leb, eqb, ltb};
ghost use Rattle.llc_rule.specs.Ranges.{action_in_range, has_mask};
ghost use Rattle.llc_calls.specs.Decoded.{action_of, request_of};
ghost use Rattle.llc_calls.specs.Ranges.{in_range_of, request_range, frame_range};

use crate::{Action, Call, FrameCall, RequestCall};
use llc_pdus::N251_BL_MAX_TLSDU_LEN_BITS;

// The longest frame that comes in, in bits.
const LONGEST_FRAME: usize = 2633;

impl<'a> Call<'a> {
    /// Are the values of this call in range?
    #[tactic(auto, unfolding(crate::specs::Ranges::in_range_of))]
    pub fn in_range(&self) -> bool
        ensures { result ≡ in_range_of self.now }
    {
        match self {
            Call::Start(_, t251) => *t251 != 0,
            Call::TickStart(time) => time.is_valid(),
            Call::TickEnd => true,
            Call::Request(_, q) => request_in_range(q),
            Call::Frame(f) => frame_in_range(f),
            Call::ByReceipt(receipt, action) => *receipt < 128 && action_in_range(*action),
        }
    }
}

// Type, carrier, flags, mask, receipt, block and SDU.
#[tactic(auto, unfolding(crate::specs::Decoded::request_of, crate::specs::Ranges::request_range))]
fn request_in_range(q: &RequestCall) -> bool
    ensures { result ≡ request_range q.now }
{
    matches!(q.ssi_type, 1 | 2)
        && carrier_in_range(q)
        && q.flags < 8
        && mask_in_range(q)
        && q.receipt < 128
        && q.block.len() <= 64
        && q.sdu.len <= N251_BL_MAX_TLSDU_LEN_BITS
}

// Carrier-given, and 0 if it is not given.
fn carrier_in_range(q: &RequestCall) -> bool
    ensures { result ≡ (leb q.now.given 1 && (eqb q.now.given 1 || eqb q.now.carrier 0)) }
{
    q.given <= 1 && (q.given == 1 || q.carrier == 0)
}

// The mask, and 0 without its flag.
fn mask_in_range(q: &RequestCall) -> bool
    ensures { result ≡ (ltb q.now.mask 16 && (has_mask (request_of q.now) || eqb q.now.mask 0)) }
{
    q.mask < 16 && (q.has_mask() || q.mask == 0)
}

// Type, block and PDU.
#[tactic(auto, unfolding(crate::specs::Ranges::frame_range))]
fn frame_in_range(f: &FrameCall) -> bool
    ensures { result ≡ frame_range f.now }
{
    matches!(f.ssi_type, 1 | 2) && f.block.len() <= 64 && f.pdu.len <= LONGEST_FRAME
}

// The value of a report.
fn action_in_range(action: Action) -> bool
    ensures { result ≡ action_in_range (action_of action) }
{
    match action {
        Action::Report(how) => matches!(how, 1 | 2),
        Action::Release => true,
    }
}
