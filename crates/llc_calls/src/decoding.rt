// A call taken apart: its tag, its length, and by its tag what is behind them.
ghost use Rattle.std.specs.Prelude.{◌^◌, ◌≤◌, ◌<◌, true, false, ◌≡◌, length, take, drop, MatchResult, IfOk};
ghost use Rattle.bits.specs.Parts.{bits_of};
ghost use Rattle.llc_rule.specs.Calls.{filled_from, block_at, bits_at, request_in, frame_in, tag_of, inner, parsed};
ghost use Rattle.llc_calls.specs.Decoded.{decoded, request_of, frame_of, Inside, RequestInside, FrameInside};

use crate::numbers::number;
use crate::{Action, Call, FrameCall, RequestCall, Service};
use bit_fields::get;
use bits::Part;
use questions::Refusal;
use tdma_time::TdmaTime;

/// The call that bytes spell, or that its lengths do not fill it or that its tag is not known.
#[tactic(auto, using(crate::proofs::Filled::outer), unfolding(llc_rule::specs::Calls::parsed))]
pub fn decode<'a>(bytes: &'a [u8]) -> Result<Call<'a>, Refusal>
    ensures value { decoded result ≡ parsed bytes.now }
    ensures inside { IfOk result (λ call. Inside call) }
{
    let [tag, high, low, value @ ..] = bytes else {
        return Err(Refusal::Unfilled);
    };
    filled(value.len() == u16::from_be_bytes([*high, *low]) as usize)?;
    by_tag(*tag, value)
}

// Number 2 where a call is not filled.
fn filled(yes: bool) -> Result<(), Refusal>
    ensures { MatchResult result (λ _. yes ≡ true) (λ r. (r ≡ Refusal.Unfilled) × (yes ≡ false)) }
{
    if yes { Ok(()) } else { Err(Refusal::Unfilled) }
}

// The call with this tag and what is behind its length, if the inner lengths fill that.
#[tactic(auto, unfolding(llc_rule::specs::Calls::inner, llc_rule::specs::Calls::tag_of))]
fn by_tag<'a>(tag: u8, value: &'a [u8]) -> Result<Call<'a>, Refusal>
    ensures value { decoded result ≡ inner (tag_of tag) value.now }
    ensures inside { IfOk result (λ call. Inside call) }
{
    match (tag, value) {
        (0x21, &[c0, c1, t0, t1]) => Ok(Call::Start(
            u16::from_be_bytes([c0, c1]),
            u16::from_be_bytes([t0, t1]),
        )),
        (0x22, &[h0, h1, m, f, t]) => Ok(Call::TickStart(TdmaTime {
            t,
            f,
            m,
            h: u16::from_be_bytes([h0, h1]),
        })),
        (0x23, []) => Ok(Call::TickEnd),
        (0x24, _) => Ok(Call::Request(Service::TlData, request(value)?)),
        (0x25, _) => Ok(Call::Request(Service::TlUnitdata, request(value)?)),
        (0x26, _) => Ok(Call::Frame(frame(value)?)),
        (0x27, &[receipt, how]) => Ok(Call::ByReceipt(receipt, Action::Report(how))),
        (0x28, &[receipt]) => Ok(Call::ByReceipt(receipt, Action::Release)),
        (0x21..=0x23 | 0x27 | 0x28, _) => Err(Refusal::Unfilled),
        _ => Err(Refusal::UnknownTag),
    }
}

// The first bytes, as many as are said, and those behind them; number 2 where there are fewer.
fn split<'a>(bytes: &'a [u8], n: usize) -> Result<(&'a [u8], &'a [u8]), Refusal>
    ensures { MatchResult result (λ p. (n ≤ length bytes.now) × (p.0.now ≡ take n bytes.now) × (p.1.now ≡ drop n bytes.now)) (λ r. (r ≡ Refusal.Unfilled) × (length bytes.now < n)) }
{
    bytes.split_at_checked(n).ok_or(Refusal::Unfilled)
}

// A block behind its length and bits behind their count, if they fill these bytes, the spare bits zero.
#[tactic(auto, using(crate::proofs::Filled::filling))]
fn parts<'a>(bytes: &'a [u8]) -> Result<(&'a [u8], Part<'a>), Refusal>
    ensures filled { MatchResult result (λ _. filled_from bytes.now 0 ≡ true) (λ r. (r ≡ Refusal.Unfilled) × (filled_from bytes.now 0 ≡ false)) }
    ensures block { IfOk result (λ p. p.0.now ≡ block_at bytes.now 0) }
    ensures bits { IfOk result (λ p. bits_of p.1 ≡ bits_at bytes.now 0) }
    ensures block_len { IfOk result (λ p. length p.0.now < 2 ^ 8) }
    ensures place { IfOk result (λ p. p.1.place ≡ 0) }
    ensures bits_len { IfOk result (λ p. p.1.len < 2 ^ 16) }
{
    let (len, rest) = split(bytes, 1)?;
    let (block, rest) = split(rest, len[0] as usize)?;
    let (count, bytes) = split(rest, 2)?;
    let len = number(count) as usize;
    filled(bytes.len() == len.div_ceil(8))?;
    filled(get(bytes, len, 8 * bytes.len() - len) == 0)?;
    let place = 0;
    Ok((block, Part { bytes, place, len }))
}

// The request that fills its call.
#[tactic(auto, using(crate::proofs::Filled::behind), unfolding(crate::specs::Decoded::request_of, llc_rule::specs::Calls::request_in))]
fn request<'a>(value: &'a [u8]) -> Result<RequestCall<'a>, Refusal>
    ensures filled { MatchResult result (λ q. (filled_from value.now 22 ≡ true) × (request_of q ≡ request_in value.now)) (λ r. (r ≡ Refusal.Unfilled) × (filled_from value.now 22 ≡ false)) }
    ensures inside { IfOk result (λ q. RequestInside q) }
{
    let (_, behind) = split(value, 22)?;
    let (block, sdu) = parts(behind)?;
    Ok(RequestCall {
        ssi: number(&value[..3]),
        ssi_type: value[3],
        given: value[4],
        carrier: number(&value[5..7]) as u16,
        link: number(&value[7..11]),
        endpoint: number(&value[11..15]),
        handle: number(&value[15..19]),
        flags: value[19],
        mask: value[20],
        receipt: value[21],
        block,
        sdu,
    })
}

// The frame that fills its call.
#[tactic(auto, using(crate::proofs::Filled::behind), unfolding(crate::specs::Decoded::frame_of, llc_rule::specs::Calls::frame_in))]
fn frame<'a>(value: &'a [u8]) -> Result<FrameCall<'a>, Refusal>
    ensures filled { MatchResult result (λ f. (filled_from value.now 14 ≡ true) × (frame_of f ≡ frame_in value.now)) (λ r. (r ≡ Refusal.Unfilled) × (filled_from value.now 14 ≡ false)) }
    ensures inside { IfOk result (λ f. FrameInside f) }
{
    let (_, behind) = split(value, 14)?;
    let (block, pdu) = parts(behind)?;
    Ok(FrameCall {
        ssi: number(&value[..3]),
        ssi_type: value[3],
        carrier: number(&value[4..6]) as u16,
        link: number(&value[6..10]),
        endpoint: number(&value[10..14]),
        block,
        pdu,
    })
}
