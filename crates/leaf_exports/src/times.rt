// Slot times, by the methods of TdmaTime.
ghost use Rattle.std.specs.Prelude.{◌≡◌};
ghost use Rattle.questions.specs.Refusals.{outcome};
ghost use Rattle.tdma_time.specs.Modulo.{modulo};
ghost use Rattle.tdma_time.specs.Slots.{W, valid, time_at, first};
ghost use Rattle.tdma_time.specs.Answers.{counted_from, added, difference, forwarded};
ghost use Rattle.leaf_exports.specs.Times.{time_of, slots_of};

use questions::Refusal;
use tdma_time::TdmaTime;

/// A number, and a time.
#[repr(C)]
#[derive(Clone, Copy)]
pub struct TimeAnswer {
    /// Document 01's number, 0 where it is accepted.
    pub number: u8,
    /// The time after it.
    pub time: TdmaTime,
}

/// A number, and slots.
#[repr(C)]
#[derive(Clone, Copy)]
pub struct SlotsAnswer {
    /// Document 01's number, 0 where it is accepted.
    pub number: u8,
    /// The slots.
    pub slots: i32,
}

/// default.
#[unsafe(no_mangle)]
pub extern "C" fn leaf_first_time() -> TdmaTime
    ensures { result ≡ first }
{
    TdmaTime::default()
}

/// is_valid.
#[unsafe(no_mangle)]
pub extern "C" fn leaf_is_valid(a: TdmaTime) -> bool
    ensures { result ≡ valid a }
{
    a.is_valid()
}

/// to_int.
#[unsafe(no_mangle)]
pub extern "C" fn leaf_to_int(a: TdmaTime) -> SlotsAnswer
    ensures { result ≡ slots_of (counted_from a) }
{
    a.to_int().into()
}

/// from_int.
#[unsafe(no_mangle)]
pub extern "C" fn leaf_from_int(time: i32) -> TdmaTime
    ensures { result ≡ time_at (modulo time W) }
{
    TdmaTime::from_int(time)
}

/// add_timeslots.
#[unsafe(no_mangle)]
pub extern "C" fn leaf_add_timeslots(a: TdmaTime, num_slots: i32) -> TimeAnswer
    ensures { result ≡ time_of a (added a num_slots) }
{
    TimeAnswer::of(a, a.add_timeslots(num_slots))
}

/// diff.
#[unsafe(no_mangle)]
pub extern "C" fn leaf_diff(a: TdmaTime, b: TdmaTime) -> SlotsAnswer
    ensures { result ≡ slots_of (difference a b) }
{
    a.diff(b).into()
}

/// age.
#[unsafe(no_mangle)]
pub extern "C" fn leaf_age(a: TdmaTime, at: TdmaTime) -> SlotsAnswer
    ensures { result ≡ slots_of (difference at a) }
{
    a.age(at).into()
}

/// forward_to_timeslot.
#[unsafe(no_mangle)]
pub extern "C" fn leaf_forward_to_timeslot(a: TdmaTime, ts: u8) -> TimeAnswer
    ensures { result ≡ time_of a (forwarded a ts) }
{
    TimeAnswer::of(a, a.forward_to_timeslot(ts))
}

impl TimeAnswer {
    // Where the time was a: a new one, or that it is refused.
    fn of(a: TdmaTime, moved: Result<TdmaTime, Refusal>) -> TimeAnswer
        ensures { result ≡ time_of a (outcome moved) }
    {
        match moved {
            Ok(time) => TimeAnswer { number: 0, time },
            Err(r) => TimeAnswer {
                number: r.into(),
                time: a,
            },
        }
    }
}

impl From<Result<i32, Refusal>> for SlotsAnswer {
    ghost from_gives = { λ r a. a ≡ slots_of (outcome r) };

    // Slots, or that they are refused.
    fn from(counted: Result<i32, Refusal>) -> SlotsAnswer {
        match counted {
            Ok(slots) => SlotsAnswer { number: 0, slots },
            Err(r) => SlotsAnswer {
                number: r.into(),
                slots: 0,
            },
        }
    }
}
