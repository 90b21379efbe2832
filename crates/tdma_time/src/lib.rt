// Slot time by value, from tetra-core's tdma_time.rs: frames of 4 slots, multiframes of 18 frames,
// hyperframes of 60 multiframes. Every function takes every value of its types.
#![tactic(auto)]

ghost use Rattle.std.specs.Prelude.{◌≡◌, true, ◌≤◌, ◌<◌, pos, ◌+ℤ◌, ◌-ℤ◌};
ghost use Rattle.tdma_time.specs.Modulo.{modulo};
ghost use Rattle.tdma_time.specs.Slots.{W, valid, slots as slots_of, time_at, first, half, plus, centred, ahead as ahead_of};
ghost use Rattle.questions.specs.Refusals.{outcome};
ghost use Rattle.tdma_time.specs.Answers.{counted_from, added, difference, forwarded};

use questions::Refusal;
use std::fmt;

/// A slot, by its place in the frame, the multiframe and the hyperframe.
#[repr(C)]
#[derive(Clone, Copy, Debug, PartialEq, Eq)]
pub struct TdmaTime {
    /// Timeslot, from 1 to 4
    pub t: u8,
    /// Frame number, from 1 to 18
    pub f: u8,
    /// Multiframe number, from 1 to 60
    pub m: u8,
    /// Hyperframe number, from 0 to 65535
    pub h: u16,
}

/// The number of slots after which the time is the first one again, W.
pub const TIME_INT_WRAP: u32 = 4 * 18 * 60 * 65536;

// W/2.
const HALF: i64 = TIME_INT_WRAP as i64 / 2;

impl Default for TdmaTime {
    ghost is_default = { λ a. a ≡ first };

    /// The first time: h 0, m 1, f 1, t 1.
    fn default() -> TdmaTime {
        TdmaTime {
            t: 1,
            f: 1,
            m: 1,
            h: 0,
        }
    }
}

impl fmt::Display for TdmaTime {
    fn fmt<F: fmt::Write>(&self, f: &mut fmt::Formatter<F>) -> fmt::Result {
        write!(f, "h {} m {} f {} t {}", self.h, self.m, self.f, self.t)
    }
}

impl TdmaTime {
    /// Are t, f and m in their ranges?
    #[tactic(auto, unfolding(crate::specs::Slots::valid))]
    pub fn is_valid(self) -> bool
        ensures { result ≡ valid self }
    {
        (1..=4).contains(&self.t) && (1..=18).contains(&self.f) && (1..=60).contains(&self.m)
    }

    // The slots of a time in range.
    #[tactic(auto, using(crate::proofs::Range::in_range), unfolding(crate::specs::Slots::slots))]
    fn slots(self) -> u32
        requires { valid self ≡ true }
        ensures value { result ≡ slots_of self }
        ensures upper_bound { result < W }
    {
        (self.t as u32 - 1)
            + (self.f as u32 - 1) * 4
            + (self.m as u32 - 1) * 72
            + self.h as u32 * 4320
    }

    // The time n slots after one in range.
    #[tactic(auto, unfolding(crate::specs::Slots::plus))]
    fn after(self, n: i32) -> TdmaTime
        requires { valid self ≡ true }
        ensures { result ≡ plus self n }
    {
        time_at(wrap(self.slots() as i64 + n as i64))
    }

    // The slots from a time in range to the next slot ts.
    #[tactic(auto, using(crate::proofs::Range::in_range, crate::proofs::Remainders::modulo_frame), unfolding(crate::specs::Slots::ahead))]
    fn ahead(self, ts: u8) -> u8
        requires self_value { valid self ≡ true }
        requires ts_bound { ts ≤ 4 }
        ensures value { result ≡ ahead_of self ts }
        ensures upper_bound { result < 4 }
    {
        (ts + 4 - self.t) % 4
    }

    /// The slots of this time.
    pub fn to_int(self) -> Result<i32, Refusal>
        ensures { outcome result ≡ counted_from self }
    {
        if !self.is_valid() {
            return Err(Refusal::OutOfRange);
        }
        Ok(self.slots() as i32)
    }

    /// The time with so many slots, modulo TIME_INT_WRAP.
    pub fn from_int(time: i32) -> TdmaTime
        ensures { result ≡ time_at (modulo time W) }
    {
        time_at(wrap(time as i64))
    }

    /// The time so many slots later, earlier where num_slots is negative.
    pub fn add_timeslots(self, num_slots: i32) -> Result<TdmaTime, Refusal>
        ensures { outcome result ≡ added self num_slots }
    {
        if !self.is_valid() {
            return Err(Refusal::OutOfRange);
        }
        Ok(self.after(num_slots))
    }

    /// The slots from b to this time, around the wrap.
    #[tactic(auto, unfolding(crate::specs::Slots::minus))]
    pub fn diff(self, b: TdmaTime) -> Result<i32, Refusal>
        ensures { outcome result ≡ difference self b }
    {
        if !self.is_valid() || !b.is_valid() {
            return Err(Refusal::OutOfRange);
        }
        Ok(time_int_diff(self.slots(), b.slots()))
    }

    /// The age of this time at the time `at`.
    pub fn age(self, at: TdmaTime) -> Result<i32, Refusal>
        ensures { outcome result ≡ difference at self }
    {
        at.diff(self)
    }

    /// The first time from this one on that is in slot ts.
    #[tactic(auto, unfolding(crate::specs::Slots::forward))]
    pub fn forward_to_timeslot(self, ts: u8) -> Result<TdmaTime, Refusal>
        ensures { outcome result ≡ forwarded self ts }
    {
        if !self.is_valid() || !(1..=4).contains(&ts) {
            return Err(Refusal::OutOfRange);
        }
        Ok(self.after(self.ahead(ts) as i32))
    }
}

// The time with s slots.
#[tactic(auto, unfolding(crate::specs::Slots::time_at))]
fn time_at(s: u32) -> TdmaTime
    requires { s < W }
    ensures { result ≡ time_at s }
{
    TdmaTime {
        t: (s % 4 + 1) as u8,
        f: (s / 4 % 18 + 1) as u8,
        m: (s / 72 % 60 + 1) as u8,
        h: (s / 4320) as u16,
    }
}

// n slots, modulo W.
#[tactic(auto, using(crate::proofs::Remainders::euclid_is_modulo))]
fn wrap(n: i64) -> u32
    ensures value { result ≡ modulo n W }
    ensures upper_bound { result < W }
{
    n.rem_euclid(TIME_INT_WRAP as i64) as u32
}

// a less b, around the wrap.
#[tactic(auto, unfolding(crate::specs::Slots::centred))]
fn time_int_diff(a: u32, b: u32) -> i32
    requires a_bound { a < W }
    requires b_bound { b < W }
    ensures { result ≡ centred (pos a -ℤ pos b) }
{
    (wrap(a as i64 - b as i64 + HALF) as i64 - HALF) as i32
}
