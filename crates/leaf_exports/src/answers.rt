// The answers of the functions on windows as structs of numbers.
ghost use Rattle.std.specs.Prelude.{◌≡◌};
ghost use Rattle.questions.specs.Refusals.{outcome};
ghost use Rattle.bitbuffer.specs.Answers.{peeked, read};
ghost use Rattle.leaf_exports.specs.Windows.{window_of, count_of, found_of, got_of, copy_of, to_value, to_none};

use bitbuffer::{BitBuffer, Windows};
use questions::Refusal;

/// What a function on a window answers.
#[repr(C)]
#[derive(Clone, Copy)]
pub struct WindowAnswer {
    /// Document 01's number, 0 where it is accepted.
    pub number: u8,
    /// Was a value found?
    pub is_found: bool,
    /// The value, 0 where there is none.
    pub value: u64,
    /// The window after it.
    pub window: BitBuffer,
}

/// What a copy answers.
#[repr(C)]
#[derive(Clone, Copy)]
pub struct CopyAnswer {
    /// Document 01's number, 0 where it is accepted.
    pub number: u8,
    /// Both windows after it.
    pub windows: Windows,
}

impl WindowAnswer {
    // A value, and the window w.
    fn found(value: u64, w: BitBuffer) -> WindowAnswer
        ensures { result ≡ to_value value w }
    {
        WindowAnswer {
            number: 0,
            is_found: true,
            value,
            window: w,
        }
    }

    // A number, no value, and the window w.
    fn without(number: u8, w: BitBuffer) -> WindowAnswer
        ensures { result ≡ to_none number w }
    {
        WindowAnswer {
            number,
            is_found: false,
            value: 0,
            window: w,
        }
    }

    // Where the window was w: the window after a step or a write.
    pub(crate) fn of_window(w: BitBuffer, r: Result<BitBuffer, Refusal>) -> WindowAnswer
        ensures { result ≡ window_of w (outcome r) }
    {
        match r {
            Ok(v) => WindowAnswer::without(0, v),
            Err(refusal) => WindowAnswer::without(refusal.into(), w),
        }
    }

    // Where the window was w: a number of bits.
    pub(crate) fn of_count(w: BitBuffer, r: Result<usize, Refusal>) -> WindowAnswer
        ensures { result ≡ count_of w (outcome r) }
    {
        WindowAnswer::of_read(w, r.map(|n| Some((n as u64, w))))
    }

    // Where the window was w: what a peek finds.
    pub(crate) fn of_peeked(w: BitBuffer, r: Result<Option<u64>, Refusal>) -> WindowAnswer
        ensures { result ≡ found_of w (peeked r) }
    {
        WindowAnswer::of_read(w, r.map(|o| o.map(|value| (value, w))))
    }

    // Where the window was w: what a read gives.
    pub(crate) fn of_read(
        w: BitBuffer,
        r: Result<Option<(u64, BitBuffer)>, Refusal>,
    ) -> WindowAnswer
        ensures { result ≡ got_of w (read r) }
    {
        match r {
            Ok(Some((value, v))) => WindowAnswer::found(value, v),
            Ok(None) => WindowAnswer::without(0, w),
            Err(refusal) => WindowAnswer::without(refusal.into(), w),
        }
    }
}

impl CopyAnswer {
    // Where the windows were w and v: what a copy from v to w gives.
    pub(crate) fn of(w: BitBuffer, v: BitBuffer, r: Result<Windows, Refusal>) -> CopyAnswer
        ensures { result ≡ copy_of w v (outcome r) }
    {
        match r {
            Ok(windows) => CopyAnswer { number: 0, windows },
            Err(refusal) => CopyAnswer {
                number: refusal.into(),
                windows: Windows { to: w, from: v },
            },
        }
    }
}
