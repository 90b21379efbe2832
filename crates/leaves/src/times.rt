// Slot time: document 01's examples, and the edges of an i32.
use questions::Refusal;
use std::io::Stdout;
use tdma_time::TdmaTime;

pub(crate) fn show(to: Stdout) {
    sums(to);
    steps(to);
    differences(to);
    edges(to);
    refusals(to);
}

fn sums(to: Stdout) {
    let _ = to.write_all(b"first time - 2: ");
    time(to, TdmaTime::default().add_timeslots(-2));
    let _ = to.write_all(b"last time + 1: ");
    time(to, LAST.add_timeslots(1));
}

fn steps(to: Stdout) {
    let _ = to.write_all(b"t 3 forward to 1: ");
    slots(to, forward(THIRD, 1));
    let _ = to.write_all(b"t 1 forward to 1: ");
    slots(to, forward(TdmaTime::default(), 1));
}

fn differences(to: Stdout) {
    let _ = to.write_all(b"the time W/2 slots later, less the earlier: ");
    slots(to, later(THIRD, 141_557_760));
    let _ = to.write_all(b"the time W/2 - 1 slots later, less the earlier: ");
    slots(to, later(THIRD, 141_557_759));
    let _ = to.write_all(b"the age of the first time at t 3: ");
    slots(to, TdmaTime::default().age(THIRD));
}

fn edges(to: Stdout) {
    let _ = to.write_all(b"last time + 1864368128: ");
    time(to, LAST.add_timeslots(1_864_368_128));
    let _ = to.write_all(b"last time + 1864368129: ");
    time(to, LAST.add_timeslots(1_864_368_129));
    let _ = to.write_all(b"last time + 2147483647: ");
    time(to, LAST.add_timeslots(2_147_483_647));
    let _ = to.write_all(b"first time - 2147483648: ");
    time(to, TdmaTime::default().add_timeslots(-2_147_483_648));
    let _ = to.write_all(b"the slots of the last time: ");
    slots(to, LAST.to_int());
    let _ = to.write_all(b"the time with -1 slots: ");
    time_line(to, TdmaTime::from_int(-1));
}

fn refusals(to: Stdout) {
    let fifth = TdmaTime {
        t: 5,
        f: 1,
        m: 1,
        h: 0,
    };
    let _ = to.write_all(b"t 5, so out of range, + 1: ");
    time(to, fifth.add_timeslots(1));
    let _ = to.write_all(b"t 1 forward to 5: ");
    time(to, TdmaTime::default().forward_to_timeslot(5));
}

const LAST: TdmaTime = TdmaTime {
    t: 4,
    f: 18,
    m: 60,
    h: 65535,
};

const THIRD: TdmaTime = TdmaTime {
    t: 3,
    f: 1,
    m: 1,
    h: 0,
};

// The slots that lie between a time and the one that it goes forward to.
fn forward(a: TdmaTime, ts: u8) -> Result<i32, Refusal> {
    a.forward_to_timeslot(ts)?.diff(a)
}

// The difference of a time n slots later and the time itself.
fn later(a: TdmaTime, n: i32) -> Result<i32, Refusal> {
    a.add_timeslots(n)?.diff(a)
}

fn time(to: Stdout, moved: Result<TdmaTime, Refusal>) {
    match moved {
        Ok(a) => time_line(to, a),
        Err(r) => {
            let _ = println!(to; "{r}");
        }
    }
}

fn time_line(to: Stdout, a: TdmaTime) {
    let _ = to.write_all(b"h ");
    let _ = to.print(a.h);
    let _ = to.write_all(b" m ");
    let _ = to.print(a.m);
    let _ = to.write_all(b" f ");
    let _ = to.print(a.f);
    let _ = to.write_all(b" t ");
    let _ = to.print(a.t);
    let _ = to.write_all(b"\n");
}

fn slots(to: Stdout, counted: Result<i32, Refusal>) {
    match counted {
        Ok(n) => {
            signed(to, n);
            let _ = to.write_all(b" slots\n");
        }
        Err(r) => {
            let _ = println!(to; "{r}");
        }
    }
}

fn signed(to: Stdout, n: i32) {
    if n < 0 {
        let _ = to.write_all(b"-");
    }
    let _ = to.print(n.unsigned_abs());
}
