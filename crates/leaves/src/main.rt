// Shows the leaves at work: document 01's examples on slot time, frames and the check sequence, outside vectors, the types of
// PDUs, and every mark on every receipt. Each piece of text and each number is a write of its own, so that where one fails
// no more than that is missing.
#![tactic(auto)]

mod frames;
mod receipts;
mod sums;
mod times;
mod types;

fn main(rt: HostRuntime) {
    let to = rt.stdout();
    times::show(to);
    sums::show(to);
    types::show(to);
    frames::show(to);
    receipts::show(to);
}
