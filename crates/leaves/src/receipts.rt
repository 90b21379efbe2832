// Receipts: every mark from every state, with and without an acknowledgement expected.
use questions::Refusal;
use std::io::Stdout;
use tx_receipt::{TxReceipt, TxState};

pub(crate) fn show(to: Stdout) {
    from_each_state(to, true);
    from_each_state(to, false);
}

fn from_each_state(to: Stdout, expects_ack: bool) {
    for n in 0..5 {
        from_state(
            to,
            TxReceipt {
                expects_ack,
                state: TxState::from(n),
            },
        );
    }
}

fn from_state(to: Stdout, r: TxReceipt) {
    questions(to, r);
    let _ = to.write_all(b"  mark_transmitted: ");
    marked(to, r, r.mark_transmitted());
    let _ = to.write_all(b"  mark_discarded: ");
    marked(to, r, r.mark_discarded());
    let _ = to.write_all(b"  mark_acknowledged: ");
    marked(to, r, r.mark_acknowledged());
    let _ = to.write_all(b"  mark_lost: ");
    marked(to, r, r.mark_lost());
    let _ = to.write_all(b"  reset: ");
    state_name(to, r.reset().state);
    let _ = to.write_all(b"\n");
}

// The receipt, and what it answers to each question.
fn questions(to: Stdout, r: TxReceipt) {
    state_name(to, r.get_state());
    let _ = if r.expects_ack {
        to.write_all(b", acknowledgement expected:")
    } else {
        to.write_all(b", none expected:")
    };
    if r.is_discarded() {
        let _ = to.write_all(b" is_discarded");
    }
    if r.is_transmitted() {
        let _ = to.write_all(b" is_transmitted");
    }
    if r.is_acknowledged() {
        let _ = to.write_all(b" is_acknowledged");
    }
    if r.is_in_final_state() {
        let _ = to.write_all(b" is_in_final_state");
    }
    let _ = to.write_all(b"\n");
}

// The receipt r after a mark, or that it is refused.
fn marked(to: Stdout, r: TxReceipt, marked: Result<TxReceipt, Refusal>) {
    match marked {
        Ok(t) => state_name(to, t.state),
        Err(refusal) => {
            let _ = to.write_all(b"refused (");
            let _ = to.print(u8::from(refusal));
            let _ = to.write_all(b"), ");
            state_name(to, r.state);
        }
    }
    let _ = to.write_all(b"\n");
}

// The state's number and name.
fn state_name(to: Stdout, state: TxState) {
    let _ = to.print(u8::from(state));
    let _ = print!(to; " {state:?}");
}
