// The sixteen types of LLC PDUs by their numbers, there and back.
use llc_pdus::LlcPduType;
use std::io::Stdout;

pub(crate) fn show(to: Stdout) {
    for n in 0..17u64 {
        line(to, n);
    }
}

fn line(to: Stdout, n: u64) {
    let _ = to.write_all(b"type ");
    let _ = to.print(n);
    let _ = to.write_all(b": ");
    match LlcPduType::try_from(n) {
        Ok(t) => {
            let _ = print!(to; "{t}");
            let _ = to.write_all(b", ");
            let _ = to.print(u64::from(t));
            let _ = to.write_all(b"\n");
        }
        Err(r) => {
            let _ = println!(to; "{r}");
        }
    }
}
