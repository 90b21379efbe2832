// The check sequence: document 01's examples and outside vectors, bit by bit and by the table.
use questions::Refusal;
use std::io::Stdout;

pub(crate) fn show(to: Stdout) {
    let _ = to.write_all(b"FCS of no bits: ");
    both(to, b"", 0, 0);
    let _ = to.write_all(b"FCS of bit 0: ");
    both(to, b"\x7f", 0, 1);
    let _ = to.write_all(b"FCS of bit 1: ");
    both(to, b"\x80", 0, 1);
    let _ = to.write_all(b"FCS of 32 ones: ");
    both(to, b"\xff\xff\xff\xff", 0, 32);
    let _ = to.write_all(b"FCS of 123456789: ");
    both(to, b"123456789", 0, 72);
    more(to);
    checks(to);
}

fn more(to: Stdout) {
    let text = b"The quick brown fox jumps over the lazy dog";
    let _ = to.write_all(b"FCS of a text: ");
    both(to, text, 0, 344);
    let _ = to.write_all(b"FCS of 31 of its bits from bit 3 on: ");
    both(to, text, 3, 31);
    let _ = to.write_all(b"FCS of 333 of its bits from bit 5 on: ");
    both(to, text, 5, 333);
    let _ = to.write_all(b"FCS of 345 of its bits: ");
    both(to, text, 0, 345);
}

fn checks(to: Stdout) {
    let _ = to.write_all(b"check of bit 1 and 32 ones: ");
    checked(to, fcs::check_fcs(b"\xff\xff\xff\xff\xff", 3, 33));
    let _ = to.write_all(b"check of bit 1 and 31 ones: ");
    checked(to, fcs::check_fcs(b"\xff\xff\xff\xff\xff", 3, 32));
    let _ = to.write_all(b"check of 31 bits: ");
    checked(to, fcs::check_fcs(b"\xff\xff\xff\xff\xff", 3, 31));
    let _ = to.write_all(b"check of 32 zeros: ");
    checked(to, fcs::check_fcs(b"\x00\x00\x00\x00", 0, 32));
}

fn both(to: Stdout, part: &[u8], at: usize, len: usize) {
    sum(to, fcs::compute_fcs_by_bits(part, at, len));
    let _ = to.write_all(b" ");
    sum(to, fcs::compute_fcs(part, at, len));
    let _ = to.write_all(b"\n");
}

fn sum(to: Stdout, s: Result<u32, Refusal>) {
    let _ = match s {
        Ok(n) => print!(to; "{n:08x}"),
        Err(r) => print!(to; "{r}"),
    };
}

fn checked(to: Stdout, c: Result<(), Refusal>) {
    let _ = match c {
        Ok(()) => to.write_all(b"right\n"),
        Err(r) => println!(to; "{r}"),
    };
}
