// Frames: document 01's examples and frames with FCS read, and a frame of each PDU written and read back.
use llc_pdus::{Pdu, Sdu};
use questions::Refusal;
use std::io::Stdout;

pub(crate) fn show(to: Stdout) {
    let _ = to.write_all(b"010111 and 32 ones: ");
    read(to, b"\x5f\xff\xff\xff\xff", 38);
    let _ = to.write_all(b"010111 and 31 ones: ");
    read(to, b"\x5f\xff\xff\xff\xff", 37);
    let _ = to.write_all(b"0110, b3 and its FCS: ");
    read(to, b"\x6b\x3f\xe7\x51\x4e\xc0", 44);
    let _ = to.write_all(b"01110 and the FCS of no bits: ");
    read(to, b"\x70\x00\x00\x00\x00", 37);
    let _ = to.write_all(b"000: ");
    read(to, b"\x00", 3);
    let _ = to.write_all(b"1000: ");
    read(to, b"\x80", 4);
    let _ = to.write_all(b"0001: ");
    read(to, b"\x10", 4);
    let _ = to.write_all(b"0011 and N(R) 1 alone: ");
    read(to, b"\x38", 5);
    let _ = to.write_all(b"nine bits of one byte: ");
    read(to, b"\x10", 9);
    outside(to);
    written(to);
}

// SDUs that do not lie in the frame: nine bits of one byte, and none from bit 9 on.
fn outside(to: Stdout) {
    let _ = to.write_all(b"nine bits of one byte as an SDU: ");
    held(to, b"\x10", unplaced(0, 9));
    let _ = to.write_all(b"no bits of one byte from bit 8 on: ");
    held(to, b"\x10", unplaced(8, 0));
    let _ = to.write_all(b"from bit 9 on: ");
    held(to, b"\x10", unplaced(9, 0));
}

fn unplaced(first: usize, len: usize) -> Sdu {
    Sdu {
        first,
        len,
        place: 0,
    }
}

fn written(to: Stdout) {
    let _ = to.write_all(b"BL-ADATA N(R) 1 N(S) 0: ");
    write(
        to,
        Pdu::BlAdata {
            has_fcs: false,
            nr: true,
            ns: false,
        },
    );
    let _ = to.write_all(b"BL-DATA N(S) 1: ");
    write(
        to,
        Pdu::BlData {
            has_fcs: false,
            ns: true,
        },
    );
    let _ = to.write_all(b"BL-DATA N(S) 1 with FCS: ");
    write(
        to,
        Pdu::BlData {
            has_fcs: true,
            ns: true,
        },
    );
    let _ = to.write_all(b"BL-UDATA: ");
    write(to, Pdu::BlUdata { has_fcs: false });
    let _ = to.write_all(b"BL-ACK N(R) 1: ");
    write(
        to,
        Pdu::BlAck {
            has_fcs: false,
            nr: true,
        },
    );
}

// Writes a PDU with twelve bits of an SDU from bit 3 on, shows the bytes, and reads them back.
fn write(to: Stdout, pdu: Pdu) {
    let mut out = [170u8; 7];
    match llc_pdus::to_bitbuf(pdu, b"\xf3\xc5", 3, 12, &mut out) {
        Ok(n) => {
            bytes(to, &out);
            let _ = to.write_all(b" ");
            read(to, &out, n);
        }
        Err(r) => refused(to, r),
    }
}

// The PDU, where its SDU lies, and the bytes that hold it.
fn read(to: Stdout, frame: &[u8], len: usize) {
    match llc_pdus::from_bitbuf(frame, len) {
        Ok((pdu, sdu)) => {
            name(to, pdu);
            let _ = to.write_all(b", SDU of ");
            let _ = to.print(sdu.len);
            let _ = to.write_all(b" bits from bit ");
            let _ = to.print(sdu.place);
            let _ = to.write_all(b" of ");
            held(to, frame, sdu);
        }
        Err(r) => refused(to, r),
    }
}

fn refused(to: Stdout, r: Refusal) {
    let _ = to.write_all(b"refused (");
    let _ = to.print(u8::from(r));
    let _ = to.write_all(b")\n");
}

fn name(to: Stdout, pdu: Pdu) {
    let (name, has_fcs) = match pdu {
        Pdu::BlAdata { has_fcs, .. } => ("BL-ADATA", has_fcs),
        Pdu::BlData { has_fcs, .. } => ("BL-DATA", has_fcs),
        Pdu::BlUdata { has_fcs } => ("BL-UDATA", has_fcs),
        Pdu::BlAck { has_fcs, .. } => ("BL-ACK", has_fcs),
    };
    let _ = print!(to; "{name}");
    if has_fcs {
        let _ = to.write_all(b" with FCS");
    }
    if let Some(nr) = pdu.nr() {
        let _ = to.write_all(b" N(R) ");
        let _ = to.print(u8::from(nr));
    }
    if let Some(ns) = pdu.ns() {
        let _ = to.write_all(b" N(S) ");
        let _ = to.print(u8::from(ns));
    }
}

fn held(to: Stdout, frame: &[u8], sdu: Sdu) {
    match llc_pdus::sdu_bytes(frame, sdu) {
        Ok(part) => {
            bytes(to, part);
            let _ = to.write_all(b"\n");
        }
        Err(r) => {
            let _ = to.write_all(b"no bytes: ");
            refused(to, r);
        }
    }
}

fn bytes(to: Stdout, b: &[u8]) {
    for x in b {
        let _ = print!(to; "{x:02x}");
    }
}
