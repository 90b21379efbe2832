// The basic link PDUs, from tetra-pdus' llc: BL-ADATA, BL-DATA, BL-UDATA and BL-ACK, read and written in lent bytes.
#![tactic(auto)]

mod headers;
mod llc_pdu_type;
mod names;
mod reading;
mod writing;

pub use llc_pdu_type::LlcPduType;
pub use reading::{from_bitbuf, sdu_bytes};
pub use writing::{N251_BL_MAX_TLSDU_LEN_BITS, to_bitbuf};

/// A basic link PDU without its SDU.
#[derive(Clone, Copy, Debug, PartialEq, Eq)]
pub enum Pdu {
    /// Clause 21.2.2.2: data, with an acknowledgement.
    BlAdata { has_fcs: bool, nr: bool, ns: bool },
    /// Clause 21.2.2.3: data to be acknowledged.
    BlData { has_fcs: bool, ns: bool },
    /// Clause 21.2.2.4: data that is not acknowledged.
    BlUdata { has_fcs: bool },
    /// Clause 21.2.2.1: an acknowledgement.
    BlAck { has_fcs: bool, nr: bool },
}

/// Where an SDU lies in a frame.
#[derive(Clone, Copy, Debug, PartialEq, Eq)]
pub struct Sdu {
    /// Its first bit's place in the frame.
    pub first: usize,
    /// How many bits it has.
    pub len: usize,
    /// Its first bit's place in the bytes that hold it; 0 if it is empty.
    pub place: usize,
}
