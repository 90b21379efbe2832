// The records of a basic link, written into lent bytes as llc_rule's definitions have them.
#![tactic(auto)]

mod fields;
mod records;

use bits::Part;
pub use records::{put_indication, put_reply, put_sent};

/// A message as it is handed down.
#[derive(Clone, Copy)]
pub struct SentRecord<'a> {
    /// The address, of which three bytes are written.
    pub ssi: u32,
    /// 1 individual or 2 group.
    pub ssi_type: u8,
    /// The carrier.
    pub carrier: u16,
    /// The link id.
    pub link: u32,
    /// The endpoint id.
    pub endpoint: u32,
    /// The request's handle.
    pub handle: u32,
    /// Does it steal?
    pub steal: bool,
    /// The timeslot mask, if there is one.
    pub mask: Option<u8>,
    /// The receipt.
    pub receipt: u8,
    /// The block.
    pub block: &'a [u8],
    /// The bits of the PDU.
    pub frame: Part<'a>,
}

/// What a received frame sends up.
#[derive(Clone, Copy)]
pub struct IndicationRecord<'a> {
    /// The address, of which three bytes are written.
    pub ssi: u32,
    /// 1 individual or 2 group.
    pub ssi_type: u8,
    /// The link id.
    pub link: u32,
    /// The endpoint id.
    pub endpoint: u32,
    /// The frame's block.
    pub block: &'a [u8],
    /// The frame's FCS flag.
    pub has_fcs: bool,
    /// The bits of the SDU.
    pub sdu: Part<'a>,
}

/// An acknowledgement reply as it is handed down: its PDU is a BL-ACK without FCS flag.
#[derive(Clone, Copy)]
pub struct ReplyRecord {
    /// The address, of which three bytes are written.
    pub ssi: u32,
    /// 1 individual or 2 group.
    pub ssi_type: u8,
    /// The carrier.
    pub carrier: u16,
    /// The link id.
    pub link: u32,
    /// Does it steal?
    pub steal: bool,
    /// The timeslot mask, if there is one.
    pub mask: Option<u8>,
    /// The N(R) of the BL-ACK.
    pub nr: bool,
}
