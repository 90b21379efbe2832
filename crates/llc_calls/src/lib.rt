// The calls of a basic link, taken apart from lent bytes, and whether their values are in range.
#![tactic(auto)]

mod decoding;
mod flags;
mod numbers;
mod ranges;

use bits::Part;
pub use decoding::decode;
use tdma_time::TdmaTime;

/// A data or unitdata request, with its block and its SDU lent from its call.
#[derive(Clone, Copy)]
pub struct RequestCall<'a> {
    /// The address, of 24 bits.
    pub ssi: u32,
    /// 1 for an individual address, 2 for a group's.
    pub ssi_type: u8,
    /// 1 if the carrier is given, else 0.
    pub given: u8,
    /// The carrier.
    pub carrier: u16,
    /// The link id.
    pub link: u32,
    /// The endpoint id.
    pub endpoint: u32,
    /// The handle.
    pub handle: u32,
    /// The flags: 1 steal, 2 FCS, 4 mask present.
    pub flags: u8,
    /// The timeslot mask.
    pub mask: u8,
    /// The receipt's number.
    pub receipt: u8,
    /// The block.
    pub block: &'a [u8],
    /// The SDU's bits.
    pub sdu: Part<'a>,
}

/// A frame, with its block and its PDU lent from its call.
#[derive(Clone, Copy)]
pub struct FrameCall<'a> {
    /// The address, of 24 bits.
    pub ssi: u32,
    /// 1 for an individual address, 2 for a group's.
    pub ssi_type: u8,
    /// The carrier.
    pub carrier: u16,
    /// The link id.
    pub link: u32,
    /// The endpoint id.
    pub endpoint: u32,
    /// The block.
    pub block: &'a [u8],
    /// The PDU's bits.
    pub pdu: Part<'a>,
}

/// The service that a request asks for.
#[derive(Clone, Copy)]
pub enum Service {
    /// A data request.
    TlData,
    /// A unitdata request.
    TlUnitdata,
}

/// What a call does by receipt.
#[derive(Clone, Copy)]
pub enum Action {
    /// A report: 1 for transmitted or 2 for discarded.
    Report(u8),
    /// A release.
    Release,
}

/// A call.
#[derive(Clone, Copy)]
pub enum Call<'a> {
    /// The main carrier and T251.
    Start(u16, u16),
    /// The time.
    TickStart(TdmaTime),
    /// A tick end.
    TickEnd,
    /// A request for a service.
    Request(Service, RequestCall<'a>),
    /// A frame.
    Frame(FrameCall<'a>),
    /// A receipt, and what is done by it.
    ByReceipt(u8, Action),
}
