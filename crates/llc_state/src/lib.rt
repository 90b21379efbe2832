// The state of the basic link, from tetra-entities' llc_bs_ms.rs, and question 1 of its values.
#![tactic(auto)]

mod ranges;
mod receipts;
mod starts;

pub use starts::NEW;
use tdma_time::TdmaTime;

/// How many places the store has, each for the frame of one message.
pub const STORE_PLACES: usize = 96;

/// How many bytes a place of the store has.
pub const PLACE_BYTES: usize = 336;

/// What is handed down of a message, but for its frame.
#[repr(C)]
#[derive(Clone, Copy)]
pub struct TmaUnitdataReq {
    /// Address to which it is sent.
    pub ssi: u32,
    /// 1 individual, 2 group.
    pub ssi_type: u8,
    /// Carrier on which the message is sent.
    pub carrier_num: u16,
    /// Link id with which it is sent.
    pub link_id: u32,
    /// The request's endpoint.
    pub endpoint_id: u32,
    /// The request's handle.
    pub req_handle: u32,
    /// May it steal?
    pub stealing_permission: bool,
    /// Is there a timeslot mask?
    pub has_mask: bool,
    /// Timeslot mask, if there is one.
    pub mask: u8,
    /// The number of its receipt.
    pub receipt: u8,
    /// How many bytes of the block count.
    pub block_len: usize,
    /// Pass-through block, of which `block_len` bytes count.
    pub block: [u8; 64],
}

/// Where a frame's bits lie in the store.
#[repr(C)]
#[derive(Clone, Copy)]
pub struct FramePlace {
    /// Which of the places of the store its frame has.
    pub place: usize,
    /// How many bits its frame has.
    pub len: usize,
}

/// How far a message has come.
#[repr(C)]
#[derive(Clone, Copy)]
pub struct Progress {
    /// Expected acknowledgement sequence number.
    pub ns: bool,
    /// Was it passed down?
    pub submitted_to_umac: bool,
    /// Was it reported, and noted in a tick end?
    pub has_umac_done: bool,
    /// When that was noted.
    pub t_umac_done: TdmaTime,
    /// How often it was passed down again.
    pub retransmit_count: u8,
}

/// A message that the link holds.
#[repr(C)]
#[derive(Clone, Copy)]
pub struct Entry {
    /// What of it is handed down.
    pub sent: TmaUnitdataReq,
    /// Where its frame lies.
    pub frame: FramePlace,
    /// How far it has come.
    pub progress: Progress,
}

/// An acknowledgement that is due.
#[repr(C)]
#[derive(Clone, Copy)]
pub struct ScheduledOutAck {
    /// Address from which the original message came.
    pub ssi: u32,
    /// 1 individual, 2 group.
    pub ssi_type: u8,
    /// Carrier on which the original message was received.
    pub carrier_num: u16,
    /// Received sequence number.
    pub nr: bool,
    /// Timeslot on which the original message was received.
    pub ts: u8,
}

/// The place of a receipt: the receipt, if it is taken.
#[repr(C)]
#[derive(Clone, Copy)]
pub struct ReceiptPlace {
    /// Does a request hold it?
    pub taken: bool,
    /// Is an acknowledgement expected?
    pub expects_ack: bool,
    /// The number of the receipt's state.
    pub state: u8,
}

/// An address row: the send sequence variable of an SSI, and the last N(S) accepted from it.
#[repr(C)]
#[derive(Clone, Copy)]
pub struct LinkSendSeq {
    /// The address.
    pub ssi: u32,
    /// The N(S) of its next message.
    pub vs: bool,
    /// Was a frame with an N(S) accepted from it?
    pub has_last_ns: bool,
    /// The N(S) of the last one, if there was one.
    pub last_ns: bool,
}

/// The link. The counts stand together, in front of the arrays.
#[repr(C)]
#[derive(Clone, Copy)]
pub struct State {
    /// Was there a start?
    pub started: bool,
    /// Carrier of requests that give none.
    pub main_carrier: u16,
    /// How many slots until a message is passed down again.
    pub t251: u16,
    /// The time of the last tick start.
    pub dltime: TdmaTime,
    /// How many acknowledged messages are held.
    pub n_messages: usize,
    /// How many unacknowledged messages are held.
    pub n_udata: usize,
    /// How many acknowledgements are due.
    pub n_acks: usize,
    /// How many addresses have a row.
    pub n_rows: usize,
    /// The acknowledged messages, in the order of the queue.
    pub outbound_messages: [Entry; 64],
    /// The unacknowledged messages, oldest first.
    pub outbound_udata_messages: [Entry; 32],
    /// The acknowledgements that are due, oldest first.
    pub scheduled_out_acks: [ScheduledOutAck; 64],
    /// The receipts, by their numbers.
    pub receipts: [ReceiptPlace; 128],
    /// The address rows.
    pub link_send_seq: [LinkSendSeq; 256],
}
