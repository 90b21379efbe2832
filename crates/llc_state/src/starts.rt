// The states that the link begins with, and the time of a tick.
ghost use Rattle.std.specs.Prelude.{◌≡◌};
ghost use Rattle.llc_state.specs.Progress.{new_progress};
ghost use Rattle.llc_state.specs.States.{no_entry, no_ack, no_receipt, new_seq, new_state, started_state, at_time};

use crate::{
    Entry, FramePlace, LinkSendSeq, Progress, ReceiptPlace, ScheduledOutAck, State, TmaUnitdataReq,
};
use tdma_time::TdmaTime;

// The first time.
const FIRST: TdmaTime = TdmaTime {
    t: 1,
    f: 1,
    m: 1,
    h: 0,
};

// The values of an entry that is not in use, by its groups.
const NO_SENT: TmaUnitdataReq = TmaUnitdataReq {
    ssi: 0,
    ssi_type: 0,
    carrier_num: 0,
    link_id: 0,
    endpoint_id: 0,
    req_handle: 0,
    stealing_permission: false,
    has_mask: false,
    mask: 0,
    receipt: 0,
    block_len: 0,
    block: [0; 64],
};

const NO_FRAME: FramePlace = FramePlace { place: 0, len: 0 };

const NO_PROGRESS: Progress = Progress {
    ns: false,
    submitted_to_umac: false,
    has_umac_done: false,
    t_umac_done: FIRST,
    retransmit_count: 0,
};

const NO_ENTRY: Entry = Entry {
    sent: NO_SENT,
    frame: NO_FRAME,
    progress: NO_PROGRESS,
};

// The values of an acknowledgement, a receipt's place and a row that are not in use.
const NO_ACK: ScheduledOutAck = ScheduledOutAck {
    ssi: 0,
    ssi_type: 0,
    carrier_num: 0,
    nr: false,
    ts: 0,
};

const NO_RECEIPT: ReceiptPlace = ReceiptPlace {
    taken: false,
    expects_ack: false,
    state: 0,
};

const NO_ROW: LinkSendSeq = LinkSendSeq {
    ssi: 0,
    vs: false,
    has_last_ns: false,
    last_ns: false,
};

/// The new state: empty and not started.
pub const NEW: State = State {
    started: false,
    main_carrier: 0,
    t251: 0,
    dltime: FIRST,
    n_messages: 0,
    outbound_messages: [NO_ENTRY; 64],
    n_udata: 0,
    outbound_udata_messages: [NO_ENTRY; 32],
    n_acks: 0,
    scheduled_out_acks: [NO_ACK; 64],
    receipts: [NO_RECEIPT; 128],
    n_rows: 0,
    link_send_seq: [NO_ROW; 256],
};

impl Progress {
    /// How far a new message has come, by its N(S).
    pub fn new(ns: bool) -> Progress
        ensures { result ≡ new_progress ns }
    {
        Progress { ns, ..NO_PROGRESS }
    }
}

impl Entry {
    /// An entry that is not in use.
    #[tactic(auto, unfolding(crate::specs::States::no_entry))]
    pub fn empty() -> Entry
        ensures { result ≡ no_entry }
    {
        NO_ENTRY
    }
}

impl ScheduledOutAck {
    /// An acknowledgement that is not in use.
    pub fn empty() -> ScheduledOutAck
        ensures { result ≡ no_ack }
    {
        NO_ACK
    }
}

impl ReceiptPlace {
    /// A place that is not taken.
    pub fn empty() -> ReceiptPlace
        ensures { result ≡ no_receipt }
    {
        NO_RECEIPT
    }
}

impl LinkSendSeq {
    /// The row of an SSI that has sent and heard nothing.
    pub fn new(ssi: u32) -> LinkSendSeq
        ensures { result ≡ new_seq ssi }
    {
        LinkSendSeq { ssi, ..NO_ROW }
    }
}

impl State {
    /// The new state: empty and not started.
    #[tactic(auto, unfolding(crate::specs::States::empty_state, crate::specs::States::no_entry))]
    pub fn new() -> State
        ensures { result ≡ new_state }
    {
        NEW
    }

    /// The state that a start leaves, whatever was there before.
    #[tactic(auto, unfolding(crate::specs::States::empty_state, crate::specs::States::no_entry))]
    pub fn start(main_carrier: u16, t251: u16) -> State
        ensures { result ≡ started_state main_carrier t251 }
    {
        State {
            started: true,
            main_carrier,
            t251,
            ..NEW
        }
    }

    /// The time of a tick.
    pub fn tick_start(&mut self, ts: TdmaTime)
        ensures { self.new ≡ at_time self.old ts }
    {
        self.dltime = ts;
    }
}
