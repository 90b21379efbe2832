// The queues and tables of the link's state, as tetra-entities' llc_bs_ms.rs searches and changes them.
#![tactic(auto)]

mod in_use;
mod searches;
mod updates;

pub use searches::{
    expected_ack_for_ssi, free_place, holds, out_ack_if_any, send_seq, send_seq_row,
    send_seq_row_or_free, waits,
};
pub use updates::{
    push_front_expected_ack, push_message, push_udata_message, schedule_outgoing_ack, set_send_seq,
    take_expected_ack, take_out_ack,
};
