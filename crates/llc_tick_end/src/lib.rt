// tick_end of tetra-entities' llc_bs_ms.rs: what is due is handed down, in four passes.
#![tactic(auto)]

mod four_passes;
mod free_messages;
mod messages;
mod replies;
mod retransmissions;
mod udata;

pub use four_passes::tick_end;
