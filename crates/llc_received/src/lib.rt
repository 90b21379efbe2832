// What goes up of a frame that came in. From tetra-entities' llc_bs_ms.rs; nothing here knows a link's state.
#![tactic(auto)]

mod upward;

pub use upward::put_upward;
