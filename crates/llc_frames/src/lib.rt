// Frames that came in, from tetra-entities' llc_bs_ms.rs.
#![tactic(auto)]

mod acked;
mod frames;
mod numbered;

pub use frames::rx_tma_unitdata_ind;
