// Data and unitdata requests, from tetra-entities' llc_bs_ms.rs: the questions first, then the message is put last.
#![tactic(auto)]

mod entries;
mod requests;

pub use requests::{rx_tla_tldata_req_bl, rx_tla_tlunitdata_req_bl};
