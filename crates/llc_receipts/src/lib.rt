// The calls by receipt: reports and releases, from tetra-entities' llc_bs_ms.rs and document 01.
#![tactic(auto)]

mod reports;

pub use reports::{release, rx_tma_report_ind};
