// The basic link of a base station, from tetra-entities' llc_bs_ms.rs: its entry point.
#![tactic(auto)]

mod entry;

pub use entry::{OUTPUT, STORE, call};
