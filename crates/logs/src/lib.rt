// The log of a link: its configuration, and its verdict, read in parts (document 01, "The log and the host").
#![tactic(auto)]

mod configuration;
mod log;

pub use configuration::{Configuration, read_configuration, start_ledger};
pub use log::{Consumed, LogReader, LogVerdict};
