// The entries for a host written in C (document 01, "The log and the host"): the check of one container, and the feeder (document 02, K9).
#![tactic(auto)]

mod check;
mod feed;

pub use check::c2c_check;
pub use feed::c2c_feed;
