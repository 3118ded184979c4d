// The lines that programs print, written to lent room.
#![tactic(auto)]

mod messages;
mod verdict;

pub use messages::write_messages;
pub use verdict::{write_refusal, write_verdict};
