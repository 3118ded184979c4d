// Containers to their messages as text, read in parts.
#![tactic(auto)]

mod unpack;

pub use unpack::{MIN_ROOM, Outcome, Unpacked, Unpacker};
