// Bytes of a slice: a byte, the test that all are zero, bytes moved to the front, a part copied and zeros written.
#![tactic(auto)]

mod bytes;
mod copy;

pub use bytes::{byte_at, is_zero, is_zero_from, item_or, move_front};
pub use copy::{clear, copy_into};
