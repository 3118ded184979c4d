// Filling containers from a list of messages, in the one way of document 01.
#![tactic(auto)]

mod cursor;
mod fill;
mod group;
mod input;
mod writer;

pub use writer::{Answer, Step, Writer};
