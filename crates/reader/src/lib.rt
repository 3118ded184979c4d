// Reading containers: judged granule by granule, the finished messages written as records to lent room (document 01, "Placement").
#![tactic(auto)]

mod carry;
mod cell;
mod contents;
mod gather;
mod group;
mod judge;
mod reader;
mod records;
mod track;

pub use carry::Carry;
pub use reader::{Answer, JudgeAnswer, Judged, ROOM, Reader, Step};
