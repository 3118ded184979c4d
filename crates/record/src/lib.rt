// Numbers in seven-bit groups and lists of records (document 01, "The writer's one way").
#![tactic(auto)]

mod list;
mod number;

pub use list::{First, LONGEST_LIST, check_list, read_record};
pub use number::{Encoded, Number, encode_number, read_number};
