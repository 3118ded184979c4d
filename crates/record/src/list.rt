// A list of records: the first of them, and the check of them all.
ghost use Rattle.std.specs.Prelude.{◌≡◌};
ghost use Rattle.record.specs.Records.{cut, first_of, list_fault};

use crate::number::{Number, read_number};
use cause::{Cause, Verdict};
use message::is_message;

// The most bytes of a list.
pub const LONGEST_LIST: usize = 4096;

// The first record of a list: none, a broken one, or the bytes of its message from start to end.
#[derive(Clone, Copy, Debug, PartialEq, Eq)]
pub enum First {
    Empty,
    Bad,
    Whole { start: usize, end: usize },
}

// The record whose size number stands at the front of a list.
fn cut_record(list: &[u8], number: Option<Number>) -> First
    ensures { result ≡ cut list.now number }
{
    let Some(Number { value, used }) = number else {
        return First::Bad;
    };
    let size = value as usize;
    if list.len() < used {
        return First::Bad;
    }
    if list.len() - used < size {
        return First::Bad;
    }
    let end = used + size;
    if is_message(&list[used..end]) {
        return First::Whole { start: used, end };
    }
    First::Bad
}

// The first record of a list.
pub fn read_record(list: &[u8]) -> First
    ensures { result ≡ first_of list.now }
{
    if list.len() == 0 {
        return First::Empty;
    }
    cut_record(list, read_number(list))
}

// The check of a whole list: accepted, or the offset of the first broken record.
pub fn check_list(list: &[u8]) -> Verdict
    ensures { result ≡ list_fault list.now }
{
    let mut at = 0;
    while at < list.len() {
        let first = read_record(&list[at..]);
        match first {
            First::Empty => return Ok(()),
            First::Bad => return Err(Cause::BrokenRecord.at(at as u64)),
            First::Whole { start: _, end } => {
                at += end;
            }
        }
    }
    Ok(())
}
