// The record at a position of a waiting list.
ghost use Rattle.std.specs.Prelude.{◌≡◌, ◌≤◌, length};
ghost use Rattle.feeder.specs.Due.{response_by, belongs_by, found_at};

use message::count_responses;
use record::{First, read_record};
use slices::byte_at;

// One of the two waiting lists.
#[derive(Clone, Copy, Debug, PartialEq, Eq)]
pub enum Waiting {
    Responses,
    Others,
}

// Whether messages of a type are responses.
fn is_response(msgtype: u8) -> bool
    ensures { result ≡ response_by msgtype }
{
    0 < count_responses(msgtype)
}

// Whether messages of a type belong in a waiting list.
fn belongs(list: Waiting, msgtype: u8) -> bool
    ensures { result ≡ belongs_by list msgtype }
{
    match list {
        Waiting::Responses => is_response(msgtype),
        Waiting::Others => !is_response(msgtype),
    }
}

// The end of the record at a position of a waiting list with these bytes, none where it is broken or misplaced.
pub(crate) fn find_record(list: Waiting, bytes: &[u8], at: usize) -> Option<usize>
    requires { at ≤ length bytes.now }
    ensures { result ≡ found_at list bytes.now at }
{
    match read_record(&bytes[at..]) {
        First::Empty => None,
        First::Bad => None,
        First::Whole { start, end } => {
            belongs(list, byte_at(bytes, at + start) % 16).then_some(at + end)
        }
    }
}
