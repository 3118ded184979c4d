// The framing of a log's entry: its number, which is 2·ticks + direction, and the 256 bytes of its container (document 01, "The log and
// the host"). No container is judged.
#![tactic(auto)]

ghost use Rattle.std.specs.Prelude.{◌≡◌};
ghost use Rattle.frame.specs.Framing.{framing};

use container::CONTAINER;
use record::{Number, read_number};

// What stands at the front of bytes: no number, a number with fewer bytes behind it than a container has, or a whole entry, whose container
// begins at `start`.
#[derive(Clone, Copy, Debug, PartialEq, Eq)]
pub enum Framed {
    Broken,
    Short,
    Whole {
        number: u32,
        direction: usize,
        start: usize,
    },
}

// The entry at the front of the bytes.
pub fn frame_entry(bytes: &[u8]) -> Framed
    ensures { result ≡ framing bytes.now }
{
    let Some(Number { value, used }) = read_number(bytes) else {
        return Framed::Broken;
    };
    if bytes.len() < used + CONTAINER {
        return Framed::Short;
    }
    Framed::Whole {
        number: value,
        direction: (value % 2) as usize,
        start: used,
    }
}
