// An input, read through a window: the bytes that are kept, and behind them what one read gives.
#![tactic(auto)]

mod failure;

ghost use Rattle.std.specs.Prelude.{◌≡◌, ◌-◌, length};
ghost use Rattle.lists.specs.Parts.{part};
ghost use Rattle.input.specs.Refills.{answered, AtHand, Refilled};

pub use failure::report_failure;
use slices::move_front;
use std::io;
use std::io::{ErrorKind, Read};

// What a refill comes to.
#[derive(Clone, Copy, Debug, PartialEq, Eq)]
pub enum Refill {
    // The bytes at hand: those that were kept, and at least one more.
    Got(usize),
    // The input has ended.
    End,
    // The kept bytes fill the window, and nothing was read.
    Full,
}

// What a read's answer says of the room that it was lent.
fn name_answer(got: io::Result<usize>, room: &[u8]) -> io::Result<Refill>
    ensures { result ≡ answered got (length room.now) }
{
    match got?.min(room.len()) {
        0 => Ok(Refill::End),
        n => Ok(Refill::Got(n)),
    }
}

// Reads the input once; a read that a signal has interrupted is tried again.
fn read_input<R: Read>(input: &mut R, room: &mut [u8]) -> io::Result<Refill>
    ensures { AtHand 0 (length room.old) result }
{
    if room.len() == 0 {
        return Ok(Refill::Full);
    }
    for _ in 0..u64::MAX {
        match input.read(room) {
            Err(error) if error.kind() == ErrorKind::Interrupted => {}
            got => return name_answer(got, room),
        }
    }
    Err(io::Error::from(ErrorKind::Interrupted))
}

// Keeps the window's bytes from `from` up to `have` at its front, and puts behind them what one read of the input gives.
pub fn read_more<R: Read>(
    input: &mut R,
    buf: &mut [u8],
    from: usize,
    have: usize,
) -> io::Result<Refill>
    ensures { Refilled (part from (have - from) buf.old) buf.old buf.new result }
{
    let kept = buf.len().min(have).saturating_sub(from);
    move_front(buf, from, kept);
    match read_input(input, &mut buf[kept..])? {
        Refill::Got(n) => Ok(Refill::Got(kept + n)),
        other => Ok(other),
    }
}
