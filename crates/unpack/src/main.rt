// Reads a format and containers from standard input through a window, and prints each finished message as a line of hex and then
// the verdict.
#![tactic(auto)]

ghost use Rattle.std.specs.Prelude.{◌≡◌, ◌-◌, ◌≤◌, length, IfOk, OnOk};
ghost use Rattle.lists.specs.Parts.{part};
ghost use Rattle.unpacker.specs.Stepping.{min_room};
ghost use Rattle.unpack.specs.Turns.{held, Filled, Followed, Taken, printed, Ended};

use input::{Refill, read_more, report_failure};
use std::io::{Error, Read, Write};
use std::process::ExitCode;
use unpacker::{MIN_ROOM, Outcome, Unpacker};

// Why there is no verdict: the input could not be read, or the text could not be written.
#[derive(Clone, Copy)]
pub enum Failure {
    Input(Error),
    Output(Error),
}

// The bytes at hand, from `at` up to `have` in the buffer, and whether the input has ended.
#[derive(Clone, Copy)]
pub struct Window {
    pub at: usize,
    pub have: usize,
    pub ended: bool,
}

// The input behind a turn, how many bytes of text stand in the room, and the window of the next turn, or none behind the verdict.
#[derive(Clone, Copy)]
pub struct Turn {
    pub unpacker: Unpacker,
    pub written: usize,
    pub window: Option<Window>,
}

// The bytes from `at` up to `have`.
fn frame(at: usize, have: usize, ended: bool) -> Window
    ensures { result ≡ record { at = at; have = have; ended = ended } }
{
    Window { at, have, ended }
}

// Keeps the bytes at hand, and puts behind them what one read gives. The buffer has room, for no call asks for more than 256 bytes.
fn refill<R: Read>(input: &mut R, buf: &mut [u8], at: usize, have: usize) -> Result<Window, Error>
    requires { (at ≤ have) × (have ≤ length buf.old) }
    ensures { IfOk result (Filled (part at (have - at) buf.old) buf.new) }
{
    let left = have - at;
    match read_more(input, buf, at, have)? {
        Refill::Got(n) => Ok(frame(0, n, false)),
        Refill::End => Ok(frame(0, left, true)),
        Refill::Full => Err(Error::other("the buffer is full")),
    }
}

// The window behind a call that has left the bytes from `from` up to `have`: they and a refill where it asks for more, none behind the
// verdict.
fn follow_call<R: Read>(
    input: &mut R,
    outcome: Outcome,
    buf: &mut [u8],
    from: usize,
    have: usize,
    ended: bool,
) -> Result<Option<Window>, Error>
    requires { (from ≤ have) × (have ≤ length buf.old) }
    ensures { Followed (part from (have - from) buf.old) ended buf.new outcome result }
{
    match outcome {
        Outcome::Over(_) => Ok(None),
        Outcome::Next => Ok(Some(frame(from, have, ended))),
        Outcome::More => Ok(Some(refill(input, buf, from, have)?)),
    }
}

// One turn: a call on the bytes at hand, and a refill where it asks for more.
fn take_turn<R: Read>(
    input: &mut R,
    unpacker: Unpacker,
    window: Window,
    buf: &mut [u8],
    room: &mut [u8],
) -> Result<Turn, Error>
    requires { (window.at ≤ window.have) × (window.have ≤ length buf.old) × (min_room ≤ length room.old) }
    ensures turn { Taken unpacker (held window buf.old) window.ended buf.new result }
    ensures room { room.new ≡ printed unpacker (held window buf.old) window.ended room.old }
{
    let Window { at, have, ended } = window;
    let step = unpacker.consume(&buf[at..have], ended, room);
    let next = follow_call(input, step.outcome, buf, at + step.used, have, ended)?;
    Ok(Turn {
        unpacker: step.unpacker,
        written: step.written,
        window: next,
    })
}

// Takes turns and writes the text of each, until the verdict is there.
fn unpack_input<R: Read, W: Write>(
    input: &mut R,
    output: &mut W,
    buf: &mut [u8],
    room: &mut [u8],
) -> Result<(), Failure>
    requires { (length buf.old ≡ 65536) × (min_room ≤ length room.old) }
    ensures { OnOk result Ended }
{
    let mut unpacker = Unpacker::fresh();
    let mut window = frame(0, 0, false);
    loop {
        let turn = take_turn(input, unpacker, window, buf, room).map_err(Failure::Input)?;
        output
            .write_all(&room[0..turn.written])
            .map_err(Failure::Output)?;
        let Some(next) = turn.window else {
            return Ok(());
        };
        unpacker = turn.unpacker;
        window = next;
    }
}

fn main(rt: HostRuntime) -> ExitCode {
    let mut buf = io::large_buffer();
    let mut room = [0u8; MIN_ROOM];
    match unpack_input(&mut rt.stdin(), &mut rt.stdout(), &mut buf, &mut room) {
        Ok(()) => ExitCode::SUCCESS,
        Err(Failure::Input(error)) => report_failure(&rt, "unpack", "input", error),
        Err(Failure::Output(error)) => report_failure(&rt, "unpack", "output", error),
    }
}
