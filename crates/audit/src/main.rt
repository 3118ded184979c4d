// Audits a log on standard input, in parts and in constant memory, and prints the verdict.
#![tactic(auto)]

ghost use Rattle.std.specs.Prelude.{◌≡◌, ◌-◌, ◌≤◌, ◌<◌, length, IfOk, OnOk};
ghost use Rattle.std.specs.Io.KnownBytes.{Appends};
ghost use Rattle.lists.specs.Parts.{part};
ghost use Rattle.logs.specs.Stream.{consuming};
ghost use Rattle.text.specs.Lines.{answer_of, room_of};
ghost use Rattle.audit.specs.Turns.{turn_by, Taken, Audited, log_line};

use input::{Refill, read_more, report_failure};
use logs::{LogReader, LogVerdict};
use std::io::{Read, Result, Write};
use std::process::ExitCode;
use text::write_verdict;

// The room for a line.
const ROOM: usize = 64;

// The log behind a turn: its state, the bytes of the window that are left, from `at` up to `have`, and the verdict where it is there.
#[derive(Clone, Copy)]
pub struct Turn {
    pub reader: LogReader,
    pub at: usize,
    pub have: usize,
    pub verdict: Option<LogVerdict>,
}

// Hands the bytes at hand to one call.
fn judge_bytes(reader: LogReader, bytes: &[u8], ended: bool) -> Turn
    ensures { result ≡ turn_by (length bytes.now) (consuming reader bytes.now ended) }
{
    let consumed = reader.consume(bytes, ended);
    Turn {
        reader: consumed.reader,
        at: consumed.used,
        have: bytes.len(),
        verdict: consumed.outcome,
    }
}

// One turn: the bytes left, and behind them those of one read, go to one call; a read that gives nothing ends the log. The window has
// room, for no call leaves 261 bytes.
fn take_turn<R: Read>(
    input: &mut R,
    reader: LogReader,
    buf: &mut [u8],
    at: usize,
    have: usize,
) -> Result<Turn>
    requires { (at ≤ have) × (have ≤ length buf.old) × (have - at < 261) × (261 ≤ length buf.old) }
    ensures { Taken reader (part at (have - at) buf.old) buf.new result }
{
    let left = have - at;
    match read_more(input, buf, at, have)? {
        Refill::Got(n) => Ok(judge_bytes(reader, &buf[0..n], false)),
        Refill::End => Ok(judge_bytes(reader, &buf[0..left], true)),
        Refill::Full => unreachable!(),
    }
}

// The verdict on the input.
fn audit_input<R: Read>(input: &mut R, buf: &mut [u8]) -> Result<LogVerdict>
    requires { 261 ≤ length buf.old }
    ensures { IfOk result Audited }
{
    let mut reader = LogReader::fresh();
    let mut at = 0;
    let mut have = 0;
    loop {
        let turn = take_turn(input, reader, buf, at, have)?;
        if let Some(verdict) = turn.verdict {
            return Ok(verdict);
        }
        reader = turn.reader;
        at = turn.at;
        have = turn.have;
    }
}

// Writes the line of a verdict, and answers its length.
fn write_line(verdict: LogVerdict, room: &mut [u8]) -> usize
    ensures length { result ≡ answer_of (log_line verdict) room.old }
    ensures room { room.new ≡ room_of (log_line verdict) room.old }
{
    match verdict {
        LogVerdict::Accepted { entries } => write_verdict(entries as u64, Ok(()), room),
        LogVerdict::Refused {
            entries,
            cause,
            place,
        } => write_verdict(entries as u64, Err(cause.at(place)), room),
    }
}

// Writes the line of a verdict to an output.
fn print_verdict<W: Write>(output: &mut W, verdict: LogVerdict) -> Result<()>
    ensures { OnOk result (Appends (W.contents output.old) (W.contents output.new) (log_line verdict)) }
{
    let mut room = [0u8; ROOM];
    let n = write_line(verdict, &mut room);
    output.write_all(&room[0..n])
}

fn main(rt: HostRuntime) -> ExitCode {
    let mut space = io::large_buffer();
    let verdict = match audit_input(&mut rt.stdin(), &mut space) {
        Ok(verdict) => verdict,
        Err(error) => return report_failure(&rt, "audit", "input", error),
    };
    match print_verdict(&mut rt.stdout(), verdict) {
        Ok(()) => ExitCode::SUCCESS,
        Err(error) => report_failure(&rt, "audit", "output", error),
    }
}
