// What a program says of a read or a write that has failed.
ghost use Rattle.std.specs.Prelude.{◌≡◌, ◌≤◌, length};
ghost use Rattle.std.specs.Io.{StartsWith};
ghost use Rattle.std.specs.Process.{exit_status};

use std::io::{Cursor, Error, Write};
use std::process::ExitCode;

// What stands between the reason of an error and the system's number of it.
const NUMBER: &str = " (os error ";

// The room for an error's text.
const ROOM: usize = 320;

// The reason at the front of an error's text.
fn cut_reason(text: &str) -> &str
    ensures { StartsWith text.now result.now }
{
    let Some((reason, _)) = text.split_once(NUMBER) else {
        return text;
    };
    reason
}

// Writes an error's text to a room, as far as it goes, and answers how many bytes of it stand there.
fn write_error(error: Error, room: &mut [u8]) -> usize
    ensures { result ≤ length room.old }
{
    let size = room.len();
    let mut cursor = Cursor::new(room);
    let _ = write!(cursor, "{error}");
    size.min(cursor.position() as usize)
}

// Says on standard error which stream of a program has failed and why, and answers the exit status of a failure.
pub fn report_failure(rt: &impl Eprint, program: &str, stream: &str, error: Error) -> ExitCode
    ensures { exit_status result ≡ 1 }
{
    let mut room = [0u8; ROOM];
    let size = write_error(error, &mut room);
    let _ = match str::from_utf8(&room[0..size]) {
        Ok(text) => eprintln!(rt; "{program}: standard {stream}: {}", cut_reason(text)),
        Err(_) => eprintln!(rt; "{program}: standard {stream}"),
    };
    ExitCode::FAILURE
}
