// Reads a format and a list of records from standard input, and writes the containers that carry its messages, with no grants; a
// refused input gives one line instead.
#![tactic(auto)]

mod packing;

ghost use Rattle.std.specs.Prelude.{IfOk, OnOk};
ghost use Rattle.std.specs.Io.KnownBytes.{Appends};
ghost use Rattle.pack.specs.Inputs.{Loaded};
ghost use Rattle.pack.specs.Packing.{pack_output};

use input::{Refill, read_more, report_failure};
use packing::{MAX_OUTPUT, pack_into};
use std::io::{Read, Result, Write};
use std::process::ExitCode;

// A number, and one byte more than the longest list.
const MAX_INPUT: usize = 4102;

// Reads the input until it ends or the space is full, and answers how many bytes it gave.
fn read_all<R: Read>(input: &mut R, space: &mut [u8]) -> Result<usize>
    ensures { IfOk result (Loaded space.new) }
{
    let mut have = 0;
    while let Refill::Got(n) = read_more(input, space, 0, have)? {
        have = n;
    }
    Ok(have)
}

// Writes the output for an input to a writer.
fn print_packed<W: Write>(output: &mut W, input: &[u8]) -> Result<()>
    ensures { OnOk result (Appends (W.contents output.old) (W.contents output.new) (pack_output input.now)) }
{
    let mut room = [0u8; MAX_OUTPUT];
    let n = pack_into(input, &mut room);
    output.write_all(&room[0..n])
}

fn main(rt: HostRuntime) -> ExitCode {
    let mut space = [0u8; MAX_INPUT];
    let have = match read_all(&mut rt.stdin(), &mut space) {
        Ok(have) => have,
        Err(error) => return report_failure(&rt, "pack", "input", error),
    };
    match print_packed(&mut rt.stdout(), &space[0..have]) {
        Ok(()) => ExitCode::SUCCESS,
        Err(error) => report_failure(&rt, "pack", "output", error),
    }
}
