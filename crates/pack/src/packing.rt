// What is written for an input: the containers that carry its list, or the line of a refusal.
ghost use Rattle.std.specs.Prelude.{◌≡◌, ◌&&◌, [], ◌≤◌, ◌<◌, length, eqb};
ghost use Rattle.writer.specs.Filling.{writer_with, filling, fill_bytes};
ghost use Rattle.round_trip.specs.Calls.{zero_grant};
ghost use Rattle.pack.specs.Packing.{max_output, list_output, pack_output, Written, pack_length, pack_room};

use cause::{Cause, Fault};
use container::{CONTAINER, Grant};
use record::{Number, read_number};
use text::write_refusal;
use writer::{Answer, Step, Writer};

// The most containers of an output.
const MOST_CONTAINERS: usize = 384;

// The most bytes of an output.
pub const MAX_OUTPUT: usize = CONTAINER * MOST_CONTAINERS;

// Whether all containers are written: no byte of a tail is owed, and none of the list is left.
fn is_done(owed: usize, left: usize) -> bool
    ensures { result ≡ (eqb owed 0 && eqb left 0) }
{
    owed == 0 && left == 0
}

// Fills a container from the front of a list, with no grant.
fn fill_container(writer: Writer, list: &[u8], container: &mut [u8]) -> Step
    ensures step { result ≡ filling writer list.now zero_grant (length container.old) }
    ensures bytes { container.new ≡ fill_bytes writer list.now zero_grant container.old }
{
    let none = Grant {
        shc: false,
        rp: 0,
        req: 0,
        rsp: 0,
        snp: 0,
        dat: 0,
    };
    writer.fill(list, none, container)
}

// Writes the containers of a list at the front of the room and answers how many bytes they have, or the fault of the list, which only
// the first fill can find.
fn pack_list(fresh: Writer, list: &[u8], room: &mut [u8]) -> Result<usize, Fault>
    requires { (fresh ≡ writer_with fresh.format []) × (fresh.format < 2) × (max_output ≤ length room.old) }
    ensures { Written (list_output fresh.format list.now) room.old room.new result }
{
    let mut writer = fresh;
    let mut at = 0;
    for i in 0..MOST_CONTAINERS {
        let to = CONTAINER * i;
        if is_done(writer.len, list.len() - at) {
            return Ok(to);
        }
        let step = fill_container(writer, &list[at..], &mut room[to..to + CONTAINER]);
        match step.answer {
            Answer::Refused { cause, place } => return Err(Fault { cause, place }),
            Answer::Accepted { used } => {
                writer = step.writer;
                at += used;
            }
        }
    }
    Ok(MAX_OUTPUT)
}

// Writes the containers of an input at the front of the room and answers how many bytes they have, or the fault of its number, its
// format or its list.
fn pack_input(input: &[u8], room: &mut [u8]) -> Result<usize, Fault>
    requires { max_output ≤ length room.old }
    ensures { Written (pack_output input.now) room.old room.new result }
{
    let Number { value, used } = read_number(input).ok_or(Cause::BrokenRecord.at(0))?;
    match Writer::fresh(value) {
        Err((_, fault)) => Err(fault),
        Ok(writer) => pack_list(writer, &input[used..], room),
    }
}

// Writes the output for an input at the front of the room, and answers how many bytes it wrote; a room that not every output fits is
// left as it was.
pub fn pack_into(input: &[u8], room: &mut [u8]) -> usize
    ensures end { result ≡ pack_length input.now (length room.old) }
    ensures room { room.new ≡ pack_room input.now room.old }
    ensures within { result ≤ length room.new }
{
    if room.len() < MAX_OUTPUT {
        return 0;
    }
    match pack_input(input, room) {
        Ok(n) => n,
        Err(Fault { cause, place }) => write_refusal(cause, place, room),
    }
}
