// The judging and the filling of containers, and the part that the feeder hands out, exported to C.
#![tactic(auto)]

ghost use Rattle.std.specs.Prelude.{◌≡◌, length, get_or};
ghost use Rattle.feeder.specs.Feeding.{fed_part};
ghost use Rattle.probe.specs.Judge.{judge_code};
ghost use Rattle.probe.specs.Feed.{feed_of};
ghost use Rattle.probe.specs.Fill.{fill_code, fill_tail, fill_container};

// Judges one container from a fresh state, without room: 0, or cause · 65,536 + place.
#[unsafe(no_mangle)]
pub extern "C" fn c2c_judge(format: u32, container: &[u8]) -> u32
    ensures { result ≡ judge_code format container.now }
{
    probe::c2c_judge(format, container)
}

// Fills a container: bytes used · 256 + the tail's new length, or cause · 4,294,967,296 + place; `tail` holds the tail before and after.
#[unsafe(no_mangle)]
pub extern "C" fn c2c_fill(
    format: u32,
    len: usize,
    tail: &mut [u8],
    grant: &[u8],
    list: &[u8],
    container: &mut [u8],
) -> u64
    ensures code { result ≡ fill_code format len tail.old grant.now list.now (length container.old) }
    ensures tail { tail.new ≡ fill_tail format len tail.old grant.now list.now (length container.old) }
    ensures bytes { container.new ≡ fill_container format len tail.old grant.now list.now container.old }
{
    probe::c2c_fill(format, len, tail, grant, list, container)
}

// How many bytes the part has that an ask with two positions and a run hands out.
#[unsafe(no_mangle)]
pub extern "C" fn c2c_part_length<'a>(
    format: u32,
    response: usize,
    other: usize,
    run: u32,
    responses: &'a [u8],
    others: &'a [u8],
) -> usize
    ensures { result ≡ length (fed_part format responses.now others.now (feed_of response other run)) }
{
    probe::c2c_part_length(format, response, other, run, responses, others)
}

// Byte i of that part, 0 behind its end.
#[unsafe(no_mangle)]
pub extern "C" fn c2c_part_byte<'a>(
    i: usize,
    format: u32,
    response: usize,
    other: usize,
    run: u32,
    responses: &'a [u8],
    others: &'a [u8],
) -> u8
    ensures { result ≡ get_or (fed_part format responses.now others.now (feed_of response other run)) i 0 }
{
    probe::c2c_part_byte(i, format, response, other, run, responses, others)
}
