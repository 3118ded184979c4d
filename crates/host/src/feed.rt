// The feeder for a host written in C: a feed of three lent numbers, and the record copied to lent room.
ghost use Rattle.std.specs.Prelude.{◌≡◌, ◌≤◌, length, IfOk};
ghost use Rattle.lists.specs.Parts.{put};
ghost use Rattle.cause.specs.Checks.{first_fault, given};
ghost use Rattle.feeder.specs.Rules.{Moves, moved_over};
ghost use Rattle.host.specs.Feed.{feed_from, numbers_of, PositionsFit, list_number, answer_code, Small, call_checks, feed_code, feed_numbers, feed_room};

use cause::{Cause, Fault, number_cause};
use feeder::{Answer, Feed, Step, Waiting};
use slices::copy_into;

// The numbers of a feed.
const NUMBERS: usize = 3;

// The bytes of the longest record: a message of 120 behind its size number.
const LONGEST_RECORD: usize = 121;

// The feed of three numbers.
fn load_feed(numbers: &[u32]) -> Feed
    requires { length numbers.now ≡ 3 }
    ensures { (result ≡ feed_from numbers.now) × PositionsFit result }
{
    Feed {
        response: numbers[0] as usize,
        other: numbers[1] as usize,
        run: numbers[2],
    }
}

// Writes a feed to its three numbers.
fn store_feed(numbers: &mut [u32], feed: Feed)
    requires { (length numbers.old ≡ 3) × PositionsFit feed }
    ensures { numbers.new ≡ numbers_of feed }
{
    numbers[0] = feed.response as u32;
    numbers[1] = feed.other as u32;
    numbers[2] = feed.run;
}

// Copies what both lists moved over, of which at most one has moved, to the front of lent room; answers its bytes.
fn copy_record(room: &mut [u8], old: Feed, next: Feed, responses: &[u8], others: &[u8]) -> usize
    requires moves { Moves responses.now others.now old next }
    requires next_in_bounds { length (moved_over responses.now others.now old next) ≤ length room.old }
    ensures bytes { result ≡ length (moved_over responses.now others.now old next) }
    ensures room { room.new ≡ put 0 (moved_over responses.now others.now old next) room.old }
{
    copy_into(room, 0, &responses[old.response..next.response]);
    copy_into(room, 0, &others[old.other..next.other]);
    (next.response - old.response) + (next.other - old.other)
}

// The feed of a call, where state and room are fit for it: causes 19 and 2.
#[tactic(auto, unfolding(crate::specs::Feed::call_checks))]
fn load_call(
    format: u32,
    numbers: &[u32],
    responses: usize,
    others: usize,
    room: usize,
) -> Result<Feed, Fault>
    ensures feed { result ≡ given (first_fault (call_checks format numbers.now responses others room)) (feed_from numbers.now) }
    ensures fits { IfOk result PositionsFit }
{
    if numbers.len() != NUMBERS {
        return Err(Cause::InvalidState.at(0));
    }
    let feed = load_feed(numbers);
    if !feed.is_valid(format, responses, others) {
        return Err(Cause::InvalidState.at(0));
    }
    if room < LONGEST_RECORD {
        return Err(Cause::RoomTooSmall.at(0));
    }
    Ok(feed)
}

// The number of a waiting list, 0 for none.
fn number_list(list: Option<Waiting>) -> u32
    ensures { result ≡ list_number list }
{
    match list {
        None => 0,
        Some(Waiting::Responses) => 1,
        Some(Waiting::Others) => 2,
    }
}

// The code of an answer beside the bytes of the record handed out.
fn encode_answer(answer: Answer, bytes: usize) -> u32
    requires { Small answer bytes }
    ensures { result ≡ answer_code answer bytes }
{
    match answer {
        Answer::Handed { list } => number_list(Some(list)) * 65536 + bytes as u32,
        Answer::Empty => 0,
        Answer::Refused { list, cause, place } => {
            number_cause(cause) * 16777216 + number_list(list) * 65536 + place as u32
        }
    }
}

// Asks for the next record, copies it and stores the next feed; answers the code, or the fault of the call.
fn ask(
    format: u32,
    feed: &mut [u32],
    responses: &[u8],
    others: &[u8],
    room: &mut [u8],
) -> Result<u32, Fault>
    ensures code { result ≡ given (first_fault (call_checks format feed.old (length responses.now) (length others.now) (length room.old))) (feed_code format feed.old responses.now others.now (length room.old)) }
    ensures feed { feed.new ≡ feed_numbers format feed.old responses.now others.now (length room.old) }
    ensures room { room.new ≡ feed_room format feed.old responses.now others.now room.old }
{
    let asked = load_call(format, feed, responses.len(), others.len(), room.len())?;
    let Step { feed: next, answer } = asked.next_step(format, responses, others);
    let bytes = copy_record(room, asked, next, responses, others);
    store_feed(feed, next);
    Ok(encode_answer(answer, bytes))
}

// Asks for the next record of two waiting lists: cause · 16,777,216 + list · 65,536 + the record's bytes or the place.
pub fn c2c_feed(
    format: u32,
    feed: &mut [u32],
    responses: &[u8],
    others: &[u8],
    room: &mut [u8],
) -> u32
    ensures code { result ≡ feed_code format feed.old responses.now others.now (length room.old) }
    ensures feed { feed.new ≡ feed_numbers format feed.old responses.now others.now (length room.old) }
    ensures room { room.new ≡ feed_room format feed.old responses.now others.now room.old }
{
    match ask(format, feed, responses, others, room) {
        Ok(code) => code,
        Err(Fault { cause, place }) => {
            let refusal = Answer::Refused {
                list: None,
                cause,
                place,
            };
            encode_answer(refusal, 0)
        }
    }
}
