// The judging and the filling of containers, and the part that the feeder hands out, for tests and benchmarks written in C.
#![tactic(auto)]

ghost use Rattle.std.specs.Prelude.{◌≡◌, length, get_or};
ghost use Rattle.feeder.specs.Feeding.{fed_part};
ghost use Rattle.probe.specs.Judge.{judge_code};
ghost use Rattle.probe.specs.Feed.{feed_of};
ghost use Rattle.probe.specs.Fill.{grant_from, Small, answer_code, fill_code, fill_tail, fill_container};

use cause::number_cause;
use container::Grant;
use feeder::Feed;
use reader::{JudgeAnswer, Reader};
use slices::{byte_at, copy_into};
use writer::{Answer, Writer};

// Judges one container from a fresh state, without room: 0, or cause · 65,536 + place.
pub fn c2c_judge(format: u32, container: &[u8]) -> u32
    ensures { result ≡ judge_code format container.now }
{
    match Reader::empty(format).judge(container).answer {
        JudgeAnswer::Accepted { .. } => 0,
        JudgeAnswer::Refused { cause, place } => number_cause(cause) * 65536 + place as u32,
    }
}

// The bytes of a part as a tail.
fn load_tail(part: &[u8]) -> [u8; 100]
    requires { length part.now ≡ 100 }
    ensures { result ≡ part.now }
{
    let mut out = [0u8; 100];
    copy_into(&mut out, 0, part);
    out
}

// The grant of six bytes ShC, RP, REQ, RSP, SNP and DAT.
fn load_grant(part: &[u8]) -> Grant
    ensures { result ≡ grant_from part.now }
{
    Grant {
        shc: byte_at(part, 0) == 1,
        rp: byte_at(part, 1),
        req: byte_at(part, 2),
        rsp: byte_at(part, 3),
        snp: byte_at(part, 4),
        dat: byte_at(part, 5),
    }
}

// The code of an answer beside the tail's new length.
fn encode_answer(answer: Answer, len: usize) -> u64
    requires { Small answer len }
    ensures { result ≡ answer_code answer len }
{
    match answer {
        Answer::Accepted { used } => used as u64 * 256 + len as u64,
        Answer::Refused { cause, place } => number_cause(cause) as u64 * 4294967296 + place,
    }
}

// Fills a container: bytes used · 256 + the tail's new length, or cause · 4,294,967,296 + place; `tail` holds the tail before and after.
pub fn c2c_fill(
    format: u32,
    len: usize,
    tail: &mut [u8],
    grant: &[u8],
    list: &[u8],
    container: &mut [u8],
) -> u64
    ensures code { result ≡ fill_code format len tail.old grant.now list.now (length container.old) }
    ensures tail { tail.new ≡ fill_tail format len tail.old grant.now list.now (length container.old) }
    ensures bytes { container.new ≡ fill_container format len tail.old grant.now list.now container.old }
{
    if tail.len() != 100 {
        return 19 * 4294967296;
    }
    if grant.len() != 6 {
        return 19 * 4294967296;
    }
    if 2 <= grant[0] {
        return 19 * 4294967296;
    }
    let writer = Writer {
        format,
        tail: load_tail(tail),
        len,
    };
    let step = writer.fill(list, load_grant(grant), container);
    let next = step.writer;
    let kept = next.tail;
    copy_into(tail, 0, &kept);
    let answer = step.answer;
    encode_answer(answer, next.len)
}

// The part that an ask with two positions and a run hands out.
fn ask<'a>(
    format: u32,
    response: usize,
    other: usize,
    run: u32,
    responses: &'a [u8],
    others: &'a [u8],
) -> &'a [u8]
    ensures { result.now ≡ fed_part format responses.now others.now (feed_of response other run) }
{
    let feed = Feed {
        response,
        other,
        run,
    };
    feed.next_record(format, responses, others)
}

// The bytes of that part.
pub fn c2c_part_length<'a>(
    format: u32,
    response: usize,
    other: usize,
    run: u32,
    responses: &'a [u8],
    others: &'a [u8],
) -> usize
    ensures { result ≡ length (fed_part format responses.now others.now (feed_of response other run)) }
{
    ask(format, response, other, run, responses, others).len()
}

// Byte i of that part, 0 behind its end.
pub fn c2c_part_byte<'a>(
    i: usize,
    format: u32,
    response: usize,
    other: usize,
    run: u32,
    responses: &'a [u8],
    others: &'a [u8],
) -> u8
    ensures { result ≡ get_or (fed_part format responses.now others.now (feed_of response other run)) i 0 }
{
    byte_at(ask(format, response, other, run, responses, others), i)
}
