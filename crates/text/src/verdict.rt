// The line of a verdict and the line of a refusal.
ghost use Rattle.std.specs.Prelude.{◌≡◌, ◌+◌, ◌≤◌, length};
ghost use Rattle.lists.specs.Parts.{put};
ghost use Rattle.text.specs.Lines.{spaced, fault_words, verdict_line, refusal_line, answer_of, room_of};

use cause::{Cause, Verdict, number_cause};
use slices::copy_into;

// The least room for a line.
const MIN_ROOM: usize = 64;

// The digits of the largest number of 64 bits.
const MAX_DIGITS: usize = 20;

// Writes a word at `at`, and answers the offset behind it.
fn write_word(word: &[u8], room: &mut [u8], at: usize) -> usize
    requires { at + length word.now ≤ length room.old }
    ensures end { result ≡ at + length word.now }
    ensures room { room.new ≡ put at word.now room.old }
{
    copy_into(room, at, word);
    at + word.len()
}

// Writes a number behind a space at `at`, and answers the offset behind it.
fn write_number(value: u64, room: &mut [u8], at: usize) -> usize
    requires { at + 21 ≤ length room.old }
    ensures end { result ≡ at + length (spaced value) }
    ensures room { room.new ≡ put at (spaced value) room.old }
{
    let mut digits = [0u8; MAX_DIGITS];
    let n = io::decimal(value, &mut digits);
    let behind = write_word(b" ", room, at);
    write_word(&digits[0..n], room, behind)
}

// Writes the numbers of a cause and a place and a newline at `at`, and answers the offset behind them.
fn write_fault(cause: Cause, place: u64, room: &mut [u8], at: usize) -> usize
    requires { at + 25 ≤ length room.old }
    ensures end { result ≡ at + length (fault_words cause place) }
    ensures room { room.new ≡ put at (fault_words cause place) room.old }
{
    let number = number_cause(cause) as u64;
    let middle = write_number(number, room, at);
    let end = write_number(place, room, middle);
    write_word(b"\n", room, end)
}

// Writes the line of a verdict behind so many entries, and answers its length; 0 where the room is less than the least.
pub fn write_verdict(entries: u64, verdict: Verdict, room: &mut [u8]) -> usize
    ensures length { result ≡ answer_of (verdict_line entries verdict) room.old }
    ensures room { room.new ≡ room_of (verdict_line entries verdict) room.old }
{
    if room.len() < MIN_ROOM {
        return 0;
    }
    match verdict {
        Ok(()) => {
            let word = write_word(b"accepted", room, 0);
            let end = write_number(entries, room, word);
            write_word(b"\n", room, end)
        }
        Err(fault) => {
            let word = write_word(b"refused", room, 0);
            let count = write_number(entries, room, word);
            write_fault(fault.cause, fault.place, room, count)
        }
    }
}

// Writes the line of a refusal, and answers its length; 0 where the room is less than the least.
pub fn write_refusal(cause: Cause, place: u64, room: &mut [u8]) -> usize
    ensures length { result ≡ answer_of (refusal_line cause place) room.old }
    ensures room { room.new ≡ room_of (refusal_line cause place) room.old }
{
    if room.len() < MIN_ROOM {
        return 0;
    }
    let word = write_word(b"refused", room, 0);
    write_fault(cause, place, room, word)
}
