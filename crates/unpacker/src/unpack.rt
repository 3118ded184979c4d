// An input of a format and containers, read in parts. The caller keeps the bytes that a call has not used, puts the next ones behind
// them, and prints what each call has written.
ghost use Rattle.std.specs.Prelude.{◌≡◌, ◌≤◌, ◌<◌, length};
ghost use Rattle.lists.specs.Parts.{put};
ghost use Rattle.record.specs.Number.{read_number};
ghost use Rattle.text.specs.Lines.{verdict_line};
ghost use Rattle.unpacker.specs.Unpacking.{max_containers};
ghost use Rattle.unpacker.specs.Stepping.{min_room, over, waiting, begin_by, beginning, container_turn, running, Running};
ghost use Rattle.unpacker.specs.Stepping.{valid_state, answered, consuming, consumed_room, fresh_unpacker};

use cause::{Cause, Verdict};
use container::CONTAINER;
use reader::{Answer, ROOM, Reader};
use record::{Number, read_number};
use text::{write_messages, write_verdict};

// The most bytes of a number.
const MAX_NUMBER: usize = 5;

// The room for the lines of one container: two bytes for each of its records.
pub const MIN_ROOM: usize = 704;

// As many containers as have an offset in 64 bits.
const MAX_CONTAINERS: u64 = 72057594037927935;

// What a call comes to: more bytes are asked for, the next call can go on, or the verdict is there.
#[derive(Clone, Copy)]
pub enum Outcome {
    More,
    Next,
    Over(Verdict),
}

// An input between two calls: the containers accepted and the bytes used, 0 before the format.
#[derive(Clone, Copy)]
pub struct Unpacker {
    pub reader: Reader,
    pub entries: u64,
    pub offset: u64,
}

// The next state, how many of the bytes at hand are used, how many bytes of text stand at the front of the room, and what the call
// comes to.
#[derive(Clone, Copy)]
pub struct Unpacked {
    pub unpacker: Unpacker,
    pub used: usize,
    pub written: usize,
    pub outcome: Outcome,
}

impl Unpacker {
    // An input before its format.
    pub fn fresh() -> Unpacker
        ensures { result ≡ fresh_unpacker }
    {
        Unpacker {
            reader: Reader::empty(0),
            entries: 0,
            offset: 0,
        }
    }

    // Whether the state is valid.
    #[tactic(auto, unfolding(crate::specs::Stepping::valid_state))]
    fn is_valid(self) -> bool
        ensures { result ≡ valid_state self }
    {
        let entries = self.entries;
        let offset = self.offset;
        if offset == 0 {
            return entries == 0;
        }
        entries <= MAX_CONTAINERS && offset == 256 * entries + 1 && self.reader.is_valid()
    }

    // A call that asks for more bytes.
    fn wait(self) -> Unpacked
        ensures { result ≡ answered (waiting self) }
    {
        Unpacked {
            unpacker: self,
            used: 0,
            written: 0,
            outcome: Outcome::More,
        }
    }

    // A call that writes the verdict.
    fn conclude(self, verdict: Verdict, room: &mut [u8; MIN_ROOM]) -> Unpacked
        ensures call { result ≡ answered (over self verdict) }
        ensures room { room.new ≡ put 0 (verdict_line self.entries verdict) room.old }
    {
        let written = write_verdict(self.entries, verdict, room);
        Unpacked {
            unpacker: self,
            used: 0,
            written,
            outcome: Outcome::Over(verdict),
        }
    }

    // Reads the format.
    fn read_format(self, bytes: &[u8], room: &mut [u8; MIN_ROOM]) -> Unpacked
        ensures call { result ≡ answered (begin_by self (read_number bytes.now)) }
        ensures room { room.new ≡ put 0 (begin_by self (read_number bytes.now)).text room.old }
    {
        let Some(Number { value, used }) = read_number(bytes) else {
            return self.conclude(Err(Cause::BrokenRecord.at(0)), room);
        };
        match Reader::fresh(value) {
            Err((_, fault)) => self.conclude(Err(fault), room),
            Ok(reader) => Unpacked {
                unpacker: Unpacker {
                    reader,
                    entries: 0,
                    offset: used as u64,
                },
                used,
                written: 0,
                outcome: Outcome::Next,
            },
        }
    }

    // Reads the format once all its bytes are there.
    fn begin(self, bytes: &[u8], ended: bool, room: &mut [u8; MIN_ROOM]) -> Unpacked
        ensures call { result ≡ answered (beginning self bytes.now ended) }
        ensures room { room.new ≡ put 0 (beginning self bytes.now ended).text room.old }
    {
        if ended || MAX_NUMBER <= bytes.len() {
            return self.read_format(bytes, room);
        }
        self.wait()
    }

    // Reads a container and writes the messages that end in it.
    fn read_container(self, container: &[u8], room: &mut [u8; MIN_ROOM]) -> Unpacked
        requires { Running self × (self.entries < max_containers) }
        ensures call { result ≡ answered (container_turn self container.now) }
        ensures room { room.new ≡ put 0 (container_turn self container.now).text room.old }
    {
        let mut records = [0u8; ROOM];
        let step = self.reader.read(container, &mut records);
        match step.answer {
            Answer::Refused { cause, place } => self.conclude(Err(cause.at(place)), room),
            Answer::Accepted { written, grant: _ } => {
                let printed = write_messages(&records[..written], room);
                Unpacked {
                    unpacker: Unpacker {
                        reader: step.reader,
                        entries: self.entries + 1,
                        offset: self.offset + 256,
                    },
                    used: CONTAINER,
                    written: printed,
                    outcome: Outcome::Next,
                }
            }
        }
    }

    // Reads the next container once all its bytes are there.
    fn read_next(self, bytes: &[u8], ended: bool, room: &mut [u8; MIN_ROOM]) -> Unpacked
        requires { Running self }
        ensures call { result ≡ answered (running self bytes.now ended) }
        ensures room { room.new ≡ put 0 (running self bytes.now ended).text room.old }
    {
        let left = bytes.len();
        if left == 0 && ended {
            return self.conclude(Ok(()), room);
        }
        if 0 < left && MAX_CONTAINERS <= self.entries {
            return self.conclude(Err(Cause::TooLong.at(0)), room);
        }
        if CONTAINER <= left {
            return self.read_container(&bytes[..CONTAINER], room);
        }
        if ended {
            return self.conclude(Err(Cause::BrokenRecord.at(self.offset)), room);
        }
        self.wait()
    }

    // Reads the format or one container from the bytes at hand: those that the last call has left, and the next ones behind them;
    // `ended` where the input has no more. The text stands at the front of the room.
    pub fn consume(self, bytes: &[u8], ended: bool, room: &mut [u8]) -> Unpacked
        ensures call { result ≡ consuming self bytes.now ended (length room.old) }
        ensures room { room.new ≡ consumed_room self bytes.now ended room.old }
    {
        let Some(front) = room.first_chunk_mut::<MIN_ROOM>() else {
            return Unpacked {
                unpacker: self,
                used: 0,
                written: 0,
                outcome: Outcome::Over(Err(Cause::RoomTooSmall.at(0))),
            };
        };
        if !self.is_valid() {
            return self.conclude(Err(Cause::InvalidState.at(0)), front);
        }
        if self.offset == 0 {
            return self.begin(bytes, ended, front);
        }
        self.read_next(bytes, ended, front)
    }
}
