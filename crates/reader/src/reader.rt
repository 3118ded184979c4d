// The reader: a state by value, and the two ways to hand it a container.
ghost use Rattle.std.specs.Prelude.{◌≡◌, [], length, Ok, Err, IfErr, IfOk};
ghost use Rattle.cause.specs.Checks.{first_fault, Accepted};
ghost use Rattle.reader.specs.TrackingMirror.{looked};
ghost use Rattle.reader.specs.Reading.{reader_ok, carried, entry_checks, reader_with, new_reader, next_reader, reading, read_room, judging};

use crate::carry::Carry;
use crate::contents::Contents;
use crate::track::Track;
use cause::{Cause, Fault};
use container::{CONTAINER, FORMATS, Grant};

// What is carried, and a format.
#[derive(Clone, Copy)]
pub struct Reader {
    pub carry: Carry,
    pub format: u32,
}

// The least room of a reading: no container's records are longer.
pub const ROOM: usize = 352;

// The answer of a reading: the bytes written and the header grant, or the refusal.
#[derive(Clone, Copy)]
pub enum Answer {
    Accepted { written: usize, grant: Grant },
    Refused { cause: Cause, place: u64 },
}

// The next reader and the answer.
#[derive(Clone, Copy)]
pub struct Step {
    pub reader: Reader,
    pub answer: Answer,
}

// The answer of a judging: the header grant and MsgStart, or the refusal.
#[derive(Clone, Copy)]
pub enum JudgeAnswer {
    Accepted { grant: Grant, msgstart: u16 },
    Refused { cause: Cause, place: u64 },
}

// The next reader and the answer.
#[derive(Clone, Copy)]
pub struct Judged {
    pub reader: Reader,
    pub answer: JudgeAnswer,
}

impl Reader {
    // A reader of a format, with nothing carried; every entry refuses one of a number that is no format.
    pub fn empty(format: u32) -> Reader
        ensures { result ≡ reader_with format [] }
    {
        Reader {
            carry: Carry::none(),
            format,
        }
    }

    // A reader of a format, with nothing carried; a number that is no format is refused, beside the reader of it.
    pub fn fresh(format: u32) -> Result<Reader, (Reader, Fault)>
        ensures { result ≡ new_reader format }
    {
        let reader = Reader::empty(format);
        if FORMATS <= format {
            return Err((reader, Cause::InvalidState.at(0)));
        }
        Ok(reader)
    }

    // Whether the state is valid.
    pub fn is_valid(self) -> bool
        ensures { result ≡ reader_ok self }
    {
        self.format < FORMATS && self.carry.is_valid()
    }

    // The contents of a container for a valid reader: causes 19 and 1.
    fn open<'a>(&'a self, container: &'a [u8]) -> Result<Contents<'a>, Fault>
        ensures refused { IfErr result (λ fault. first_fault (entry_checks self.now (length container.now)) ≡ Err fault) }
        ensures opened { IfOk result (λ contents. (contents.format ≡ self.now.format) × (contents.container.now ≡ container.now) × (contents.carry.now ≡ carried self.now)) }
        ensures valid { IfOk result (λ _. first_fault (entry_checks self.now (length container.now)) ≡ Accepted) }
    {
        if !self.is_valid() {
            return Err(Cause::InvalidState.at(0));
        }
        let Some(container) = container.as_array::<CONTAINER>() else {
            return Err(Cause::ContainerLength.at(0));
        };
        let carry = &self.carry.bytes[..self.carry.len];
        Ok(Contents::new(self.format, container, carry))
    }

    // The reader behind a container that it opened, with this message in progress.
    fn carry_on(self, contents: Contents<'_>, track: Track) -> Reader
        requires opened { (contents.format ≡ self.format) × (contents.carry.now ≡ carried self) }
        requires judged { Ok track ≡ looked contents.format contents.container.now contents.carry.now }
        ensures { result ≡ next_reader self contents.entry.container.now }
    {
        Reader {
            carry: contents.gather_carry(track),
            ..self
        }
    }

    // A refused judging.
    fn refuse_judging(self, fault: Fault) -> Judged
        ensures { result ≡ record { reader = self; answer = JudgeAnswer.Refused fault.cause fault.place } }
    {
        Judged {
            reader: self,
            answer: JudgeAnswer::Refused {
                cause: fault.cause,
                place: fault.place,
            },
        }
    }

    // Judges a container without room and without copying its messages.
    pub fn judge(self, container: &[u8]) -> Judged
        ensures { result ≡ judging self container.now }
    {
        let contents = match self.open(container) {
            Err(fault) => return self.refuse_judging(fault),
            Ok(contents) => contents,
        };
        match contents.judge_container() {
            Err(fault) => self.refuse_judging(fault),
            Ok(track) => Judged {
                reader: self.carry_on(contents, track),
                answer: JudgeAnswer::Accepted {
                    grant: contents.grant,
                    msgstart: contents.msgstart,
                },
            },
        }
    }

    // A refused reading.
    fn refuse(self, fault: Fault) -> Step
        ensures { result ≡ record { reader = self; answer = Answer.Refused fault.cause fault.place } }
    {
        Step {
            reader: self,
            answer: Answer::Refused {
                cause: fault.cause,
                place: fault.place,
            },
        }
    }

    // Reads a container: the messages that end in it stand as records at the front of the room.
    pub fn read(self, container: &[u8], room: &mut [u8]) -> Step
        ensures step { result ≡ reading self container.now (length room.old) }
        ensures room { room.new ≡ read_room self container.now room.old }
    {
        let contents = match self.open(container) {
            Err(fault) => return self.refuse(fault),
            Ok(contents) => contents,
        };
        if room.len() < ROOM {
            return self.refuse(Cause::RoomTooSmall.at(0));
        }
        match contents.judge_container() {
            Err(fault) => self.refuse(fault),
            Ok(track) => Step {
                reader: self.carry_on(contents, track),
                answer: Answer::Accepted {
                    written: contents.write_endings(room),
                    grant: contents.grant,
                },
            },
        }
    }
}
