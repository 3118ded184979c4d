// The writer: a state by value that fills lent containers.
ghost use Rattle.std.specs.Prelude.{◌≡◌, [], ◌&&◌, length, ltb};
ghost use Rattle.lists.specs.Parts.{pad};
ghost use Rattle.cause.specs.Checks.{first_fault};
ghost use Rattle.container.specs.Grants.{plane_allowed};
ghost use Rattle.writer.specs.Filling.{writer_ok, writer_with, new_writer, call_checks, fill_fault, filling, fill_bytes};
ghost use Rattle.writer.specs.HoldingMirror.{Sane, owed_of};

use crate::cursor::{Cursor, fill_granules};
use crate::fill::write_header;
use crate::input::Input;
use cause::{Cause, Fault, Verdict};
use container::{CONTAINER, FORMATS, Grant, WIDE, allows_plane};
use record::{LONGEST_LIST, check_list};
use slices::{copy_into, is_zero_from};

// The most bytes that are owed behind a container.
const TAIL: usize = 100;

// A format, and the tail that is owed of a message begun before, with zeros behind.
#[derive(Clone, Copy)]
pub struct Writer {
    pub format: u32,
    pub tail: [u8; TAIL],
    pub len: usize,
}

// The answer of a fill: the bytes of the list used, or the refusal.
#[derive(Clone, Copy)]
pub enum Answer {
    Accepted { used: usize },
    Refused { cause: Cause, place: u64 },
}

// The next writer and the answer.
#[derive(Clone, Copy)]
pub struct Step {
    pub writer: Writer,
    pub answer: Answer,
}

// Whether a grant may stand in a header.
fn is_grant(grant: Grant) -> bool
    ensures { result ≡ (ltb grant.rp 8 && plane_allowed grant) }
{
    grant.rp < 8 && allows_plane(grant)
}

// What is owed behind a container, with zeros behind.
#[tactic(auto, using(crate::proofs::AnswerLaws::tail_kept))]
fn keep_tail(cursor: Cursor, input: Input<'_>) -> [u8; TAIL]
    requires { Sane input.tail.now input.list.now 12 cursor }
    ensures { result ≡ pad 100 (owed_of input.entry.tail.now input.entry.list.now cursor) }
{
    let mut out = [0u8; TAIL];
    if cursor.left > 0 {
        let source = cursor.source(input);
        copy_into(&mut out, 0, &source[cursor.from..cursor.from + cursor.left]);
    }
    out
}

impl Writer {
    // A writer of a format, with nothing owed; every fill refuses one of a number that is no format.
    pub fn empty(format: u32) -> Writer
        ensures { result ≡ writer_with format [] }
    {
        Writer {
            format,
            tail: [0u8; TAIL],
            len: 0,
        }
    }

    // A writer of a format, with nothing owed; a number that is no format is refused, beside the writer of it.
    pub fn fresh(format: u32) -> Result<Writer, (Writer, Fault)>
        ensures { result ≡ new_writer format }
    {
        let writer = Writer::empty(format);
        if FORMATS <= format {
            return Err((writer, Cause::InvalidState.at(0)));
        }
        Ok(writer)
    }

    // Whether the state is valid.
    fn is_valid(self) -> bool
        ensures { result ≡ writer_ok self }
    {
        self.format < FORMATS
            && self.len <= TAIL
            && self.len % WIDE == 0
            && is_zero_from(&self.tail, self.len)
    }

    // State, container length, list length and grant: causes 19, 1, 18 and 4.
    #[tactic(auto, unfolding(crate::specs::Filling::call_checks))]
    fn check_call(self, bytes: usize, grant: Grant, size: usize) -> Verdict
        ensures { result ≡ first_fault (call_checks self bytes grant size) }
    {
        if !self.is_valid() {
            return Err(Cause::InvalidState.at(0));
        }
        if size != CONTAINER {
            return Err(Cause::ContainerLength.at(0));
        }
        if LONGEST_LIST < bytes {
            return Err(Cause::TooLong.at(0));
        }
        if !is_grant(grant) {
            return Err(Cause::HeaderGrantForm.at(0));
        }
        Ok(())
    }

    // All that is judged before a fill: then the list, cause 17.
    #[tactic(auto, unfolding(crate::specs::Filling::fill_fault))]
    fn check_fill(self, list: &[u8], grant: Grant, size: usize) -> Verdict
        ensures { result ≡ fill_fault self list.now grant size }
    {
        self.check_call(list.len(), grant, size)?;
        check_list(list)
    }

    // Fills a container from the front of a list, under a header grant.
    #[tactic(auto, unfolding(crate::specs::Filling::filling, crate::specs::Filling::fill_bytes))]
    pub fn fill(self, list: &[u8], grant: Grant, container: &mut [u8]) -> Step
        ensures step { result ≡ filling self list.now grant (length container.old) }
        ensures bytes { container.new ≡ fill_bytes self list.now grant container.old }
    {
        if let Err(Fault { cause, place }) = self.check_fill(list, grant, container.len()) {
            return Step {
                writer: self,
                answer: Answer::Refused { cause, place },
            };
        }
        let container = container.as_mut_array::<CONTAINER>().unwrap();
        let input = Input {
            format: self.format,
            grant,
            tail: &self.tail[..self.len],
            list,
        };
        let cursor = fill_granules(input, container);
        write_header(container, self.format, cursor.msgstart, grant);
        Step {
            writer: Writer {
                tail: keep_tail(cursor, input),
                len: cursor.left,
                ..self
            },
            answer: Answer::Accepted { used: cursor.at },
        }
    }
}
