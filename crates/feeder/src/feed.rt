// Asking for the next record: a state by value that the caller keeps, the answer, and the record as a part of its list.
ghost use Rattle.std.specs.Prelude.{◌≡◌, ◌≤◌};
ghost use Rattle.cause.specs.Checks.{first_fault};
ghost use Rattle.feeder.specs.Due.{list_of, position_of, due_of};
ghost use Rattle.feeder.specs.Feeding.{fresh_feed, feed_ok, call_checks, refusing, run_after, due_step, empty_step, list_served, feeding, fed_part};

use crate::found::{Waiting, find_record};
use cause::{Cause, Fault, Verdict};
use container::FORMATS;
use record::LONGEST_LIST;

// The most responses in a row while the other list waits.
const LONGEST_RUN: u32 = 4;

// The positions in the response list and in the other one, and the responses handed out in a row while the other list waited.
#[derive(Clone, Copy, Debug, PartialEq, Eq)]
pub struct Feed {
    pub response: usize,
    pub other: usize,
    pub run: u32,
}

// The answer of an ask: the list that the record is taken from, that both are empty, or the refusal with the list at fault.
#[derive(Clone, Copy, Debug, PartialEq, Eq)]
pub enum Answer {
    Handed {
        list: Waiting,
    },
    Empty,
    Refused {
        list: Option<Waiting>,
        cause: Cause,
        place: u64,
    },
}

// The next feed and the answer.
#[derive(Clone, Copy, Debug, PartialEq, Eq)]
pub struct Step {
    pub feed: Feed,
    pub answer: Answer,
}

// The list that an answer hands a record out of.
fn list_served(answer: Answer) -> Option<Waiting>
    ensures { result ≡ list_served answer }
{
    match answer {
        Answer::Handed { list } => Some(list),
        Answer::Empty => None,
        Answer::Refused { .. } => None,
    }
}

// The bytes of one of the two lists.
fn pick_list<'a>(list: Waiting, responses: &'a [u8], others: &'a [u8]) -> &'a [u8]
    ensures { result.now ≡ list_of list responses.now others.now }
{
    match list {
        Waiting::Responses => responses,
        Waiting::Others => others,
    }
}

impl Feed {
    // The feed of two lists of which nothing was handed out.
    pub fn fresh() -> Feed
        ensures { result ≡ fresh_feed }
    {
        Feed {
            response: 0,
            other: 0,
            run: 0,
        }
    }

    // The position in a list.
    fn position_in(self, list: Waiting) -> usize
        ensures { result ≡ position_of list self }
    {
        match list {
            Waiting::Responses => self.response,
            Waiting::Others => self.other,
        }
    }

    // Whether the format, both positions and the run are valid for lists of so many bytes.
    pub fn is_valid(self, format: u32, responses: usize, others: usize) -> bool
        ensures { result ≡ feed_ok format responses others self }
    {
        format < FORMATS
            && self.response <= responses
            && self.other <= others
            && self.run <= LONGEST_RUN
    }

    // The verdict on state and lengths: causes 19 and 18.
    #[tactic(auto, unfolding(crate::specs::Feeding::call_checks))]
    fn check_call(self, format: u32, responses: usize, others: usize) -> Verdict
        ensures { result ≡ first_fault (call_checks format responses others self) }
    {
        if !self.is_valid(format, responses, others) {
            return Err(Cause::InvalidState.at(0));
        }
        if LONGEST_LIST < responses {
            return Err(Cause::TooLong.at(0));
        }
        if LONGEST_LIST < others {
            return Err(Cause::TooLong.at(0));
        }
        Ok(())
    }

    // The list that is due: responses first, but not after four in a row while the other list waits.
    fn choose_list(self, responses: usize, others: usize) -> Option<Waiting>
        ensures { result ≡ due_of responses others self }
    {
        let response_waits = self.response < responses;
        let other_waits = self.other < others;
        if other_waits && (LONGEST_RUN <= self.run || !response_waits) {
            Some(Waiting::Others)
        } else if response_waits {
            Some(Waiting::Responses)
        } else {
            None
        }
    }

    // A refusal: neither list moves, and the run stays.
    fn refuse(self, list: Option<Waiting>, fault: Fault) -> Step
        ensures { result ≡ refusing self list fault.cause fault.place }
    {
        Step {
            feed: self,
            answer: Answer::Refused {
                list,
                cause: fault.cause,
                place: fault.place,
            },
        }
    }

    // The run after a response: it counts only while the other list waits.
    fn count_response(self, others: usize) -> u32
        requires { self.run ≤ 4 }
        ensures { result ≡ run_after others self }
    {
        if self.other < others { self.run + 1 } else { 0 }
    }

    // The step where a list is due, by the end of the record at its position.
    fn hand_record(self, list: Waiting, found: Option<usize>, others: usize) -> Step
        requires { self.run ≤ 4 }
        ensures { result ≡ due_step list others self found }
    {
        let Some(end) = found else {
            return self.refuse(
                Some(list),
                Cause::BrokenRecord.at(self.position_in(list) as u64),
            );
        };
        let feed = match list {
            Waiting::Responses => Feed {
                response: end,
                run: self.count_response(others),
                ..self
            },
            Waiting::Others => Feed {
                other: end,
                run: 0,
                ..self
            },
        };
        Step {
            feed,
            answer: Answer::Handed { list },
        }
    }

    // The step where both lists are empty.
    fn hand_nothing(self) -> Step
        ensures { result ≡ empty_step self }
    {
        Step {
            feed: Feed { run: 0, ..self },
            answer: Answer::Empty,
        }
    }

    // Asks for the next record: the answer, and the feed to ask with next.
    pub fn next_step(self, format: u32, responses: &[u8], others: &[u8]) -> Step
        ensures { result ≡ feeding format responses.now others.now self }
    {
        if let Err(fault) = self.check_call(format, responses.len(), others.len()) {
            return self.refuse(None, fault);
        }
        let Some(list) = self.choose_list(responses.len(), others.len()) else {
            return self.hand_nothing();
        };
        let bytes = pick_list(list, responses, others);
        let found = find_record(list, bytes, self.position_in(list));
        self.hand_record(list, found, others.len())
    }

    // The next record, its size number included, as a part of the list that it waits in; empty where none is handed out.
    pub fn next_record<'a>(self, format: u32, responses: &'a [u8], others: &'a [u8]) -> &'a [u8]
        ensures { result.now ≡ fed_part format responses.now others.now self }
    {
        let Step { feed: next, answer } = self.next_step(format, responses, others);
        match list_served(answer) {
            Some(list) => {
                let bytes = pick_list(list, responses, others);
                let start = self.position_in(list);
                let end = next.position_in(list);
                &bytes[start..end]
            }
            None => &responses[0..0],
        }
    }
}
