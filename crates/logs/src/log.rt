// The log: its verdict, read in parts. The caller keeps the bytes that a call has not used and puts the next ones behind them.
ghost use Rattle.std.specs.Prelude.{◌≡◌, ◌+◌, ◌*◌, ◌≤◌, length, Some};
ghost use Rattle.logs.specs.Log.{configuration_at};
ghost use Rattle.logs.specs.Stream.{max_entries, stopped_at, start_by, beginning, consuming, fresh_reader};
ghost use Rattle.logs.specs.ConcludingMirror.{concluding, counts_ok, read_on};

use crate::configuration::{read_configuration, start_ledger};
use cause::{Cause, Fault};
use ledger::Ledger;

// The verdict on a log.
#[derive(Clone, Copy, Debug, PartialEq, Eq)]
pub enum LogVerdict {
    Accepted {
        entries: u32,
    },
    Refused {
        entries: u32,
        cause: Cause,
        place: u64,
    },
}

// A log between two calls: the entries accepted and the bytes used, 0 before the configuration.
#[derive(Clone, Copy)]
pub struct LogReader {
    pub ledger: Ledger,
    pub entries: u32,
    pub offset: u64,
}

// The next state, how many of the bytes at hand are used, and the verdict, none where more bytes are asked for.
#[derive(Clone, Copy)]
pub struct Consumed {
    pub reader: LogReader,
    pub used: usize,
    pub outcome: Option<LogVerdict>,
}

// The most entries of a log.
const MAX_ENTRIES: u32 = 16777215;

// The bytes of a configuration, and those of an entry.
const SHORTEST_CONFIGURATION: u64 = 33;

const LONGEST_CONFIGURATION: u64 = 165;

const SHORTEST_ENTRY: u64 = 257;

const LONGEST_ENTRY: u64 = 261;

// A refusal behind so many entries.
fn refuse_log(entries: u32, fault: Fault) -> Option<LogVerdict>
    ensures { result ≡ Some (LogVerdict.Refused entries fault.cause fault.place) }
{
    Some(LogVerdict::Refused {
        entries,
        cause: fault.cause,
        place: fault.place,
    })
}

// What is said behind so many entries and bytes, where the bytes left do not begin with a whole entry, or no more entries may be.
fn conclude(entries: u32, offset: u64, left: usize, ended: bool) -> Option<LogVerdict>
    ensures { result ≡ concluding entries offset left ended }
{
    if left == 0 {
        return ended.then_some(LogVerdict::Accepted { entries });
    }
    if MAX_ENTRIES <= entries {
        return refuse_log(entries, Cause::TooLong.at(0));
    }
    if ended || LONGEST_ENTRY <= left as u64 {
        return refuse_log(entries, Cause::BrokenRecord.at(offset));
    }
    None
}

// A call that stops at byte `at`.
fn stop_at(at: usize, reader: LogReader, outcome: Option<LogVerdict>) -> Consumed
    ensures { result ≡ stopped_at at reader outcome }
{
    Consumed {
        reader,
        used: at,
        outcome,
    }
}

impl LogReader {
    // A log before its configuration.
    pub fn fresh() -> LogReader
        ensures { result ≡ fresh_reader }
    {
        let numbers = [0u32; 33];
        LogReader {
            ledger: start_ledger(numbers),
            entries: 0,
            offset: 0,
        }
    }

    // Whether as many bytes are used as the configuration and the entries may have, and none of either before the configuration.
    fn has_valid_counts(self) -> bool
        ensures { result ≡ counts_ok self }
    {
        let entries = self.entries;
        let offset = self.offset;
        if offset == 0 {
            return entries == 0;
        }
        let least = SHORTEST_CONFIGURATION + SHORTEST_ENTRY * entries as u64;
        let most = LONGEST_CONFIGURATION + LONGEST_ENTRY * entries as u64;
        entries <= MAX_ENTRIES && least <= offset && offset <= most
    }

    // Audits the entries from byte `from` on.
    fn read_entries(self, bytes: &[u8], from: usize, ended: bool) -> Consumed
        requires { (from ≤ length bytes.now) × (self.entries ≤ max_entries) × (self.offset ≤ 165 + 261 * self.entries) }
        ensures { result ≡ read_on self bytes.now from ended }
    {
        let run = self
            .ledger
            .audit_entries(&bytes[from..], MAX_ENTRIES - self.entries);
        let ledger = run.ledger;
        let at = from + run.used;
        let entries = self.entries + run.accepted;
        let offset = self.offset + run.used as u64;
        let reader = LogReader {
            ledger,
            entries,
            offset,
        };
        match run.answer {
            Err(fault) => stop_at(at, reader, refuse_log(entries, fault)),
            Ok(()) => {
                let left = bytes.len() - at;
                stop_at(at, reader, conclude(entries, offset, left, ended))
            }
        }
    }

    // Reads the configuration and judges the entries behind it.
    fn configure(self, bytes: &[u8], ended: bool) -> Consumed
        ensures { result ≡ start_by self bytes.now ended (configuration_at bytes.now) }
    {
        match read_configuration(bytes) {
            Err(fault) => stop_at(0, self, refuse_log(0, fault)),
            Ok(configuration) => {
                let numbers = configuration.numbers;
                let used = configuration.used;
                let reader = LogReader {
                    ledger: start_ledger(numbers),
                    entries: 0,
                    offset: used as u64,
                };
                reader.read_entries(bytes, used, ended)
            }
        }
    }

    // Begins the log once enough bytes are at hand.
    fn begin(self, bytes: &[u8], ended: bool) -> Consumed
        ensures { result ≡ beginning self bytes.now ended }
    {
        if ended || LONGEST_ENTRY <= bytes.len() as u64 {
            return self.configure(bytes, ended);
        }
        stop_at(0, self, None)
    }

    // Judges the bytes at hand: those that the last call has left, and the next ones behind them; `ended` where the log has no more.
    pub fn consume(self, bytes: &[u8], ended: bool) -> Consumed
        ensures { result ≡ consuming self bytes.now ended }
    {
        let entries = self.entries;
        let offset = self.offset;
        if !self.has_valid_counts() {
            return stop_at(0, self, refuse_log(entries, Cause::InvalidState.at(0)));
        }
        if offset == 0 {
            return self.begin(bytes, ended);
        }
        self.read_entries(bytes, 0, ended)
    }
}
