// Entries audited one after the other, as a log frames them.
ghost use Rattle.std.specs.Prelude.{◌≡◌, true};
ghost use Rattle.ledger.specs.Audit.{ledger_ok};
ghost use Rattle.ledger.specs.Run.{halted, running, run_over};

use crate::entry::Entry;
use crate::ledger::Ledger;
use cause::{Cause, Verdict};
use container::CONTAINER;
use frame::{Framed, frame_entry};

// The ledger behind the entries, how many are accepted, their bytes, and the last answer.
#[derive(Clone, Copy)]
pub struct Run {
    pub ledger: Ledger,
    pub accepted: u32,
    pub used: usize,
    pub answer: Verdict,
}

impl Run {
    // A run that stops behind so many accepted entries and bytes.
    pub fn stop(ledger: Ledger, accepted: u32, used: usize, answer: Verdict) -> Run
        ensures { result ≡ halted ledger accepted used answer }
    {
        Run {
            ledger,
            accepted,
            used,
            answer,
        }
    }
}

// At most `limit` entries at the front of the bytes, from a valid ledger; an idle one leaves it as it is.
fn audit_framed(ledger: Ledger, bytes: &[u8], limit: u32) -> Run
    requires { ledger_ok ledger ≡ true }
    ensures { result ≡ running limit ledger 0 0 bytes.now }
{
    let mut state = ledger;
    let mut at: usize = 0;
    for count in 0..limit {
        let Framed::Whole {
            number: _,
            direction,
            start,
        } = frame_entry(&bytes[at..])
        else {
            return Run::stop(state, count, at, Ok(()));
        };
        let begin = at + start;
        let entry = Entry {
            direction,
            container: bytes[begin..].first_chunk::<CONTAINER>().unwrap(),
        };
        if !state.is_entry_idle(entry) {
            let step = state.audit_contents(entry);
            state = step.ledger;
            if let Err(fault) = step.answer {
                return Run::stop(state, count, at, Err(fault));
            }
        }
        at = begin + CONTAINER;
    }
    Run::stop(state, limit, at, Ok(()))
}

impl Ledger {
    // Audits at most `limit` entries at the front of the bytes, as a log frames them: up to the first that is refused, and as long as whole
    // ones are there.
    pub fn audit_entries(self, bytes: &[u8], limit: u32) -> Run
        ensures { result ≡ run_over self limit bytes.now }
    {
        if self.is_valid() {
            return audit_framed(self, bytes, limit);
        }
        Run::stop(self, 0, 0, Err(Cause::InvalidState.at(0)))
    }
}
