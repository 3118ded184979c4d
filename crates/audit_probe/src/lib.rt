// The audit of entries, as a log frames them, from a fresh ledger, for tests and benchmarks written in C.
#![tactic(auto)]

ghost use Rattle.std.specs.Prelude.{◌≡◌, true};
ghost use Rattle.ledger.specs.Audit.{ledger_ok};
ghost use Rattle.ledger.specs.Run.{run_over};
ghost use Rattle.audit_probe.specs.Audit.{max_run, numbers_ok, plain_ledger_from, new_ledger_from, cause_of, place_of, run_from, report_from, report_number};

use cause::{Cause, Fault, number_cause};
use container::CONTAINER;
use frame::{Framed, frame_entry};
use ledger::{Ledger, Report, Run};
use pools::Receiver;
use slices::item_or;

// The most entries of a run.
const MAX_RUN: u32 = 4294967295;

// Whether the numbers are 33 and both pushes are 0 or 1.
fn are_numbers(numbers: &[u32]) -> bool
    ensures { result ≡ numbers_ok numbers.now }
{
    numbers.len() == 33 && numbers[2] < 2 && numbers[18] < 2
}

// The ledger of the numbers of a format and two receivers, with nothing carried, held or open.
#[tactic(auto, using(crate::proofs::AuditLaws::receiver_named))]
fn load_ledger(numbers: &[u32]) -> Ledger
    ensures { result ≡ plain_ledger_from numbers.now }
{
    let format = item_or(numbers, 0, 0);
    let first = Receiver::from_numbers(numbers, 1);
    let second = Receiver::from_numbers(numbers, 17);
    Ledger::empty(format, first, second)
}

// The fresh ledger of the numbers of a configuration; what is none is refused, beside the ledger of the numbers.
#[tactic(auto, using(crate::proofs::AuditLaws::receiver_named))]
fn start_ledger(numbers: &[u32]) -> Result<Ledger, (Ledger, Fault)>
    ensures { result ≡ new_ledger_from numbers.now }
{
    if !are_numbers(numbers) {
        return Err((load_ledger(numbers), Cause::InvalidState.at(0)));
    }
    Ledger::fresh(
        numbers[0],
        Receiver::from_numbers(numbers, 1),
        Receiver::from_numbers(numbers, 17),
    )
}

// The entries audited by the one call that takes them all.
fn run_entries(numbers: &[u32], entries: &[u8]) -> Run
    ensures { result ≡ run_from numbers.now entries.now }
{
    match start_ledger(numbers) {
        Err((ledger, fault)) => Run::stop(ledger, 0, 0, Err(fault)),
        Ok(ledger) => ledger.audit_entries(entries, MAX_RUN),
    }
}

// The entries audited by a call each, from a ledger.
fn run_each(first: Ledger, entries: &[u8]) -> Run
    requires { ledger_ok first ≡ true }
    ensures { result ≡ run_over first max_run entries.now }
{
    let mut ledger = first;
    let mut at: usize = 0;
    for count in 0..MAX_RUN {
        let Framed::Whole {
            number: _,
            direction,
            start,
        } = frame_entry(&entries[at..])
        else {
            return Run::stop(ledger, count, at, Ok(()));
        };
        let begin = at + start;
        let end = begin + CONTAINER;
        let step = ledger.audit(direction as u32, &entries[begin..end]);
        if let Err(fault) = step.answer {
            return Run::stop(ledger, count, at, Err(fault));
        }
        ledger = step.ledger;
        at = end;
    }
    Run::stop(ledger, MAX_RUN, at, Ok(()))
}

// The entries audited by a call each, from the ledger of the numbers.
fn run_calls(numbers: &[u32], entries: &[u8]) -> Run
    ensures { result ≡ run_from numbers.now entries.now }
{
    match start_ledger(numbers) {
        Err((ledger, fault)) => Run::stop(ledger, 0, 0, Err(fault)),
        Ok(ledger) => run_each(ledger, entries),
    }
}

// 0, or the cause of a refusal.
fn tell_cause(run: Run) -> u32
    ensures { result ≡ cause_of run.answer }
{
    match run.answer {
        Ok(()) => 0,
        Err(fault) => number_cause(fault.cause),
    }
}

// Audits entries from a fresh ledger: 0, or the cause of the first refusal.
pub fn c2c_audit(numbers: &[u32], entries: &[u8]) -> u32
    ensures { result ≡ cause_of (run_from numbers.now entries.now).answer }
{
    tell_cause(run_entries(numbers, entries))
}

// The same by a call of the audit an entry.
pub fn c2c_audit_each(numbers: &[u32], entries: &[u8]) -> u32
    ensures { result ≡ cause_of (run_from numbers.now entries.now).answer }
{
    tell_cause(run_calls(numbers, entries))
}

// The place of the first refusal, 0 where there is none.
pub fn c2c_audit_place(numbers: &[u32], entries: &[u8]) -> u64
    ensures { result ≡ place_of (run_from numbers.now entries.now).answer }
{
    match run_entries(numbers, entries).answer {
        Ok(()) => 0,
        Err(fault) => fault.place,
    }
}

// How many entries are accepted before the first refusal.
pub fn c2c_audit_count(numbers: &[u32], entries: &[u8]) -> usize
    ensures { result ≡ (run_from numbers.now entries.now).accepted }
{
    run_entries(numbers, entries).accepted as usize
}

// How many bytes the accepted entries have.
pub fn c2c_audit_used(numbers: &[u32], entries: &[u8]) -> usize
    ensures { result ≡ (run_from numbers.now entries.now).used }
{
    run_entries(numbers, entries).used
}

// The report of a direction and pool behind the entries.
fn report_entries(
    numbers: &[u32],
    entries: &[u8],
    direction: u32,
    pool: u32,
) -> Result<Report, Fault>
    ensures { result ≡ report_from numbers.now entries.now direction pool }
{
    match start_ledger(numbers) {
        Err((_, fault)) => Err(fault),
        Ok(_) => run_entries(numbers, entries).ledger.report(direction, pool),
    }
}

// Credits held · 2^32 + messages open behind the entries, of one direction and pool, or cause · 2^48.
pub fn c2c_audit_report(numbers: &[u32], entries: &[u8], direction: u32, pool: u32) -> u64
    ensures { result ≡ report_number (report_from numbers.now entries.now direction pool) }
{
    match report_entries(numbers, entries, direction, pool) {
        Err(fault) => number_cause(fault.cause) as u64 * 281474976710656,
        Ok(report) => (report.held.0 as u64) * 4294967296 + (report.opened.0 as u64),
    }
}
