// The ledger: a state by value, and the audit of an entry.
ghost use Rattle.std.specs.Prelude.{◌≡◌, true, ◌&&◌, ◌≤◌, ◌<◌, length, ltb, Err};
ghost use Rattle.cause.specs.Checks.{first_fault, Accepted};
ghost use Rattle.container.specs.Layout.{format_of, msg_start};
ghost use Rattle.container.specs.Grants.{header_grant};
ghost use Rattle.reader.specs.Reading.{judge_checks, next_reader, carried};
ghost use Rattle.pools.specs.Rows.{flattened};
ghost use Rattle.ledger.specs.Audit.{receiver_of, reader_of, direction_ok, ledger_ok, configured, fresh_ledger, new_ledger, unchanged, auditing, reported};
ghost use Rattle.ledger.specs.CountingMirror.{pooled, idle_entry, settling, entered};

use crate::counts::{judge_begun, judge_granted, keeps_counts, settle_held, settle_opened};
use crate::entry::Entry;
use cause::{Cause, Fault, Verdict};
use container::{CONTAINER, FORMATS, Grant, is_idle};
use pools::{
    Credits, POOLS, ROW, Receiver, Slots, TABLE, count_carry, flatten, nest, tally_begun,
    tally_granted,
};
use reader::{Carry, JudgeAnswer, Reader};
use slices::byte_at;

// The carries of both directions, for each direction and pool, at 14 · direction + pool, the credits held and the messages open, the
// receivers of both directions, and a format.
#[derive(Clone, Copy)]
pub struct Ledger {
    pub carry0: Carry,
    pub carry1: Carry,
    pub held: [u32; TABLE],
    pub opened: [u32; TABLE],
    pub receiver0: Receiver,
    pub receiver1: Receiver,
    pub format: u32,
}

// The next ledger and the answer.
#[derive(Clone, Copy)]
pub struct Step {
    pub ledger: Ledger,
    pub answer: Verdict,
}

// A report: the credits held and the slots of open messages, of one direction and pool.
#[derive(Clone, Copy, Debug, PartialEq, Eq)]
pub struct Report {
    pub held: Credits,
    pub opened: Slots,
}

// Whether a format and receivers are valid.
fn is_configured(format: u32, receiver0: Receiver, receiver1: Receiver) -> bool
    ensures { result ≡ configured format receiver0 receiver1 }
{
    format < FORMATS && receiver0.is_valid() && receiver1.is_valid()
}

impl Ledger {
    // A ledger with nothing carried, held or open; every entry refuses one of a number that is no format or a receiver that is none.
    pub fn empty(format: u32, receiver0: Receiver, receiver1: Receiver) -> Ledger
        ensures { result ≡ fresh_ledger format receiver0 receiver1 }
    {
        let none = Carry::none();
        Ledger {
            format,
            receiver0,
            receiver1,
            carry0: none,
            carry1: none,
            held: [0u32; TABLE],
            opened: [0u32; TABLE],
        }
    }

    // A ledger of a format and two receivers, with nothing carried, held or open; what is no configuration is refused, beside the ledger of it.
    pub fn fresh(
        format: u32,
        receiver0: Receiver,
        receiver1: Receiver,
    ) -> Result<Ledger, (Ledger, Fault)>
        ensures { result ≡ new_ledger format receiver0 receiver1 }
    {
        let ledger = Ledger::empty(format, receiver0, receiver1);
        if !is_configured(format, receiver0, receiver1) {
            return Err((ledger, Cause::InvalidState.at(0)));
        }
        Ok(ledger)
    }

    // The receiver of a direction.
    fn choose_receiver(self, direction: usize) -> Receiver
        ensures { result ≡ receiver_of self direction }
    {
        if direction == 0 {
            return self.receiver0;
        }
        self.receiver1
    }

    // The reader of a direction's containers.
    fn choose_reader(self, direction: usize) -> Reader
        ensures { result ≡ reader_of self direction }
    {
        if direction == 0 {
            return Reader {
                carry: self.carry0,
                format: self.format,
            };
        }
        Reader {
            carry: self.carry1,
            format: self.format,
        }
    }

    // Whether the pools of a direction are in order, by its carry.
    fn keeps_pools(self, direction: usize, receiver: Receiver, carry: &[u8]) -> bool
        requires direction_bound { (direction < 2) × (receiver ≡ receiver_of self direction) }
        requires carry_value { carry.now ≡ carried (reader_of self direction) }
        ensures { result ≡ pooled self direction }
    {
        let byte0 = byte_at(carry, 0);
        let byte1 = byte_at(carry, 1);
        receiver.is_payable(byte0 % 16, byte0, byte1)
            && keeps_counts(
                nest(self.held),
                nest(self.opened),
                direction,
                count_carry(carry),
                receiver.capacities,
            )
    }

    // Whether a direction is valid: its receiver, its carry, and its pools.
    fn is_direction_valid(self, direction: usize) -> bool
        requires { direction < 2 }
        ensures { result ≡ direction_ok self direction }
    {
        let receiver = self.choose_receiver(direction);
        if !receiver.is_valid() {
            return false;
        }
        let reader = self.choose_reader(direction);
        let bytes = reader.carry.bytes;
        let len = reader.carry.len;
        reader.is_valid() && self.keeps_pools(direction, receiver, &bytes[0..len])
    }

    // Whether the ledger is valid.
    pub(crate) fn is_valid(self) -> bool
        ensures { result ≡ ledger_ok self }
    {
        self.is_direction_valid(0) && self.is_direction_valid(1)
    }

    // Whether an entry is idle: nothing is carried in its direction, and it has nothing but zeros outside the link header. A valid ledger
    // accepts it and stays as it is.
    pub(crate) fn is_entry_idle(self, entry: Entry<'_>) -> bool
        requires { ledger_ok self ≡ true }
        ensures value { result ≡ idle_entry self entry.entry.direction entry.entry.container.now }
        ensures self_value { result ≡ true → unchanged self ≡ auditing self entry.entry.direction entry.entry.container.now }
    {
        let Entry {
            direction,
            container,
        } = entry;
        if direction == 0 {
            return self.carry0.len == 0 && is_idle(self.format, container);
        }
        self.carry1.len == 0 && is_idle(self.format, container)
    }

    // A refused entry.
    fn refuse(self, fault: Fault) -> Step
        ensures { result ≡ record { ledger = self; answer = Err fault } }
    {
        Step {
            ledger: self,
            answer: Err(fault),
        }
    }

    // The ledger behind an accepted entry.
    fn enter(
        self,
        direction: usize,
        next: Carry,
        held: [[u32; ROW]; 2],
        opened: [[u32; ROW]; 2],
    ) -> Ledger
        ensures { result ≡ entered self direction next (flattened held) (flattened opened) }
    {
        let held = flatten(held);
        let opened = flatten(opened);
        if direction == 0 {
            return Ledger {
                carry0: next,
                held,
                opened,
                ..self
            };
        }
        Ledger {
            carry1: next,
            held,
            opened,
            ..self
        }
    }

    // 15 and 16 by what the entry began and granted, and the ledger behind it.
    fn settle(self, direction: usize, next: Carry, begun: [u32; ROW], granted: [u32; ROW]) -> Step
        requires { (direction < 2) × (next.len ≤ 100) }
        ensures { result ≡ settling self direction next begun granted }
    {
        let held = nest(self.held);
        if let Err(fault) = judge_begun(held, direction, begun) {
            return self.refuse(fault);
        }
        let opened = nest(self.opened);
        let other = 1 - direction;
        let capacities = self.choose_receiver(other).capacities;
        if let Err(fault) = judge_granted(held, opened, other, granted, capacities) {
            return self.refuse(fault);
        }
        let bytes = next.bytes;
        let len = next.len;
        let paid = count_carry(&bytes[0..len]);
        let held_after = settle_held(held, direction, begun, granted);
        let opened_after = settle_opened(opened, direction, paid);
        Step {
            ledger: self.enter(direction, next, held_after, opened_after),
            answer: Ok(()),
        }
    }

    // An entry that reads: 14 by its messages and 21 by its grants, then its pools.
    fn audit_read(self, entry: Entry<'_>, next: Carry, grant: Grant, msgstart: u16) -> Step
        requires valid { ledger_ok self ≡ true }
        requires container_value { first_fault (judge_checks (reader_of self entry.direction) entry.container.now) ≡ Accepted }
        requires next_value { next ≡ (next_reader (reader_of self entry.direction) entry.container.now).carry }
        requires grant_value { (grant ≡ header_grant (format_of self.format) entry.container.now) × (msgstart ≡ msg_start (format_of self.format) entry.container.now) }
        ensures { result ≡ auditing self entry.entry.direction entry.entry.container.now }
    {
        let Entry {
            direction,
            container,
        } = entry;
        let begun = match tally_begun(self.choose_receiver(direction), msgstart, container) {
            Ok(counts) => counts,
            Err(fault) => return self.refuse(fault),
        };
        let other = self.choose_receiver(1 - direction);
        let granted = match tally_granted(other, grant, msgstart, container) {
            Ok(counts) => counts,
            Err(fault) => return self.refuse(fault),
        };
        self.settle(direction, next, begun, granted)
    }

    // An entry by what it holds, from a valid ledger.
    pub(crate) fn audit_contents(self, entry: Entry<'_>) -> Step
        requires { ledger_ok self ≡ true }
        ensures { result ≡ auditing self entry.entry.direction entry.entry.container.now }
    {
        let container = entry.container;
        let judged = self.choose_reader(entry.direction).judge(container);
        match judged.answer {
            JudgeAnswer::Refused { cause, place } => self.refuse(cause.at(place)),
            JudgeAnswer::Accepted { grant, msgstart } => {
                self.audit_read(entry, judged.reader.carry, grant, msgstart)
            }
        }
    }

    // An entry, from a valid ledger: what is idle is accepted as it is.
    pub(crate) fn audit_valid(self, entry: Entry<'_>) -> Step
        requires { ledger_ok self ≡ true }
        ensures { result ≡ auditing self entry.entry.direction entry.entry.container.now }
    {
        if self.is_entry_idle(entry) {
            return Step {
                ledger: self,
                answer: Ok(()),
            };
        }
        self.audit_contents(entry)
    }

    // Whether a direction is one and the ledger is valid.
    fn admits(self, direction: u32) -> bool
        ensures { result ≡ (ltb direction 2 && ledger_ok self) }
    {
        direction < 2 && self.is_valid()
    }

    // Audits an entry: a container of a direction.
    pub fn audit(self, direction: u32, container: &[u8]) -> Step
        ensures { result ≡ auditing self direction container.now }
    {
        if !self.admits(direction) {
            return self.refuse(Cause::InvalidState.at(0));
        }
        let Ok(container) = <&[u8; CONTAINER]>::try_from(container) else {
            return self.refuse(Cause::ContainerLength.at(0));
        };
        self.audit_valid(Entry {
            direction: direction as usize,
            container,
        })
    }

    // The credits held and the slots of open messages, of a direction and pool.
    pub fn report(self, direction: u32, pool: u32) -> Result<Report, Fault>
        ensures { result ≡ reported self direction pool }
    {
        if !self.tells(direction, pool) {
            return Err(Cause::InvalidState.at(0));
        }
        let i = (POOLS * direction + pool) as usize;
        Ok(Report {
            held: Credits(self.held[i]),
            opened: Slots(self.opened[i]),
        })
    }

    // Whether direction and pool are there and the ledger is valid.
    fn tells(self, direction: u32, pool: u32) -> bool
        ensures { result ≡ (ltb direction 2 && (ltb pool 14 && ledger_ok self)) }
    {
        direction < 2 && pool < POOLS && self.is_valid()
    }
}
