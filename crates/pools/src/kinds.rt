// Credits and slots, two kinds of count that are never mixed.
ghost use Rattle.std.specs.Prelude.{◌≡◌, ◌+◌, ◌-◌, ◌<◌, ◌^◌, min, eqb, leb};

use crate::table::ROW;

// Credits of one pool.
#[derive(Clone, Copy, Debug, PartialEq, Eq, PartialOrd, Ord)]
pub struct Credits(pub u32);

// Slots of one pool.
#[derive(Clone, Copy, Debug, PartialEq, Eq, PartialOrd, Ord)]
pub struct Slots(pub u32);

impl Credits {
    // Whether these credits are enough for a charge.
    pub fn cover(self, charge: Credits) -> bool
        ensures { result ≡ leb charge.0 self.0 }
    {
        charge <= self
    }

    // These credits and more of them.
    pub(crate) fn add(self, more: Credits) -> Credits
        requires { self.0 + more.0 < 2 ^ 32 }
        ensures { result ≡ record { 0 = self.0 + more.0 } }
    {
        Credits(self.0 + more.0)
    }

    // These credits and more of them, at most as many as a count holds.
    pub fn raise(self, more: Credits) -> Credits
        ensures { result ≡ record { 0 = min (self.0 + more.0) 4294967295 } }
    {
        Credits(self.0.saturating_add(more.0))
    }

    // What is left of these credits behind a charge, none where it is more.
    pub fn spend(self, charge: Credits) -> Credits
        ensures { result ≡ record { 0 = self.0 - charge.0 } }
    {
        Credits(self.0.saturating_sub(charge.0))
    }

    // The slots that these credits stand for: the one way from one kind to the other.
    pub fn claim(self) -> Slots
        ensures { result ≡ record { 0 = self.0 } }
    {
        Slots(self.0)
    }
}

// The slots that a row of credits stands for.
pub(crate) fn claim_row(credits: [u32; ROW]) -> [u32; ROW]
    ensures { result ≡ credits }
{
    let mut slots = credits;
    for p in 0..ROW {
        slots[p] = Credits(credits[p]).claim().0;
    }
    slots
}

// Three counts of slots together, which 64 bits hold.
fn sum_slots(first: Slots, second: Slots, third: Slots) -> u64
    ensures { result ≡ first.0 + (second.0 + third.0) }
{
    first.0 as u64 + (second.0 as u64 + third.0 as u64)
}

// Whether credits held, credits granted and slots of open messages are within a capacity.
pub fn fit_together(held: Credits, granted: Credits, opened: Slots, capacity: Slots) -> bool
    ensures { result ≡ leb (held.0 + (granted.0 + opened.0)) capacity.0 }
{
    sum_slots(held.claim(), granted.claim(), opened) <= capacity.0 as u64
}
