// The counts of an entry: begun against held (cause 15), granted against capacity (cause 16), and the rows behind an accepted entry.
ghost use Rattle.std.specs.Prelude.{◌≡◌, [], ℕ, ◌+◌, ◌-◌, ◌≤◌, ◌<◌, ◌^◌, get_or};
ghost use Rattle.cause.specs.Checks.{first_fault};
ghost use Rattle.ledger.specs.CountingMirror.{credit_row_checks, capacity_row_checks, rows_ok, settled_held, settled_open};
ghost use Rattle.pools.specs.Rows.{entry_of, rows};

use cause::{Cause, Verdict};
use pools::{Credits, ROW, Slots, fit_together};

// The lowest pool in which more is begun than held.
pub(crate) fn judge_begun(held: [[u32; ROW]; 2], direction: usize, begun: [u32; ROW]) -> Verdict
    requires { direction < 2 }
    ensures { result ≡ first_fault (credit_row_checks (get_or held direction []) begun 14 0) }
{
    for p in 0..ROW {
        if !Credits(held[direction][p]).cover(Credits(begun[p])) {
            return Err(Cause::BegunOverGranted.at(p as u64));
        }
    }
    Ok(())
}

// The lowest pool in which held, granted and open together are over the capacity.
pub(crate) fn judge_granted(
    held: [[u32; ROW]; 2],
    opened: [[u32; ROW]; 2],
    direction: usize,
    granted: [u32; ROW],
    capacities: [u32; ROW],
) -> Verdict
    requires { direction < 2 }
    ensures { result ≡ first_fault (capacity_row_checks (get_or held direction []) (get_or opened direction []) granted capacities 14 0) }
{
    for p in 0..ROW {
        let credits = Credits(held[direction][p]);
        let messages = Slots(opened[direction][p]);
        if !fit_together(credits, Credits(granted[p]), messages, Slots(capacities[p])) {
            return Err(Cause::GrantedOverCapacity.at(p as u64));
        }
    }
    Ok(())
}

// Whether open messages are what the carry pays and held plus open is within capacity, in every pool.
pub(crate) fn keeps_counts(
    held: [[u32; ROW]; 2],
    opened: [[u32; ROW]; 2],
    direction: usize,
    paid: [u32; ROW],
    capacities: [u32; ROW],
) -> bool
    requires { direction < 2 }
    ensures { result ≡ rows_ok (get_or held direction []) (get_or opened direction []) paid capacities 14 0 }
{
    for p in 0..ROW {
        let messages = Slots(opened[direction][p]);
        if messages != Slots(paid[p]) {
            return false;
        }
        let credits = Credits(held[direction][p]);
        if !fit_together(credits, Credits(0), messages, Slots(capacities[p])) {
            return false;
        }
    }
    true
}

// Credits held behind an entry: fewer where messages began, more in the other direction.
pub(crate) fn settle_held(
    held: [[u32; ROW]; 2],
    direction: usize,
    begun: [u32; ROW],
    granted: [u32; ROW],
) -> [[u32; ROW]; 2]
    requires direction_bound { direction < 2 }
    requires by_index { (p : ℕ) → get_or begun p 0 ≤ entry_of held direction p }
    requires by_index_2 { (p : ℕ) → entry_of held (1 - direction) p + get_or granted p 0 < 2 ^ 32 }
    ensures { result ≡ rows (settled_held direction held begun granted) }
{
    let mut next = held;
    let other = 1 - direction;
    for p in 0..ROW {
        next[direction][p] = Credits(held[direction][p]).spend(Credits(begun[p])).0;
        next[other][p] = Credits(held[other][p]).raise(Credits(granted[p])).0;
    }
    next
}

// Messages open behind an entry: in its direction, the slots that the carry takes.
pub(crate) fn settle_opened(
    opened: [[u32; ROW]; 2],
    direction: usize,
    paid: [u32; ROW],
) -> [[u32; ROW]; 2]
    requires { direction < 2 }
    ensures { result ≡ rows (settled_open direction opened paid) }
{
    let mut next = opened;
    next[direction] = paid;
    next
}
