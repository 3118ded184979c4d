// The messages that start in an entry: their pools (cause 14), and what they pay.
ghost use Rattle.std.specs.Prelude.{◌≡◌, [], ◌∷◌, ◌<◌};
ghost use Rattle.cause.specs.Checks.{first_fault, Accepted};
ghost use Rattle.pools.specs.Rows.{Small, raised};
ghost use Rattle.pools.specs.TalliesMirror.{start_check, starts_checks, paid_at, starts_pay};
ghost use Rattle.pools.specs.Tallies.{tally_of, begun_tally};

use crate::receiver::Receiver;
use crate::starts::Starts;
use crate::table::ROW;
use crate::tally::add_charges;
use cause::{Cause, Fault, Verdict};
use container::{CONTAINER, GRANULES, locate_granule};

impl Starts<'_> {
    // What starts in granule g, if anything: judged by a receiver, and its payment added.
    fn charge_granule(self, receiver: Receiver, g: u8, counts: &mut [u32; ROW]) -> Verdict
        requires granule_bound { g < 12 }
        requires small_counts { Small counts.old }
        ensures verdict { result ≡ first_fault (start_check receiver self.entry.container.now self.entry.msgstart g ∷ []) }
        ensures counts { result ≡ Accepted → counts.new ≡ raised (paid_at self.entry.container.now self.entry.msgstart g) counts.old }
    {
        let byte0 = self.read_start(g);
        let byte1 = self.container[locate_granule(g) + 1];
        if !receiver.is_payable(byte0 % 16, byte0, byte1) {
            return Err(Cause::MissingPool.at(g as u64));
        }
        add_charges(counts, byte0, byte1);
        Ok(())
    }

    // The messages that start, in granule order.
    fn walk_begun(self, receiver: Receiver) -> Result<[u32; ROW], Fault>
        ensures { result ≡ tally_of (starts_checks receiver self.entry.container.now self.entry.msgstart 12 0) (starts_pay self.entry.container.now self.entry.msgstart 12 0) }
    {
        let mut counts = [0u32; ROW];
        for g in 0..GRANULES {
            self.charge_granule(receiver, g, &mut counts)?;
        }
        Ok(counts)
    }
}

// What the messages pay that start in a container by a MsgStart, counted by pool: 1, then 14 in granule order.
pub fn tally_begun(receiver: Receiver, msgstart: u16, container: &[u8]) -> Result<[u32; ROW], Fault>
    ensures { result ≡ begun_tally receiver container.now msgstart }
{
    let Ok(container) = <&[u8; CONTAINER]>::try_from(container) else {
        return Err(Cause::ContainerLength.at(0));
    };
    let starts = Starts {
        container,
        msgstart,
    };
    starts.walk_begun(receiver)
}
