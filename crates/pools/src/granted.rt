// The grants of an entry: their pools (cause 21), and what they give.
ghost use Rattle.std.specs.Prelude.{◌≡◌, true, ◌||◌, [], ◌∷◌, ◌+◌, ◌<◌, eqb, ltb};
ghost use Rattle.lists.specs.Pick.{pick};
ghost use Rattle.cause.specs.Checks.{first_fault, Accepted};
ghost use Rattle.pools.specs.Pools.{granted_by};
ghost use Rattle.pools.specs.Rows.{Small, raised};
ghost use Rattle.pools.specs.TalliesMirror.{grants_at, grant_at, grant_check, crdt_check, crdt_checks};
ghost use Rattle.pools.specs.Tallies.{tally_of, grants_give, granted_tally};

use crate::kinds::Credits;
use crate::receiver::Receiver;
use crate::starts::Starts;
use crate::table::ROW;
use crate::tally::add_count;
use cause::{Cause, Fault, HEADER_PLACE, Verdict};
use container::{CONTAINER, GRANULES, Grant, decode_grant, locate_granule};
use message::{
    CRDT_GRANT, DATA_DAT, PUSH_DAT, REQ_PLANE_0, RSP, SHARED_DAT, SHARED_REQ, SNP, is_misc,
};

// The pool of a grant's REQ count.
fn choose_req(grant: Grant) -> u8
    requires { grant.rp < 8 }
    ensures { result ≡ pick grant.shc 0 (1 + grant.rp) }
{
    if grant.shc {
        return SHARED_REQ;
    }
    REQ_PLANE_0 + grant.rp
}

// The pool of a grant's DAT count.
fn choose_dat(grant: Grant) -> u8
    ensures { result ≡ pick grant.shc 11 (pick (eqb grant.rp 0) 12 13) }
{
    if grant.shc {
        return SHARED_DAT;
    }
    if grant.rp == 0 {
        return DATA_DAT;
    }
    PUSH_DAT
}

// Adds what a grant gives, whose DAT count has a pool.
fn add_grant(grant: Grant, counts: &mut [u32; ROW])
    requires rp_bound { (grant.rp < 8) × ((grant.shc || (eqb grant.dat 0 || ltb grant.rp 2)) ≡ true) }
    requires small_counts { Small counts.old }
    ensures { counts.new ≡ raised (λ p. granted_by p grant) counts.old }
{
    add_count(counts, choose_req(grant), Credits(grant.req as u32));
    add_count(counts, RSP, Credits(grant.rsp as u32));
    add_count(counts, SNP, Credits(grant.snp as u32));
    add_count(counts, choose_dat(grant), Credits(grant.dat as u32));
}

// A grant at a place: judged, and what it gives added.
fn take_grant(receiver: Receiver, grant: Grant, place: u64, counts: &mut [u32; ROW]) -> Verdict
    requires rp_bound { grant.rp < 8 }
    requires small_counts { Small counts.old }
    ensures verdict { result ≡ first_fault (grant_check receiver grant place ∷ []) }
    ensures counts { result ≡ Accepted → counts.new ≡ raised (λ p. granted_by p grant) counts.old }
{
    if !receiver.is_grantable(grant) {
        return Err(Cause::MissingGrantPool.at(place));
    }
    add_grant(grant, counts);
    Ok(())
}

impl Starts<'_> {
    // The CrdtGrant that starts in granule g, if there is one: judged by a receiver, and what it gives added.
    fn grant_granule(self, receiver: Receiver, g: u8, counts: &mut [u32; ROW]) -> Verdict
        requires granule_bound { g < 12 }
        requires small_counts { Small counts.old }
        ensures verdict { result ≡ first_fault (crdt_check receiver self.entry.container.now self.entry.msgstart g ∷ []) }
        ensures counts { result ≡ Accepted → counts.new ≡ raised (λ p. pick (grants_at self.entry.container.now self.entry.msgstart g) (granted_by p (grant_at self.entry.container.now g)) 0) counts.old }
    {
        let container = self.container;
        let a = locate_granule(g);
        let byte0 = self.read_start(g);
        if !is_misc(byte0 % 16, container[a + 1], CRDT_GRANT) {
            return Ok(());
        }
        let grant = decode_grant(
            container[a + 2],
            container[a + 3],
            container[a + 4],
            container[a + 5],
            container[a + 6],
        );
        take_grant(receiver, grant, g as u64, counts)
    }

    // The grants: the header's, then the CrdtGrants that start, in granule order.
    fn walk_granted(self, receiver: Receiver, grant: Grant) -> Result<[u32; ROW], Fault>
        requires { grant.rp < 8 }
        ensures { result ≡ tally_of (grant_check receiver grant 12 ∷ crdt_checks receiver self.entry.container.now self.entry.msgstart 12 0) (grants_give grant self.entry.container.now self.entry.msgstart) }
    {
        let mut counts = [0u32; ROW];
        take_grant(receiver, grant, HEADER_PLACE, &mut counts)?;
        for g in 0..GRANULES {
            self.grant_granule(receiver, g, &mut counts)?;
        }
        Ok(counts)
    }
}

// What the header's grant and the CrdtGrants that start in a container by a MsgStart give, counted by pool: 1, 4, then 21 in this order.
pub fn tally_granted(
    receiver: Receiver,
    grant: Grant,
    msgstart: u16,
    container: &[u8],
) -> Result<[u32; ROW], Fault>
    ensures { result ≡ granted_tally receiver grant container.now msgstart }
{
    let Ok(container) = <&[u8; CONTAINER]>::try_from(container) else {
        return Err(Cause::ContainerLength.at(0));
    };
    if 8 <= grant.rp {
        return Err(Cause::HeaderGrantForm.at(0));
    }
    let starts = Starts {
        container,
        msgstart,
    };
    starts.walk_granted(receiver, grant)
}
