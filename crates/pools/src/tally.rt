// Counts by pool, and how they grow.
ghost use Rattle.std.specs.Prelude.{◌≡◌, ◌+◌, ◌%◌, ◌<◌, ◌^◌, ◌&&◌, eqb, ltb, leb, get_or};
ghost use Rattle.lists.specs.Pick.{pick};
ghost use Rattle.message.specs.Charges.{req_pool, dat_pool, listed, charges_by, charges};
ghost use Rattle.pools.specs.Pools.{charged_to};
ghost use Rattle.pools.specs.Rows.{row, raised, Small};
ghost use Rattle.pools.specs.TalliesMirror.{pool_by};

use crate::kinds::{Credits, claim_row};
use crate::table::ROW;
use message::{
    Charges, DATA_L, DATA_S, REQ_S, RESP, RESP2, RSP, SNOOP, SNP, WR_REQ_DATA_L, WR_REQ_DATA_S,
    charge_message, choose_dat, choose_push, choose_req,
};
use slices::byte_at;

// Adds to the count of one pool.
pub(crate) fn add_count(counts: &mut [u32; ROW], pool: u8, amount: Credits)
    requires { (pool < 14) × (get_or counts.old pool 0 + amount.0 < 2 ^ 32) }
    ensures { counts.new ≡ raised (λ p. pick (eqb pool p) amount.0 0) counts.old }
{
    let i = pool as usize;
    counts[i] = Credits(counts[i]).add(amount).0;
}

// Adds what a message pays, by its bytes 0 and 1.
pub(crate) fn add_payment(counts: &mut [u32; ROW], byte0: u8, byte1: u8)
    requires { Small counts.old }
    ensures { counts.new ≡ raised (λ p. charged_to p (listed (charges_by (byte0 % 16) byte0 byte1))) counts.old }
{
    let charges = charge_message(byte0 % 16, byte0, byte1);
    match charges {
        Charges::Free => {}
        Charges::One(one) => {
            add_count(counts, one.pool, Credits(one.amount));
        }
        Charges::Two(one, two) => {
            add_count(counts, one.pool, Credits(one.amount));
            add_count(counts, two.pool, Credits(two.amount));
        }
    }
}

// The pool that byte 0 names: one of DAT where the type is DataS or DataL, else one of REQ.
fn choose_named(msgtype: u8, byte0: u8) -> u8
    ensures { result ≡ pick (leb 6 msgtype && ltb msgtype 8) (dat_pool byte0) (req_pool byte0) }
{
    let dat = choose_dat(byte0);
    let req = choose_req(byte0);
    match msgtype {
        DATA_S | DATA_L => dat,
        0..=255 => req,
    }
}

// The pool of a Resp, a Resp2 or a Snoop.
fn choose_own(msgtype: u8) -> u8
    ensures { result ≡ pick (eqb msgtype 5) 10 9 }
{
    match msgtype {
        SNOOP => SNP,
        0..=255 => RSP,
    }
}

// The pool that a message pays, but for push data; one of REQ where it pays none.
fn choose_pool(msgtype: u8, byte0: u8) -> u8
    ensures { result ≡ pool_by msgtype byte0 }
{
    let own = choose_own(msgtype);
    let named = choose_named(msgtype, byte0);
    match msgtype {
        RESP..=SNOOP => own,
        0..=255 => named,
    }
}

// The first credit that a message pays of that pool.
fn count_first(msgtype: u8) -> u32
    ensures { result ≡ pick (leb 1 msgtype && ltb msgtype 10) 1 0 }
{
    match msgtype {
        REQ_S..=WR_REQ_DATA_L => 1,
        0 | 10..=255 => 0,
    }
}

// The second credit that a Resp2 pays of that pool.
fn count_second(msgtype: u8) -> u32
    ensures { result ≡ pick (eqb msgtype 4) 1 0 }
{
    match msgtype {
        RESP2 => 1,
        0..=255 => 0,
    }
}

// The credits that a message pays of that pool.
fn count_credits(msgtype: u8) -> u32
    ensures { result ≡ pick (leb 1 msgtype && ltb msgtype 10) 1 0 + pick (eqb msgtype 4) 1 0 }
{
    count_first(msgtype) + count_second(msgtype)
}

// The credits that a message pays for push data.
fn count_push(msgtype: u8) -> u32
    ensures { result ≡ pick (leb 8 msgtype && ltb msgtype 10) 1 0 }
{
    match msgtype {
        WR_REQ_DATA_S | WR_REQ_DATA_L => 1,
        0..=255 => 0,
    }
}

// Adds the same as `add_payment` without a branch on the type, for the granule pass.
pub(crate) fn add_charges(counts: &mut [u32; ROW], byte0: u8, byte1: u8)
    requires { Small counts.old }
    ensures { counts.new ≡ raised (λ p. charged_to p (listed (charges_by (byte0 % 16) byte0 byte1))) counts.old }
{
    let msgtype = byte0 % 16;
    add_count(
        counts,
        choose_pool(msgtype, byte0),
        Credits(count_credits(msgtype)),
    );
    add_count(counts, choose_push(byte1), Credits(count_push(msgtype)));
}

// What a carried message pays of each pool.
fn count_payment(carry: &[u8]) -> [u32; ROW]
    ensures { result ≡ row (λ p. charged_to p (charges carry.now)) 14 0 }
{
    let mut counts = [0u32; ROW];
    add_payment(&mut counts, byte_at(carry, 0), byte_at(carry, 1));
    counts
}

// The slots of each pool that a carried message takes: those that its payment stands for.
pub fn count_carry(carry: &[u8]) -> [u32; ROW]
    ensures { result ≡ row (λ p. charged_to p (charges carry.now)) 14 0 }
{
    let paid = count_payment(carry);
    claim_row(paid)
}
