// What a message pays.
ghost use Rattle.std.specs.Prelude.{◌≡◌};
ghost use Rattle.message.specs.Charges.{req_pool, dat_pool, push_pool, charges_by};

use crate::codes::{DATA_DAT, PUSH_DAT, REQ_PLANE_0, RSP, SHARED_DAT, SHARED_REQ, SNP};
use crate::heads::{Class, classify_message};
use crate::place::count_responses;

// An amount of credits of one pool.
#[derive(Clone, Copy)]
pub struct Charge {
    pub pool: u8,
    pub amount: u32,
}

// The charges of a message, REQ before DAT.
#[derive(Clone, Copy)]
pub enum Charges {
    Free,
    One(Charge),
    Two(Charge, Charge),
}

// The pool of a REQ charge, by byte 0.
pub fn choose_req(byte0: u8) -> u8
    ensures { result ≡ req_pool byte0 }
{
    if byte0 / 16 % 2 == 1 {
        return SHARED_REQ;
    }
    REQ_PLANE_0 + byte0 / 32
}

// The pool of a DAT charge of DataS or DataL, by byte 0.
pub fn choose_dat(byte0: u8) -> u8
    ensures { result ≡ dat_pool byte0 }
{
    if byte0 / 16 % 2 == 1 {
        return SHARED_DAT;
    }
    DATA_DAT
}

// The pool of a DAT charge of push data, by byte 1.
pub fn choose_push(byte1: u8) -> u8
    ensures { result ≡ push_pool byte1 }
{
    if byte1 % 2 == 1 {
        return SHARED_DAT;
    }
    PUSH_DAT
}

// The charges of a message of this type, by its bytes 0 and 1.
pub fn charge_message(msgtype: u8, byte0: u8, byte1: u8) -> Charges
    ensures { result ≡ charges_by msgtype byte0 byte1 }
{
    let class = classify_message(msgtype);
    match class {
        Class::Unknown => Charges::Free,
        Class::Request => Charges::One(Charge {
            pool: choose_req(byte0),
            amount: 1,
        }),
        Class::Response => Charges::One(Charge {
            pool: RSP,
            amount: count_responses(msgtype),
        }),
        Class::Snoop => Charges::One(Charge {
            pool: SNP,
            amount: 1,
        }),
        Class::Data => Charges::One(Charge {
            pool: choose_dat(byte0),
            amount: 1,
        }),
        Class::RequestData => Charges::Two(
            Charge {
                pool: choose_req(byte0),
                amount: 1,
            },
            Charge {
                pool: choose_push(byte1),
                amount: 1,
            },
        ),
        Class::Misc => Charges::Free,
    }
}
