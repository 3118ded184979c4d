// The receiver of a direction: its pools, and whether those of a message and of a grant exist.
ghost use Rattle.std.specs.Prelude.{◌≡◌, ◌&&◌, ◌||◌, ◌%◌, ◌<◌, eqb, ltb, leb};
ghost use Rattle.message.specs.Charges.{res_plane, shared_crdt};
ghost use Rattle.pools.specs.Pools.{receiver_by_numbers, has_pool, capacity_ok, capacities_ok, receiver_ok, payable_by, grantable};

use crate::table::{ROW, take_row};
use container::Grant;
use message::{Class, DATA_DAT, PUSH_DAT, RSP, classify_message};
use slices::item_or;

// The pools.
pub const POOLS: u32 = ROW as u32;

// The most planes of a receiver, and the largest capacity of a pool.
pub const MAX_PLANES: u32 = 8;

pub const MAX_CAPACITY: u32 = 1023;

// The pools behind those of REQ, and the dedicated DAT pools: of DataS and DataL, and of push data.
const RSP_POOL: u32 = RSP as u32;

const DATA_POOL: u32 = DATA_DAT as u32;

const PUSH_POOL: u32 = PUSH_DAT as u32;

// Its planes, whether it takes push data, and the capacities of its pools.
#[derive(Clone, Copy, Debug, PartialEq, Eq)]
pub struct Receiver {
    pub planes: u32,
    pub push: bool,
    pub capacities: [u32; ROW],
}

impl Receiver {
    // The receiver whose planes, push and capacities stand from number `start` on, with zeros behind the last number.
    pub fn from_numbers(numbers: &[u32], start: usize) -> Receiver
        ensures { result ≡ receiver_by_numbers numbers.now start }
    {
        let capacities = take_row(numbers, start.saturating_add(2));
        Receiver {
            planes: item_or(numbers, start, 0),
            push: item_or(numbers, start.saturating_add(1), 0) == 1,
            capacities,
        }
    }

    // Whether a pool exists.
    pub fn has_pool(self, pool: u32) -> bool
        ensures { result ≡ has_pool self pool }
    {
        match pool {
            0..RSP_POOL => pool <= self.planes,
            RSP_POOL..DATA_POOL => true,
            DATA_POOL => self.push,
            PUSH_POOL => self.push && 2 <= self.planes,
            _ => false,
        }
    }

    // Whether the capacity of a pool is at most 1,023, and 0 where the pool is missing.
    fn keeps_capacity(self, pool: u32) -> bool
        requires { pool < 14 }
        ensures { result ≡ capacity_ok self pool }
    {
        let capacity = self.capacities[pool as usize];
        capacity <= MAX_CAPACITY && (capacity == 0 || self.has_pool(pool))
    }

    // Whether every capacity is right.
    fn keeps_capacities(self) -> bool
        ensures { result ≡ capacities_ok self 14 0 }
    {
        for pool in 0..POOLS {
            if !self.keeps_capacity(pool) {
                return false;
            }
        }
        true
    }

    // Whether the planes are 1 to 8 and every capacity is right.
    pub fn is_valid(self) -> bool
        ensures { result ≡ receiver_ok self }
    {
        (1..=MAX_PLANES).contains(&self.planes) && self.keeps_capacities()
    }

    // Whether the REQ plane that byte 0 of a message names exists.
    fn has_plane(self, byte0: u8) -> bool
        ensures { result ≡ ltb (res_plane byte0) self.planes }
    {
        ((byte0 / 32) as u32) < self.planes
    }

    // Whether the DAT pool of a DataS or DataL exists, by byte 0.
    fn has_data_pool(self, byte0: u8) -> bool
        ensures { result ≡ (shared_crdt byte0 || self.push) }
    {
        self.push || byte0 / 16 % 2 == 1
    }

    // Whether the DAT pool of push data exists, by byte 1.
    fn has_push_pool(self, byte1: u8) -> bool
        ensures { result ≡ (self.push && (eqb (byte1 % 2) 1 || has_pool self 13)) }
    {
        self.push && (2 <= self.planes || byte1 % 2 == 1)
    }

    // Whether every pool that a message with this byte 0 may need exists.
    fn has_every_pool(self, byte0: u8) -> bool
        ensures { result ≡ (self.push && (leb 2 self.planes && ltb (res_plane byte0) self.planes)) }
    {
        self.push && 2 <= self.planes && self.has_plane(byte0)
    }

    // Whether the pools of a message exist, by the class of its type.
    fn has_class_pools(self, msgtype: u8, byte0: u8, byte1: u8) -> bool
        ensures { result ≡ payable_by self msgtype byte0 byte1 }
    {
        match classify_message(msgtype) {
            Class::Request => self.has_plane(byte0),
            Class::Data => self.has_data_pool(byte0),
            Class::RequestData => self.has_plane(byte0) && self.has_push_pool(byte1),
            Class::Unknown | Class::Response | Class::Snoop | Class::Misc => true,
        }
    }

    // Whether the pools of a message of this type exist, by its bytes 0 and 1.
    pub fn is_payable(self, msgtype: u8, byte0: u8, byte1: u8) -> bool
        ensures { result ≡ payable_by self msgtype byte0 byte1 }
    {
        self.has_every_pool(byte0) || self.has_class_pools(msgtype, byte0, byte1)
    }

    // Whether the pools of a grant exist.
    pub fn is_grantable(self, grant: Grant) -> bool
        ensures { result ≡ grantable self grant }
    {
        let has_plane = (grant.rp as u32) < self.planes;
        grant.shc || has_plane && (grant.dat == 0 || self.push && grant.rp < 2)
    }
}
