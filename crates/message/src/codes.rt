// The types of messages, the ops of a MiscU, and the pools, by document 01's numbers.
pub const REQ_S: u8 = 1;

pub const REQ_L: u8 = 2;

pub const RESP: u8 = 3;

pub const RESP2: u8 = 4;

pub const SNOOP: u8 = 5;

pub const DATA_S: u8 = 6;

pub const DATA_L: u8 = 7;

pub const WR_REQ_DATA_S: u8 = 8;

pub const WR_REQ_DATA_L: u8 = 9;

pub const MISC_U: u8 = 10;

// The ops of a MiscU.
pub const LINK_STATUS: u8 = 0;

pub const ACTIVATION: u8 = 1;

pub const CRDT_GRANT: u8 = 2;

pub const CONNECT: u8 = 3;

pub const PROPERTY: u8 = 4;

// The pools: shared REQ, that of REQ plane 0, RSP, SNP, shared DAT, DAT dedicated to DataS and DataL, and DAT dedicated to push data.
pub const SHARED_REQ: u8 = 0;

pub const REQ_PLANE_0: u8 = 1;

pub const RSP: u8 = 9;

pub const SNP: u8 = 10;

pub const SHARED_DAT: u8 = 11;

pub const DATA_DAT: u8 = 12;

pub const PUSH_DAT: u8 = 13;
