// Message heads: what type and op select, which heads are right, where a message may start and what it pays (document 01,
// "Message heads").
#![tactic(auto)]

mod charge;
mod codes;
mod heads;
mod place;

pub use charge::{Charge, Charges, charge_message, choose_dat, choose_push, choose_req};
pub use codes::{
    ACTIVATION, CRDT_GRANT, DATA_DAT, DATA_L, DATA_S, PUSH_DAT, REQ_PLANE_0, REQ_S, RESP, RESP2,
    RSP, SHARED_DAT, SHARED_REQ, SNOOP, SNP, WR_REQ_DATA_L, WR_REQ_DATA_S,
};
pub use heads::{
    Class, classify_message, is_message, is_misc, is_well_headed, keeps_bytes, keeps_grant,
    measure_code, measure_message,
};
pub use place::{count_miscs, count_responses, may_start};
