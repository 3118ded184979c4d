// The audit of both directions of a link: receivers, pools and the ledger (document 01, "Pools and the audit").
#![tactic(auto)]

mod counts;
mod entries;
mod entry;
mod ledger;

pub use entries::Run;
pub use ledger::{Ledger, Report, Step};
