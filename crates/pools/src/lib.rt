// Receivers and pools: what messages pay and grants give, counted by pool (document 01, "Pools and the audit").
#![tactic(auto)]

mod begun;
mod granted;
mod kinds;
mod receiver;
mod starts;
mod table;
mod tally;

pub use begun::tally_begun;
pub use granted::tally_granted;
pub use kinds::{Credits, Slots, fit_together};
pub use receiver::{MAX_CAPACITY, MAX_PLANES, POOLS, Receiver};
pub use table::{ROW, TABLE, flatten, nest, take_row};
pub use tally::count_carry;
