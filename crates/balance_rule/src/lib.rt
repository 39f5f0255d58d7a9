//! The manual's rules on money, over the rows that are handed in: late days, balances and rewards. Money is in whole
//! cents.
#![tactic(auto)]

mod fees;
mod rewards;
mod rows;

pub use fees::{balance, is_overdue, late_days};
pub use rewards::{is_on, last_month, rewarded};
pub use rows::{Paid, RentalTerms};
