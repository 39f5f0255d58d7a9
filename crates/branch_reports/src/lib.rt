//! Answers what a branch asks about money: what a customer owes, and which customers are rewarded.
#![tactic(auto)]

mod balances;
mod reports;
mod rewards;

pub use reports::{look_balance, look_rewards};
