//! The audit: checks whether a shop's tables, whatever they hold, stand for sound books, and counts copies by where
//! they are.
#![tactic(auto)]

mod acts;
mod books;
mod counts;
mod custody;
mod custody_rows;
mod deals;
mod kept;
mod kept_rows;
mod laws;
mod listed;
mod lists;
mod office;
mod ordered;
mod parts;
mod reading;
mod shared;
mod tables;
mod texts;

pub use books::{audit_books, check_books};
pub use custody::{audit_custody, check_custody};
pub use kept_rows::CallerRow;
pub use laws::audit_is_of_shop;
pub use listed::{Kept, Listed, read_rows};
pub use shared::{ChainRow, RuleRow, SharedRow};
pub use tables::TableRows;
