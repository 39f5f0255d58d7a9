//! Reads and writes the rows of a branch's tables: customers, copies, lots, rentals with their terms, and payments. It
//! also reads and writes the rows that all branches share, and the chain's rule: whose token it is, what each table
//! has, how rows are added and what is set in them. Each statement has one function. Each function works inside a
//! transaction of the caller. Its contract says what it found or changed in the books that the tables stand for.
#![tactic(auto)]

pub mod branches;
pub mod chain;
mod columns;
pub mod copies;
pub mod customers;
pub mod films;
pub mod lasts;
pub mod opening;
pub mod payments;
pub mod puts;
pub mod rentals;
pub mod rows;
pub mod staff;
pub mod termed;
pub mod terms;
