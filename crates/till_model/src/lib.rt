//! Laws of what a till enters, and of the outcome at its branch.
#![tactic(auto)]

pub mod laws;
