//! What a message of a counter or of head office asks: a request to the shop, or the refusal of a message that is none.
#![tactic(auto)]

mod asked;
mod bodies;
mod commands;
mod imports;
mod looks;
mod office;
mod paths;

pub use asked::Reading;
pub use paths::Routes;
