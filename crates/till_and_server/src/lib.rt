//! Laws of a till and a server at the two ends of connections: what was entered, sent, answered and recorded, and the
//! outcome in the chain's books.
#![tactic(auto)]

pub mod laws;
