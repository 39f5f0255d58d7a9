//! Caches what a chain knows beside its tables, so that a request doesn't have to ask the store again. There are at
//! most 256 films as they are now, and at most 256 tokens with their callers. A chain has one cache of each kind, for
//! all its branches.
#![tactic(auto)]

mod callers;
mod films;

pub use callers::CallerCache;
pub use films::{FilmCache, KnownFilm};
