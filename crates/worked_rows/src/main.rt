//! Plays files of rows: each request and the bytes of its reply.
#![tactic(auto)]

mod calls;
mod counter;
mod lists;
mod serving;
mod tables;
mod values;

use crate::counter::Counter;
use row_player::{Ram, Talk, play_all};
use std::io;
use std::process::ExitCode;

/// Plays the files that the arguments name.
fn main(rt: HostRuntime) -> io::Result<ExitCode> {
    let counter: Counter<Ram> = Counter::new(rt.alloc());
    play_all(&rt, Talk::new(&rt, counter))
}
