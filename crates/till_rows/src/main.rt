//! Plays files of rows: each word at a till, and what the till prints. Each row has its own line to a server on disks in
//! memory.
#![tactic(auto)]

mod book;
mod day;
mod days;
mod kit;
mod line;
mod shelf;
mod shop;
mod word;
mod world;
mod zones;

use crate::days::Days;
use crate::world::World;
use row_player::{Ram, play_all};
use std::io;
use std::process::ExitCode;

/// Plays the files that the arguments name.
fn main(rt: HostRuntime) -> io::Result<ExitCode> {
    match World::new(rt.alloc()) {
        Ok(world) => {
            let days: Days<'_, Ram> = Days::new(&rt, &world);
            let status = play_all(&rt, days);
            drop(world);
            status
        }
        Err(_) => {
            let _ = println!(rt; "no day begins");
            Ok(ExitCode::FAILURE)
        }
    }
}
