//! The shop system of a film rental chain.
#![tactic(auto)]

use std::env;
use std::io::{self, ErrorKind};
use std::process::ExitCode;

/// Returns the program's words, without its own name.
fn words_of(rt: &HostRuntime) -> io::Result<Vec<String>> {
    let mut words = Vec::new(rt.alloc());
    for word in env::args(rt)?.skip(1) {
        words.push(word)?;
    }
    Ok(words)
}

/// Runs the program for these words, and returns its status.
fn run(rt: &HostRuntime, words: &[String]) -> u8 {
    sakila_office::run(
        rt,
        words,
        &mut rt.stdin(),
        &mut rt.stdout(),
        &mut rt.stderr(),
    )
}

/// Prints why there are no words: one of them isn't UTF-8, or there is no memory for them. If a word isn't UTF-8,
/// prints the usage too, as without words.
fn run_unread(rt: &HostRuntime, kind: ErrorKind) -> u8 {
    if kind == ErrorKind::InvalidData {
        let _ = eprintln!(rt; "error: a word isn't UTF-8");
        return run(rt, &[]);
    }
    let _ = eprintln!(rt; "{{\"refused\":\"memory\"}}");
    3
}

fn main(rt: HostRuntime) -> ExitCode {
    let status = match words_of(&rt) {
        Ok(words) => run(&rt, &words),
        Err(e) => run_unread(&rt, e.kind()),
    };
    ExitCode::from(status)
}
