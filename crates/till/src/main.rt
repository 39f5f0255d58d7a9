//! The till of a branch, or of head office.
#![tactic(auto)]

use std::env;
use std::io::{self, ErrorKind};
use std::process::ExitCode;

/// Returns the program's words, without its own name.
fn words_of(rt: &HostRuntime) -> io::Result<Vec<String>> {
    let mut words = Vec::new(rt.alloc());
    for word in env::args(rt)?.skip(1) {
        words.push(word)?;
    }
    Ok(words)
}

/// Says why there are no words.
fn unread(rt: &HostRuntime, kind: ErrorKind) -> u8 {
    if kind == ErrorKind::InvalidData {
        let _ = eprintln!(rt; "error: a word isn't UTF-8");
        return 2;
    }
    let _ = eprintln!(rt; "There is no memory left. Close other programs, and say the word again.");
    3
}

fn main(rt: HostRuntime) -> ExitCode {
    let status = match words_of(&rt) {
        Ok(words) => till_program::run(&rt, words.as_slice(), &mut rt.stdout(), &mut rt.stderr()),
        Err(e) => unread(&rt, e.kind()),
    };
    ExitCode::from(status)
}
