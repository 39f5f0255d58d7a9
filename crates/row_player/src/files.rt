//! Files of rows, one after another.
use crate::asked::Asked;
use crate::fault::Fault;
use crate::row::{Player, Row};
use std::fs::read_to_string;
use std::marker::Model;
use std::process::ExitCode;
use std::{env, io};

/// The outcome of all rows so far.
#[derive(Drop)]
struct Sum {
    rows: u32,
    /// How many rows have a fault, as they are meant to.
    wrong: u32,
    exchanges: u32,
    is_well: bool,
    /// The names of all rows, a line each.
    seen: String,
}

/// Says nothing of the value. So its holder isn't checked over its parts.
impl Model for Sum {
    ghost use Rattle.std.specs.Prelude.{⊤};

    ghost Value = { ⊤ };

    ghost view = { λ _. tt };
}

/// The file that is played, and its row.
#[derive(Clone, Copy)]
struct Playing<'t> {
    path: &'t str,
    /// The lines that are still to be played, and the number of the last one that was.
    text: &'t str,
    line: usize,
    name: &'t str,
    is_wrong: bool,
    /// How many rounds are still to be played, the line that begins them, and the text after that line.
    left: u32,
    begun: usize,
    rounds: &'t str,
}

/// Prints where and why a row stops. If what came back differs from what is wanted, prints it too.
fn complain(rt: &HostRuntime, asked: &Asked, playing: &Playing<'_>, line: usize) {
    let (path, name) = (playing.path, playing.name);
    let fault = asked.told.fault();
    let (what, told) = match fault {
        Fault::Out => ("byte ", asked.told.out()),
        Fault::Err => ("err is ", asked.told.err()),
        Fault::End => ("the end is ", asked.told.end()),
        Fault::Opening(name) => ("the files aren't opened: ", name.as_bytes()),
        Fault::Line(text) => ("", text.as_bytes()),
        Fault::Nothing => ("", b"nothing".as_slice()),
    };
    let told = str::from_utf8(told).unwrap_or("no text");
    let _ = if playing.is_wrong {
        print!(rt; "{path}:{line}: {name} is wrong: {what}")
    } else {
        print!(rt; "{path}:{line}: {what}")
    };
    let _ = match fault {
        Fault::Out => println!(rt; "{} differs in {told:?}", asked.difference()),
        Fault::Err => println!(rt; "{told:?}"),
        _ => println!(rt; "{}", told.trim_start_matches("status ")),
    };
}

impl Sum {
    /// Notes the name of a row. No other row may have the same name.
    fn see(&mut self, name: &str, asked: &mut Asked) {
        let told = &mut asked.told;
        let is_name = !name.is_empty() && !name.contains(' ');
        told.needs(is_name, "this is no row's name");
        for line in self.seen.lines() {
            told.needs(line != name, "a row has this name already");
        }
        let is_put = self.seen.push_str(name).is_ok() && self.seen.push('\n').is_ok();
        told.needs(is_put, "no memory");
    }

    /// Counts the row that ended, and prints its outcome.
    fn add(&mut self, rt: &HostRuntime, asked: &mut Asked, playing: &Playing<'_>, line: usize) {
        let (name, count) = (playing.name, asked.count);
        match (asked.told.is_well(), playing.is_wrong) {
            (true, false) => {
                self.rows = self.rows.saturating_add(1);
                self.exchanges = self.exchanges.saturating_add(count);
                let _ = println!(rt; "{name}: {count}");
                return;
            }
            (false, true) => self.wrong = self.wrong.saturating_add(1),
            _ => {
                self.is_well = false;
                asked.told.needs(false, "the row is to be wrong");
            }
        }
        complain(rt, asked, playing, line);
    }
}

/// Ends the row that was played, if there is one, and prints its outcome. `rounds` without `done` is a fault.
fn end<P: Player>(rt: &HostRuntime, row: &mut Row<'_, P>, playing: &Playing<'_>, sum: &mut Sum) {
    let mut line = row.asked.at;
    if row.asked.told.is_well() {
        if playing.name.is_empty() {
            return;
        }
        if playing.left > 0 {
            line = playing.begun;
            row.asked.told.needs(false, "the rounds have no end");
        }
    }
    row.end();
    sum.add(rt, &mut row.asked, playing, line);
}

/// Plays the next line, if there is one.
fn play_next<P: Player>(
    rt: &HostRuntime,
    row: &mut Row<'_, P>,
    playing: &mut Playing<'_>,
    sum: &mut Sum,
) -> bool {
    let Some((line, behind)) = playing.text.split_once('\n') else {
        return false;
    };
    playing.text = behind;
    playing.line = playing.line.saturating_add(1);
    let (word, rest) = line.split_once(' ').unwrap_or((line, ""));
    match word {
        _ if line.is_empty() || line.starts_with('#') => {}
        "row" | "wrong" => {
            end(rt, row, playing, sum);
            playing.name = rest;
            playing.is_wrong = word == "wrong";
            playing.left = 0;
            row.clear();
            row.asked.at = playing.line;
            sum.see(rest, &mut row.asked);
        }
        "rounds" if playing.left == 0 => {
            playing.left = rest.parse().unwrap_or(0);
            playing.begun = playing.line;
            playing.rounds = behind;
        }
        "done" if playing.left > 0 => {
            playing.left = playing.left.saturating_sub(1);
            if playing.left > 0 {
                playing.text = playing.rounds;
                playing.line = playing.begun;
            }
        }
        _ if playing.name.is_empty() && word != "let" => {
            row.asked.told.needs(false, "there is no row yet");
        }
        _ => row.play(playing.line, word, rest),
    }
    true
}

/// Plays the lines of a file.
fn play_lines<P: Player>(
    rt: &HostRuntime,
    row: &mut Row<'_, P>,
    path: &str,
    text: &str,
    sum: &mut Sum,
) {
    let mut playing = Playing {
        path,
        text,
        line: 0,
        name: "",
        is_wrong: false,
        left: 0,
        begun: 0,
        rounds: "",
    };
    row.begin_file();
    for _ in 0..u64::MAX {
        if !play_next(rt, row, &mut playing, sum) {
            break;
        }
    }
    end(rt, row, &playing, sum);
    row.clear();
}

/// Plays the files in this order, and prints the outcome of each row and of all.
fn play_files<P: Player>(rt: &HostRuntime, player: P, paths: &[String]) -> ExitCode {
    let mut row = Row::new(rt, player);
    let mut sum = Sum {
        rows: 0,
        wrong: 0,
        exchanges: 0,
        is_well: !paths.is_empty(),
        seen: String::new(rt.alloc()),
    };
    for path in paths {
        let path = path.as_str();
        match read_to_string(rt, path) {
            Ok(text) => play_lines(rt, &mut row, path, text.as_str(), &mut sum),
            Err(_) => {
                sum.is_well = false;
                let _ = println!(rt; "{path}:0: the file isn't read");
            }
        }
    }
    let (rows, exchanges, wrong, is_well) = (sum.rows, sum.exchanges, sum.wrong, sum.is_well);
    let told = println!(rt; "{rows} rows, {exchanges} exchanges, {wrong} rows are wrong");
    ExitCode::from(if is_well && told.is_ok() { 0 } else { 1 })
}

/// Plays the files that the program's arguments name.
pub fn play_all<P: Player>(rt: &HostRuntime, player: P) -> io::Result<ExitCode> {
    let mut paths = Vec::new(rt.alloc());
    for path in env::args(rt)?.skip(1) {
        paths.push(path)?;
    }
    Ok(play_files(rt, player, paths.as_slice()))
}
