//! A window's prompt, which reads lines of words.

use crate::faults::ShopFault;
use crate::program::{Asks, Station};
use crate::prompt::{change_staff, is_end, joined, staff_number};
use crate::settings::WindowSettings;
use crate::window::{TcpDesk, perform_or_say};
use std::io::{ErrorKind, Write};
use till_cashier::TillFault;
use till_words::split_line;

/// What is said if nobody is named after `staff`.
const STAFF_HERE: &[u8] = b"staff N\nSay the number of the member of staff who stands here.\n";

/// Does what words ask for, or says what keeps the window from it.
fn perform_said<W: Write, E: Write>(
    rt: &HostRuntime,
    window: &WindowSettings,
    words: &[String],
    standing: Station,
    out: &mut W,
    err: &mut E,
) {
    let desk = TcpDesk::of(rt, window);
    perform_or_say(rt, &desk, window, words, standing, out, err);
}

/// Does what the words of a line ask for. `staff N` changes who stands at the window, and the desk says who that is.
fn perform_more<W: Write, E: Write>(
    rt: &HostRuntime,
    window: &WindowSettings,
    before: &[String],
    more: &[String],
    standing: &mut Station,
    out: &mut W,
    err: &mut E,
) -> Result<(), ShopFault> {
    let alloc = rt.alloc();
    if let [word] = more {
        if word.as_str() == "staff" {
            err.write_all(STAFF_HERE)?;
            return Ok(());
        }
    }
    if let Some(number) = staff_number(alloc, more)? {
        if change_staff(number.as_str(), standing, err)? {
            perform_said(rt, window, before, *standing, out, err);
        }
        return Ok(());
    }
    let words = joined(alloc, before, more)?;
    perform_said(rt, window, words.as_slice(), *standing, out, err);
    Ok(())
}

/// Does what a line asks for, and returns whether the prompt goes on.
fn perform_line<W: Write, E: Write>(
    rt: &HostRuntime,
    window: &WindowSettings,
    before: &[String],
    line: &str,
    standing: &mut Station,
    out: &mut W,
    err: &mut E,
) -> Result<bool, ShopFault> {
    let alloc = rt.alloc();
    let Ok(more) = split_line(alloc, line) else {
        writeln!(
            err,
            "A quotation mark is open. Close it, and say the line again."
        )?;
        return Ok(true);
    };
    if is_end(more.as_slice()) {
        return Ok(false);
    }
    if !more.is_empty() {
        perform_more(rt, window, before, more.as_slice(), standing, out, err)?;
    }
    Ok(true)
}

/// Prints that a line is wanted.
fn invite<W: Write>(out: &mut W) -> Result<(), ShopFault> {
    write!(out, "till> ")?;
    out.flush()?;
    Ok(())
}

/// Reads lines of words to the end of the input, or to `exit` or `quit`, and has the desk do what each asks for. The
/// words before the prompt's own are put before each line. First the desk says who is at the window, where, and when.
pub(crate) fn prompt<W: Write, E: Write>(
    rt: &HostRuntime,
    window: &WindowSettings,
    before: &[String],
    out: &mut W,
    err: &mut E,
) -> Result<u8, ShopFault> {
    let mut standing = Station {
        staff: None,
        asks: Asks::Prompt,
    };
    perform_said(rt, window, before, standing, out, err);
    invite(out)?;
    'lines: for line in rt.lines(rt.alloc()) {
        let goes_on = match line {
            Ok(line) => perform_line(rt, window, before, line.as_str(), &mut standing, out, err)?,
            Err(error) if error.kind() == ErrorKind::InvalidData => {
                writeln!(err, "That line isn't UTF-8. Say it again in other letters.")?;
                true
            }
            Err(_) => return Err(ShopFault::Till(TillFault::System)),
        };
        if !goes_on {
            return Ok(0);
        }
        invite(out)?;
    }
    writeln!(out)?;
    Ok(0)
}
