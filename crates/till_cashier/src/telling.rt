//! The line that says why a word wasn't done.

ghost use Rattle.std.specs.Prelude.{◌≡◌, List, ℕ, IfOk, OnOk, OnErr, string_bytes};
ghost use Rattle.std.specs.List.{flat_map};
ghost use Rattle.std.specs.Io.KnownBytes.{Appends};
ghost use Rattle.till_cashier.specs.Telling.{IsCutOff, IsDate, IsFaultLine, date_in};

use crate::fault::TillFault;
use http_messages::write_whole;
use std::alloc::Global;
use std::io::{self, Write};
use till_requests::moment_at;

/// Writes the parts, one after another. At an error a front of them is written, and not all.
pub fn write_parts<W: Write>(out: &mut W, parts: &[&[u8]]) -> io::Result<()>
    ensures ok { OnOk result (Appends (W.contents out.old) (W.contents out.new) (flat_map (λ part. part.now) parts.now)) }
    ensures err { OnErr result (IsCutOff (flat_map (λ part. part.now) parts.now) (W.contents out.old) (W.contents out.new)) }
{
    for part in parts {
        match write_whole(out, part) {
            Ok(()) => {}
            Err(error) => return Err(error),
        }
    }
    Ok(())
}

/// Returns the moment's text at the beginning of the day of that number.
fn day_text(day: i32) -> Option<[u8; 19]>
    ensures { IsDate day (date_in result) }
{
    let at = moment_at(u64::from(day.unsigned_abs()) * 86_400)?;
    Some(at.text())
}

/// Returns the date in a moment's text.
fn date_of(text: &Option<[u8; 19]>) -> &[u8]
    ensures { result.now ≡ date_in text.now }
{
    match text {
        Some(text) => &text[..10],
        None => b"",
    }
}

/// Writes a fault as a line: what it is, and what to do. At an error a front of the line is written, and not all.
pub fn write_fault<W: Write>(fault: TillFault, out: &mut W) -> io::Result<()>
    ensures { (line : List ℕ) × IsFaultLine fault line × OnOk result (Appends (W.contents out.old) (W.contents out.new) line)
        × OnErr result (IsCutOff line (W.contents out.old) (W.contents out.new)) }
{
    let sentences = fault.sentences().as_bytes();
    let mut digits = itoa::Buffer::new();
    match fault {
        TillFault::Ahead(seconds) => {
            let seconds = digits.format(seconds).as_bytes();
            let more = b" seconds, and say the word again.\n";
            write_parts(out, &[sentences, b" Wait ", seconds, more])
        }
        TillFault::Joined(number) => {
            let number = digits.format(number).as_bytes();
            let more = b": if this is somebody else, say --yes before the word.\n";
            write_parts(out, &[sentences, b" It is customer ", number, more])
        }
        TillFault::OtherDay { clock, said } => {
            let (clock, said) = (day_text(clock), day_text(said));
            let more = b". Mend the clock, or the zone, or say the date again.\n";
            let (clock, said) = (date_of(&clock), date_of(&said));
            write_parts(
                out,
                &[sentences, b" It says ", clock, b", not ", said, more],
            )
        }
        _ => write_parts(out, &[sentences, b"\n"]),
    }
}

/// Returns the line of a fault.
pub fn fault_line(alloc: Global, fault: TillFault) -> Result<String, TillFault>
    ensures { IfOk result (λ line. IsFaultLine fault (string_bytes line)) }
{
    let mut line: Vec<u8> = Vec::new(alloc);
    if write_fault(fault, &mut line).is_err() {
        return Err(TillFault::Memory);
    }
    match String::from_utf8(line) {
        Ok(line) => Ok(line),
        Err(_) => Err(TillFault::System),
    }
}
