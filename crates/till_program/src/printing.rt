//! What a word resulted in is printed: its text on standard output if it was done, and else on standard error.

ghost use Rattle.std.specs.Prelude.{◌≡◌, ◌≢◌, true, IfErr};
ghost use Rattle.std.specs.Io.KnownBytes.{Appends};
ghost use Rattle.till_program.specs.Screens.{IsFront, IsShown, PrintsFault, ShowsSaid, screen};

use http_messages::write_whole;
use std::io::Write;
use till_cashier::{Said, TillFault, write_fault};

/// Writes the text. Returns false if the output failed: then a front of the text may be written.
pub(crate) fn write_text<W: Write>(text: &[u8], out: &mut W) -> bool
    ensures written { result ≡ true → Appends (W.contents out.old) (W.contents out.new) text.now }
    ensures front { IsFront text.now (W.contents out.old) (W.contents out.new) }
{
    match write_whole(out, text) {
        Ok(()) => out.flush().is_ok(),
        Err(_) => false,
    }
}

/// Prints a text with its status: of a word that was done on `out`, and of another on `err`. Returns the status, or 3 if
/// the text can't be printed whole.
pub(crate) fn show<W: Write, E: Write>(text: &[u8], status: u8, out: &mut W, err: &mut E) -> u8
    ensures { IsShown text.now status result (screen (W.contents out.old) (E.contents err.old)) (screen (W.contents out.new)
        (E.contents err.new)) }
{
    if status == 0 {
        return if write_text(text, out) { 0 } else { 3 };
    }
    if write_text(text, err) { status } else { 3 }
}

/// Prints a fault on standard error, and returns its status, or 3 if the fault can't be printed whole.
pub(crate) fn show_fault<E: Write>(fault: TillFault, err: &mut E) -> u8
    ensures shown { PrintsFault fault result (E.contents err.old) (E.contents err.new) }
    ensures status { result ≢ 0 }
{
    let status = fault.status();
    match write_fault(fault, err) {
        Ok(()) => status,
        Err(_) => 3,
    }
}

/// Prints what a word resulted in, and returns its status. That is 0 only if the word was done and says so itself, and
/// its text is printed.
pub(crate) fn print<W: Write, E: Write>(
    said: Result<Said, TillFault>,
    out: &mut W,
    err: &mut E,
) -> u8
    ensures shown { ShowsSaid said result (screen (W.contents out.old) (E.contents err.old)) (screen (W.contents out.new)
        (E.contents err.new)) }
    ensures done { result ≡ 0 → IfErr said (λ _. ⊥) }
{
    match said {
        Ok(Said { text, status }) => show(text.as_str().as_bytes(), status, out, err),
        Err(fault) => show_fault(fault, err),
    }
}
