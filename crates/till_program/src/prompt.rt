//! The prompt, which reads lines of words.

ghost use Rattle.std.specs.Prelude.{◌≡◌, ◌++◌, true, false, ℕ, List, None, map, option_map, string_bytes, is_ok, is_some, IfErr, IfOk, IfSome};
ghost use Rattle.std.specs.Iterator.{IsFinite};
ghost use Rattle.shop_types.specs.Numbers.{row_number_of};
ghost use Rattle.till_cashier.specs.Asked.{Grows};
ghost use Rattle.till_program.specs.Lines.{DoesWords, IsNotBegun};
ghost use Rattle.till_program.specs.Prompting as spec;
ghost use Rattle.till_program.specs.Screens.{PrintsMore, screen};

use crate::files::FileShelf;
use crate::greeting::greeting;
use crate::input::has_input;
use crate::lines::push_copies;
use crate::opening::{OpenBook, close_held, close_if_asked};
use crate::program::{Asks, Station, Stock, Words, book_of, perform_words};
use crate::way::{LineNotes, Patience, Way};
use http_messages::write_whole;
use shop_types::{StaffNo, Usage};
use std::alloc::{AllocError, Global};
use std::io::{self, ErrorKind, Write};
use std::time::{Clock, Duration};
use till_cashier::{TillFault, read_sheet, staff_on_sheet, write_parts};
use till_words::{TillLine, read_till_words, split_line};

/// For how many milliseconds a line is waited for before another look at whether another window asks for the book.
const LOOKS: i32 = 500;

/// What a prompt knows from one line to the next: who stands there, and since when the line to the server is down.
#[derive(Clone, Copy)]
struct Known {
    standing: Station,
    notes: LineNotes,
}

impl Known {
    /// Returns what a prompt knows first: nothing of the line, and nobody is named.
    fn new() -> Known
        ensures { result.standing.staff ≡ None }
    {
        Known {
            standing: Station {
                staff: None,
                asks: Asks::Prompt,
            },
            notes: LineNotes::new(),
        }
    }
}

/// Tests whether the words end the prompt.
pub(crate) fn is_end(words: &[String]) -> bool
    ensures { result ≡ spec.is_end (map string_bytes words.now) }
{
    match words {
        [word] => word.as_str() == "exit" || word.as_str() == "quit",
        _ => false,
    }
}

/// What is said before what was typed for a member of staff, if it is none.
const STAFF: &[u8] =
    b"staff N\nThe staff is a number from 1 on, or at the book's own prompt a name on the branch's sheet: ";

/// Lets the member of staff of that number stand at the till, and returns true. If it is no number of staff, says so, and
/// whoever stood there stays.
#[tactic(auto, using(crate::proofs::OutputLaws::more_none, crate::proofs::OutputLaws::errors_more, crate::proofs::OutputLaws::whole_grows))]
pub fn change_staff<E: Write>(
    number: &str,
    standing: &mut Station,
    err: &mut E,
) -> Result<bool, TillFault>
    ensures number { IfOk result (λ is. is ≡ is_some (row_number_of number.now)) }
    ensures changed { IfOk result (λ is. is ≡ true → standing.new ≡ record standing.old { staff = row_number_of number.now }) }
    ensures same { IfOk result (λ is. is ≡ false → standing.new ≡ standing.old) }
    ensures grows { Grows (E.contents err.old) (E.contents err.new) }
{
    let Some(staff) = StaffNo::read(number.as_bytes()) else {
        write_parts(err, &[STAFF, number.as_bytes(), b" is neither.\n"])?;
        return Ok(false);
    };
    standing.staff = Some(staff);
    Ok(true)
}

/// Tests whether nothing is done for the words: there are none, or they end the prompt.
fn is_idle(words: &[String]) -> bool
    ensures { result ≡ spec.is_idle (map string_bytes words.now) }
{
    words.is_empty() || is_end(words)
}

/// Returns the number or the name in `staff N` or `staff FIRST LAST`.
pub(crate) fn staff_number(alloc: Global, words: &[String]) -> Result<Option<String>, AllocError>
    ensures { IfOk result (λ number. option_map string_bytes number ≡ spec.staff_number (map string_bytes words.now)) }
{
    match words {
        [word, number] if word.as_str() == "staff" => {
            Ok(Some(String::from_str(alloc, number.as_str())?))
        }
        [word, first, last] if word.as_str() == "staff" => {
            Ok(Some(format!(in alloc; "{first} {last}")?))
        }
        _ => Ok(None),
    }
}

/// Returns the words, with those before the prompt's own in front of them.
pub(crate) fn joined(
    alloc: Global,
    before: &[String],
    said: &[String],
) -> Result<Vec<String>, AllocError>
    ensures { IfOk result (λ words. map string_bytes words.items
        ≡ map string_bytes before.now ++ map string_bytes said.now) }
{
    let mut words = Vec::new(alloc);
    push_copies(alloc, &mut words, before)?;
    push_copies(alloc, &mut words, said)?;
    Ok(words)
}

/// Does what words ask for. For a minute after a word that got no reply, the line to the server is taken for down.
fn perform_noted<W: Write, E: Write>(
    rt: &HostRuntime,
    words: &[String],
    known: &mut Known,
    held: &mut Option<OpenBook>,
    out: &mut W,
    err: &mut E,
)
    requires { IfSome held.old (λ book. book.conn.in_transaction ≡ false) }
    ensures ended { IfSome held.new (λ book. book.conn.in_transaction ≡ false) }
    ensures stands { known.new.standing ≡ known.old.standing }
    ensures done { (status : ℕ) × DoesWords (map string_bytes words.now) known.old.standing.staff None status
        (screen (W.contents out.old) (E.contents err.old)) (screen (W.contents out.new) (E.contents err.new)) held.old
        held.new }
    ensures grows { PrintsMore (screen (W.contents out.old) (E.contents err.old)) (screen (W.contents out.new)
        (E.contents err.new)) }
{
    let line = known.notes.at(rt.monotonic().unwrap_or(Duration::ZERO));
    let given = Words {
        words,
        standing: known.standing,
        stock: Stock::Named,
        way: Way {
            line,
            patience: Patience::Long,
        },
    };
    let performed = perform_words(rt, &given, held, out, err);
    known.notes.note(
        line,
        performed.line,
        rt.monotonic().unwrap_or(Duration::ZERO),
    );
}

/// Prints who is at the till, where, and when. Prints nothing if the settings of the book that the words before the
/// prompt's own name can't be read.
fn greet<W: Write>(
    rt: &HostRuntime,
    before: &[String],
    known: &Known,
    out: &mut W,
) -> Result<(), TillFault>
    ensures grows { Grows (W.contents out.old) (W.contents out.new) }
{
    let Ok(TillLine { book, staff, .. }) = read_till_words(rt.alloc(), before) else {
        return Ok(());
    };
    let book = book_of(rt, &book)?;
    let line = known.notes.at(rt.monotonic().unwrap_or(Duration::ZERO));
    if let Ok(text) = greeting(rt, book.as_str(), known.standing.staff.or(staff), line) {
        write_whole(out, text.as_bytes())?;
        write_whole(out, b"\n")?;
    }
    Ok(())
}

/// Returns the number that the sheet beside the book has for a member of staff of that name, if it has one. The words
/// before the prompt's own say which book it is.
fn staff_named(rt: &HostRuntime, before: &[String], name: &str) -> Option<StaffNo>
    ensures { IfSome result (spec.IsNamedStaff name.now) }
{
    let Ok(TillLine { book, .. }) = read_till_words(rt.alloc(), before) else {
        return None;
    };
    let book = book_of(rt, &book).ok()?;
    let shelf = FileShelf {
        rt,
        book: book.as_str(),
    };
    let sheet = read_sheet(rt.alloc(), &shelf);
    staff_on_sheet(rt.alloc(), sheet.as_slice(), name).ok()
}

/// Lets the member of staff of that number or name stand at the till, and prints who that is.
#[tactic(auto, using(crate::proofs::OutputLaws::more_none, crate::proofs::OutputLaws::errors_more, crate::proofs::OutputLaws::whole_grows))]
fn stand<W: Write, E: Write>(
    rt: &HostRuntime,
    before: &[String],
    number: &str,
    known: &mut Known,
    out: &mut W,
    err: &mut E,
) -> Result<(), TillFault>
    ensures stands { IfOk result (λ _. spec.StandsBy number.now known.old.standing.staff known.new.standing.staff) }
    ensures grows { PrintsMore (screen (W.contents out.old) (E.contents err.old)) (screen (W.contents out.new)
        (E.contents err.new)) }
{
    if StaffNo::read(number.as_bytes()).is_none() {
        if let Some(staff) = staff_named(rt, before, number) {
            known.standing.staff = Some(staff);
            return greet(rt, before, known, out);
        }
    }
    if !change_staff(number, &mut known.standing, err)? {
        return Ok(());
    }
    greet(rt, before, known, out)
}

/// Does what the words of a line ask for. `staff` and a number or a name changes who stands at the till.
#[tactic(auto, using(crate::proofs::OutputLaws::more_none, crate::proofs::OutputLaws::errors_more, crate::proofs::OutputLaws::whole_grows))]
fn perform_said<W: Write, E: Write>(
    rt: &HostRuntime,
    before: &[String],
    said: Vec<String>,
    known: &mut Known,
    held: &mut Option<OpenBook>,
    out: &mut W,
    err: &mut E,
) -> Result<(), TillFault>
    requires { IfSome held.old (λ book. book.conn.in_transaction ≡ false) }
    ensures ended { IfSome held.new (λ book. book.conn.in_transaction ≡ false) }
    ensures done { IfOk result (λ _. spec.StandsOrDoes (map string_bytes before.now) (map string_bytes said.items)
        known.old.standing.staff known.new.standing.staff (screen (W.contents out.old) (E.contents err.old))
        (screen (W.contents out.new) (E.contents err.new)) held.old held.new) }
    ensures stopped { IfErr result (λ _. held.new ≡ held.old) }
    ensures grows { PrintsMore (screen (W.contents out.old) (E.contents err.old)) (screen (W.contents out.new)
        (E.contents err.new)) }
{
    if let Some(number) = staff_number(rt.alloc(), said.as_slice())? {
        return stand(rt, before, number.as_str(), known, out, err);
    }
    let words = joined(rt.alloc(), before, said.as_slice())?;
    perform_noted(rt, words.as_slice(), known, held, out, err);
    Ok(())
}

/// Does what a line asks for, and returns whether the prompt goes on.
#[tactic(auto, using(crate::proofs::OutputLaws::more_none, crate::proofs::OutputLaws::errors_more, crate::proofs::OutputLaws::whole_grows))]
fn perform_line<W: Write, E: Write>(
    rt: &HostRuntime,
    before: &[String],
    line: &str,
    known: &mut Known,
    held: &mut Option<OpenBook>,
    out: &mut W,
    err: &mut E,
) -> Result<bool, TillFault>
    requires { IfSome held.old (λ book. book.conn.in_transaction ≡ false) }
    ensures ended { IfSome held.new (λ book. book.conn.in_transaction ≡ false) }
    ensures done { IfOk result (λ _. spec.DoesTyped (map string_bytes before.now) line.now known.old.standing.staff
        known.new.standing.staff (screen (W.contents out.old) (E.contents err.old))
        (screen (W.contents out.new) (E.contents err.new)) held.old held.new) }
    ensures last { IfOk result (λ goes_on. goes_on ≡ false → spec.EndsPrompt line.now) }
    ensures stopped { IfErr result (λ _. held.new ≡ held.old) }
    ensures grows { PrintsMore (screen (W.contents out.old) (E.contents err.old)) (screen (W.contents out.new)
        (E.contents err.new)) }
{
    let more = match split_line(rt.alloc(), line) {
        Ok(more) => more,
        Err(Usage::Memory) => return Err(TillFault::Memory),
        Err(Usage::Words(_)) => {
            write_whole(
                err,
                b"A quotation mark is open. Close it, and say the line again.\n",
            )?;
            return Ok(true);
        }
    };
    if is_idle(more.as_slice()) {
        return Ok(!is_end(more.as_slice()));
    }
    perform_said(rt, before, more, known, held, out, err)?;
    Ok(true)
}

/// Waits for the next line as long as a book is held. The book is closed as soon as another window asks for it.
///
/// Standard input is read byte by byte from a terminal or a pipe, so nothing is read ahead, and a file always has input.
fn wait(rt: &HostRuntime, held: &mut Option<OpenBook>)
    requires { IfSome held.old (λ book. book.conn.in_transaction ≡ false) }
    ensures ended { IfSome held.new (λ book. book.conn.in_transaction ≡ false) }
    ensures waited { IsNotBegun held.old held.new }
{
    'looks: for _ in 0..u64::MAX {
        if held.is_none() || has_input(LOOKS) {
            return;
        }
        close_if_asked(rt, held);
    }
}

/// Prints that a line is wanted, and waits for one as long as a book is held.
fn invite<W: Write>(
    rt: &HostRuntime,
    held: &mut Option<OpenBook>,
    out: &mut W,
) -> Result<(), TillFault>
    requires { IfSome held.old (λ book. book.conn.in_transaction ≡ false) }
    ensures ended { IfSome held.new (λ book. book.conn.in_transaction ≡ false) }
    ensures waited { IsNotBegun held.old held.new }
    ensures grows { Grows (W.contents out.old) (W.contents out.new) }
{
    write_whole(out, b"till> ")?;
    out.flush()?;
    wait(rt, held);
    Ok(())
}

/// Does what a line asks for that was read, and returns whether the prompt goes on. If it isn't text, says so.
#[tactic(auto, using(crate::proofs::OutputLaws::more_none, crate::proofs::OutputLaws::errors_more, crate::proofs::OutputLaws::whole_grows))]
fn perform_read<W: Write, E: Write>(
    rt: &HostRuntime,
    before: &[String],
    read: io::Result<String>,
    known: &mut Known,
    held: &mut Option<OpenBook>,
    out: &mut W,
    err: &mut E,
) -> Result<bool, TillFault>
    requires { IfSome held.old (λ book. book.conn.in_transaction ≡ false) }
    ensures ended { IfSome held.new (λ book. book.conn.in_transaction ≡ false) }
    ensures done { IfOk result (λ _. spec.DoesRead (map string_bytes before.now) (spec.text_read string_bytes read)
        known.old.standing.staff known.new.standing.staff (screen (W.contents out.old) (E.contents err.old))
        (screen (W.contents out.new) (E.contents err.new)) held.old held.new) }
    ensures last { IfOk result (λ goes_on. goes_on ≡ false → spec.IsLastLine (spec.text_read string_bytes read)) }
    ensures stopped { IfErr result (λ _. held.new ≡ held.old) }
    ensures grows { PrintsMore (screen (W.contents out.old) (E.contents err.old)) (screen (W.contents out.new)
        (E.contents err.new)) }
{
    match read {
        Ok(line) => perform_line(rt, before, line.as_str(), known, held, out, err),
        Err(error) if error.kind() == ErrorKind::InvalidData => {
            write_whole(
                err,
                b"That line isn't UTF-8. Say it again in other letters.\n",
            )?;
            Ok(true)
        }
        Err(error) => Err(TillFault::from(error)),
    }
}

/// Does what each line asks for, one after another, to the end of the lines, or to `exit` or `quit`. First it says who is
/// at the till, where, and when.
fn perform_lines<I: Iterator<Item = io::Result<String>>, W: Write, E: Write>(
    rt: &HostRuntime,
    before: &[String],
    lines: &mut I,
    held: &mut Option<OpenBook>,
    out: &mut W,
    err: &mut E,
) -> Result<(), TillFault>
    requires idle { IfSome held.old (λ book. book.conn.in_transaction ≡ false) }
    requires first { I.can_next lines.old }
    requires ends { IsFinite (I.remaining lines.old) }
    ensures ended { IfSome held.new (λ book. book.conn.in_transaction ≡ false) }
    ensures performed { spec.PerformsLines I.next_gives string_bytes (map string_bytes before.now) (is_ok result)
        lines.old lines.new (screen (W.contents out.old) (E.contents err.old)) (screen (W.contents out.new) (E.contents err.new))
        held.old held.new }
{
    let mut known = Known::new();
    greet(rt, before, &known, out)?;
    invite(rt, held, out)?;
    'lines: while let Some(line) = lines.next() {
        if !perform_read(rt, before, line, &mut known, held, out, err)? {
            return Ok(());
        }
        invite(rt, held, out)?;
    }
    write_whole(out, b"\n")?;
    Ok(())
}

/// Reads lines of words to the end of the input, or to `exit` or `quit`, and does what each asks for, once. The words
/// before the prompt's own, which name the book, are put before each line. The book is held open from word to word,
/// until another window asks for it.
pub(crate) fn prompt<W: Write, E: Write>(
    rt: &HostRuntime,
    before: &[String],
    out: &mut W,
    err: &mut E,
) -> Result<u8, TillFault>
    ensures { spec.PerformsSome (map string_bytes before.now) (screen (W.contents out.old) (E.contents err.old))
        (screen (W.contents out.new) (E.contents err.new)) }
{
    let mut held = None;
    let ended = perform_lines(rt, before, &mut rt.lines(rt.alloc()), &mut held, out, err);
    close_held(&mut held);
    ended?;
    Ok(0)
}
