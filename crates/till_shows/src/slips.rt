//! The slips that customers get: lines of at most 42 columns, and a line of hyphens.

ghost use Rattle.std.specs.Prelude.{◌≡◌, ◌++◌, Some, None, IfOk, IfErr, OnOk, option_map, option_and_then, codes};
ghost use Rattle.std.specs.Prelude.{string_bytes, encode_utf8};
ghost use Rattle.till_shows.specs.Bodies.{body_of, number_at};
ghost use Rattle.till_shows.specs.Seen.{seen_cut, seen_slips};
ghost use Rattle.till_shows.specs.Slips.{is_shown, is_narrow, with_char, cut_text, slip_line, head_line, kind_text};
ghost use Rattle.till_shows.specs.Slips.{title_line, due_line, paid_line, owed_text, owed_line, rental_line};
ghost use Rattle.till_shows.specs.Slips as spec;
ghost use Rattle.till_shows.specs.declared.bodies.NotShown.TheVariants.{OtherForm};

use crate::bodies::{NotShown, number_at, value_of};
use crate::cents::amount;
use crate::moments::{day_words, moment_words};
use shop_types::{BranchNo, Moment, StaffNo};
use std::alloc::{AllocError, Global};
use std::mem;
use unicode_width::UnicodeWidthStr;

/// The line that ends a slip.
const END: &str = "------------------------------------------";

/// What was done.
#[derive(Clone, Copy)]
pub enum SlipKind {
    Rent,
    Return,
    Payment,
}

/// What a slip says. What isn't known has no line.
#[derive(Clone, Copy)]
pub struct Slip<'s> {
    pub branch: Option<BranchNo>,
    pub staff: StaffNo,
    /// The moment by the clock on the wall.
    pub at: Moment,
    pub kind: SlipKind,
    pub title: Option<&'s str>,
    /// A moment of the last day of the rental's period.
    pub due: Option<Moment>,
    /// The payment in cents.
    pub paid: Option<u64>,
    /// What the customer owes in cents. Below zero it is what the branch owes.
    pub owed: Option<i64>,
    /// The rental's number.
    pub rental: Option<u64>,
}

/// The beginning of a line that is kept.
#[derive(Drop)]
struct CutLine {
    text: String,
    /// Whether the line's rest is left out.
    is_full: bool,
}

/// Tests whether the character is no control character.
fn is_shown(c: char) -> bool
    ensures { result ≡ is_shown c }
{
    let code = c as u32;
    code > 31 && (code < 127 || code > 159)
}

/// Tests whether the text takes at most 42 columns.
fn is_narrow(text: &str) -> bool
    ensures { result ≡ is_narrow text.now }
{
    text.width() < 43
}

/// Returns the text with one more character.
fn longer(alloc: Global, text: &str, c: char) -> Result<String, AllocError>
    ensures { IfOk result (λ s. string_bytes s ≡ text.now ++ encode_utf8 c) }
{
    let mut longer = String::from_str(alloc, text)?;
    longer.push(c)?;
    Ok(longer)
}

impl CutLine {
    /// Keeps the character if all before it were kept and it has room.
    fn add(&mut self, alloc: Global, c: char) -> Result<(), AllocError>
        ensures { OnOk result (seen_cut self.new ≡ with_char (seen_cut self.old) c) }
    {
        if self.is_full {
            return Ok(());
        }
        let longer = longer(alloc, self.text.as_str(), c)?;
        if is_shown(c) && is_narrow(longer.as_str()) {
            self.text = longer;
        } else {
            self.is_full = true;
        }
        Ok(())
    }
}

/// Returns the text up to its first control character, and as much of that as 42 columns have room for.
fn cut(alloc: Global, text: &str) -> Result<String, AllocError>
    ensures { IfOk result (λ s. string_bytes s ≡ cut_text text.now) }
{
    let mut cut = CutLine {
        text: String::new(alloc),
        is_full: false,
    };
    for c in text.chars() {
        cut.add(alloc, c)?;
    }
    Ok(cut.text)
}

/// Returns the text as a line of a slip.
fn slip_line(alloc: Global, text: &str) -> Result<String, AllocError>
    ensures { IfOk result (λ s. string_bytes s ≡ slip_line text.now) }
{
    let text = cut(alloc, text)?;
    format!(in alloc; "{text}\n")
}

/// Returns the line with the branch and the member of staff.
fn head_line(alloc: Global, branch: Option<BranchNo>, staff: StaffNo) -> Result<String, AllocError>
    ensures { IfOk result (λ s. string_bytes s ≡ head_line branch staff) }
{
    let text = match branch {
        Some(branch) => { format!(in alloc; "branch {}, staff {}", branch.get(), staff.get())? }
        None => format!(in alloc; "staff {}", staff.get())?,
    };
    slip_line(alloc, text.as_str())
}

/// Returns the line with the moment.
fn moment_line(alloc: Global, at: Moment) -> Result<String, AllocError>
    ensures { IfOk result (λ s. string_bytes s ≡ spec.moment_line at) }
{
    let text = moment_words(alloc, at)?;
    slip_line(alloc, text.as_str())
}

fn kind_text(kind: SlipKind) -> &'static str
    ensures { result.now ≡ kind_text kind }
{
    match kind {
        SlipKind::Rent => "rent",
        SlipKind::Return => "return",
        SlipKind::Payment => "payment",
    }
}

fn title_line(alloc: Global, title: Option<&str>) -> Result<String, AllocError>
    ensures { IfOk result (λ s. string_bytes s ≡ title_line (option_map (λ it. it.now) title.entry)) }
{
    match title {
        Some(title) => {
            let text = format!(in alloc; "film: {title}")?;
            slip_line(alloc, text.as_str())
        }
        None => Ok(String::new(alloc)),
    }
}

fn due_line(alloc: Global, due: Option<Moment>) -> Result<String, AllocError>
    ensures { IfOk result (λ s. string_bytes s ≡ due_line due) }
{
    match due {
        Some(due) => {
            let day = day_words(alloc, due)?;
            let text = format!(in alloc; "due: {day}")?;
            slip_line(alloc, text.as_str())
        }
        None => Ok(String::new(alloc)),
    }
}

fn paid_line(alloc: Global, paid: Option<u64>) -> Result<String, AllocError>
    ensures { IfOk result (λ s. string_bytes s ≡ paid_line paid) }
{
    match paid {
        Some(cents) => {
            let sum = amount(alloc, cents)?;
            let text = format!(in alloc; "paid: {sum}")?;
            slip_line(alloc, text.as_str())
        }
        None => Ok(String::new(alloc)),
    }
}

/// Returns what the customer owes, or what the branch owes the customer.
fn owed_text(alloc: Global, cents: i64) -> Result<String, AllocError>
    ensures { IfOk result (λ s. string_bytes s ≡ owed_text cents) }
{
    let sum = amount(alloc, cents.unsigned_abs())?;
    if cents < 0 {
        format!(in alloc; "credit: {sum}")
    } else {
        format!(in alloc; "owed: {sum}")
    }
}

fn owed_line(alloc: Global, owed: Option<i64>) -> Result<String, AllocError>
    ensures { IfOk result (λ s. string_bytes s ≡ owed_line owed) }
{
    match owed {
        Some(cents) => {
            let text = owed_text(alloc, cents)?;
            slip_line(alloc, text.as_str())
        }
        None => Ok(String::new(alloc)),
    }
}

fn rental_line(alloc: Global, rental: Option<u64>) -> Result<String, AllocError>
    ensures { IfOk result (λ s. string_bytes s ≡ rental_line rental) }
{
    match rental {
        Some(rental) => {
            let text = format!(in alloc; "rental: {rental}")?;
            slip_line(alloc, text.as_str())
        }
        None => Ok(String::new(alloc)),
    }
}

/// Returns the lines that say who gave the word, when, and what it was.
fn front(alloc: Global, slip: &Slip<'_>) -> Result<String, AllocError>
    ensures { IfOk result (λ s. string_bytes s ≡ spec.front_text slip.now) }
{
    let head = head_line(alloc, slip.branch, slip.staff)?;
    let at = moment_line(alloc, slip.at)?;
    let kind = slip_line(alloc, kind_text(slip.kind))?;
    format!(in alloc; "{head}{at}{kind}")
}

/// Returns the lines that say what is known of it.
fn known(alloc: Global, slip: &Slip<'_>) -> Result<String, AllocError>
    ensures { IfOk result (λ s. string_bytes s ≡ spec.known_text slip.now) }
{
    let title = title_line(alloc, slip.title)?;
    let due = due_line(alloc, slip.due)?;
    let paid = paid_line(alloc, slip.paid)?;
    let owed = owed_line(alloc, slip.owed)?;
    let rental = rental_line(alloc, slip.rental)?;
    format!(in alloc; "{title}{due}{paid}{owed}{rental}")
}

/// Returns the text of a slip: a line for each part that is known, and a line of hyphens. A line ends before its first
/// control character and takes at most 42 columns of a terminal. Its rest is left out.
pub fn slip_text(alloc: Global, slip: &Slip<'_>) -> Result<String, AllocError>
    ensures { IfOk result (λ s. string_bytes s ≡ spec.slip_text slip.now) }
{
    let front = front(alloc, slip)?;
    let known = known(alloc, slip)?;
    format!(in alloc; "{front}{known}------------------------------------------\n")
}

/// Returns the rental's number from the body of the reply to an accepted rent.
pub fn rental_in(alloc: Global, body: &[u8]) -> Result<u64, NotShown>
    ensures shown { IfOk result (λ rental. option_and_then (number_at (codes "rental")) (body_of body.now)
        ≡ Some rental) }
    ensures other { IfErr result (λ fault. fault ≡ OtherForm
        → option_and_then (number_at (codes "rental")) (body_of body.now) ≡ None) }
{
    let value = value_of(alloc, body)?;
    match number_at(&value, "rental") {
        Some(rental) => Ok(rental),
        None => Err(NotShown::OtherForm),
    }
}

/// Slips that were written one after another.
#[derive(Drop)]
struct Slips {
    last: String,
    /// The lines after the last whole slip.
    rest: String,
}

impl Slips {
    /// Reads one more line, which may end a slip.
    fn add(&mut self, alloc: Global, line: &str) -> Result<(), AllocError>
        ensures { OnOk result (seen_slips self.new ≡ spec.with_line (seen_slips self.old) line.now) }
    {
        self.rest.push_str(line)?;
        self.rest.push_str("\n")?;
        if line == END {
            self.last = mem::replace(&mut self.rest, String::new(alloc));
        }
        Ok(())
    }
}

/// Returns the last whole slip of a text of slips, or an empty text if there is none.
pub fn last_slip(alloc: Global, text: &str) -> Result<String, AllocError>
    ensures { IfOk result (λ s. string_bytes s ≡ spec.last_slip text.now) }
{
    let mut slips = Slips {
        last: String::new(alloc),
        rest: String::new(alloc),
    };
    for line in text.lines() {
        slips.add(alloc, line)?;
    }
    Ok(slips.last)
}
