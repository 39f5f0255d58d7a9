//! The program for one list of words.

ghost use Rattle.std.specs.Prelude.{◌≡◌, ◌≢◌, ◌⊎◌, true, false, map, string_bytes, None, IfErr, IfOk, IfSome};
ghost use Rattle.sqlite.specs.Files.{file_state};
ghost use Rattle.sqlite.specs.Held.{state};
ghost use Rattle.sqlite.specs.State.{HasCleanDisk};
ghost use Rattle.till_requests.specs.Zones.{offset_of};
ghost use Rattle.till_work.specs.Exchanged.{IsExchanged};
ghost use Rattle.till_cashier.specs.Asked.{Grows};
ghost use Rattle.till_cashier.specs.Asking.{IsAnswered};
ghost use Rattle.till_cashier.specs.Clock.{local_clock};
ghost use Rattle.till_cashier.specs.Faults.{IsBookKept, giver_of};
ghost use Rattle.till_cashier.specs.Word.{EntersNothing};
ghost use Rattle.till_cashier.specs.ZoneText.{IsZoneText};
ghost use Rattle.till_program.specs.Lines.{IsCompleted, JoinsIn, sent_file, book_name, DoesLine, DoesWords, DoesZone, IsGreeting, IsHelp, IsNotBegun, IsNotDoneAt, SaysDone};
ghost use Rattle.till_program.specs.Prompting.{AsksForPrompt, PerformsOnce, RunsTill};
ghost use Rattle.till_program.specs.Performing.{IsPerformed, MakesSure, IsAttempted, IsAttemptedAt, IsNotDone, AtBook};
ghost use Rattle.till_program.specs.Screens.{IsShown, PrintsFault, PrintsMore, Shows, nothing_text, screen};

use crate::files::FileShelf;
use crate::greeting::greeting;
use crate::init::begin;
use crate::opening::{OpenBook, Tools, close_held, opened};
use crate::printing::{print, show, show_fault, write_text};
use crate::prompt::prompt;
use crate::tcp::Tcp;
use crate::way::{Patience, Way};
use crate::zone_setting::set_zone;
use crate::zones::wall_zone;
use shop_types::{Act, Moment, NewCustomer, Person, StaffNo, StockFile, Usage};
use sqlite::{Alter, Connection, FileStore};
use sqlite_std_file::File;
use std::alloc::Global;
use std::fs;
use std::io::Write;
use std::time::{Clock, Duration};
use till_cashier::{
    Desk, Inquiry, Link, Said, Shelf, TillFault, WallClock, ask_before, city_on_sheet, do_word,
    make_sure, make_sure_soon, question, read_sheet, said_day,
};
use till_words::{
    DrawerNo, FileName, PersonIn, TillAct, TillLine, ZoneText, asks_for_help, help_text,
    read_till_words,
};
use till_work::{Server, Watch};

/// The book's file, if none is named.
const BOOK: &str = "till.book";

/// Reports on standard error how far a sending is, after its first second and then once a second.
#[derive(Drop)]
struct Progress<'a> {
    rt: &'a HostRuntime,
    next: Duration,
}

impl Watch for Progress<'_> {
    fn sends(&mut self, sent: u32, all: u32) {
        let now = self.rt.monotonic().unwrap_or(Duration::ZERO);
        if all > 1 && now >= self.next {
            let _ = eprintln!(self.rt; "{sent} of {all} sent");
            self.next = now.saturating_add(Duration::from_secs(1));
        }
    }
}

/// Where the stock file of an import is.
#[derive(Clone, Copy)]
pub enum Stock<'w> {
    /// The import names a file of this machine.
    Named,
    /// The import came with these bytes, from where its file is.
    Sent(&'w [u8]),
}

/// Returns the bytes of the stock file of that name.
fn stock_file(rt: &HostRuntime, stock: Stock<'_>, file: &FileName) -> Result<Vec<u8>, TillFault>
    ensures { IfOk result (λ bytes. IfSome (sent_file stock.entry) (λ came. bytes.items ≡ came)) }
{
    match stock {
        Stock::Named => match fs::read(rt, file.as_str()) {
            Ok(bytes) => Ok(bytes),
            Err(_) => Err(TillFault::NoFile),
        },
        Stock::Sent(bytes) => Ok(Vec::from_slice(rt.alloc(), bytes)?),
    }
}

/// Returns the act of who joins in a city that the sheet beside the book names.
fn join_in(rt: &HostRuntime, book: &str, who: PersonIn) -> Result<TillAct, TillFault>
    ensures { IfOk result (JoinsIn who) }
{
    let sheet = read_sheet(rt.alloc(), &FileShelf { rt, book });
    let city = city_on_sheet(rt.alloc(), sheet.as_slice(), who.city.as_str())?;
    let person = Person {
        first: who.first,
        last: who.last,
        address: who.address,
        postal: who.postal,
        phone: who.phone,
        city,
    };
    Ok(TillAct::Do(Act::Customer(NewCustomer { person })))
}

/// Returns the act with its stock file read, or with its city's number, if it names one.
fn completed(
    rt: &HostRuntime,
    stock: Stock<'_>,
    book: &str,
    act: TillAct,
) -> Result<TillAct, TillFault>
    ensures { IfOk result (IsCompleted (sent_file stock.entry) act) }
{
    match act {
        TillAct::Import { file, lot } => {
            let bytes = stock_file(rt, stock, &file)?;
            match StockFile::new(bytes) {
                Some(file) => Ok(TillAct::Do(Act::Import { lot, file })),
                None => Err(TillFault::TooLarge),
            }
        }
        TillAct::JoinIn(who) => join_in(rt, book, who),
        other => Ok(other),
    }
}

/// The status of a word, whether the book failed at it, and what it showed of the line. A book that failed is to be
/// opened anew.
#[derive(Clone, Copy)]
struct Outcome {
    status: u8,
    is_failed: bool,
    line: Link,
}

/// Returns what is known of the line after a word.
fn line_after(before: Link, is_send: bool, said: &Result<Said, TillFault>) -> Link {
    match said {
        Ok(_) if is_send => Link::Open,
        Ok(_) => before,
        Err(fault) if fault.is_unanswered() => Link::Down,
        Err(_) => before,
    }
}

/// Reports whether the book failed.
fn has_failed<T>(outcome: &Result<T, TillFault>) -> bool
    ensures { result ≡ false → IsBookKept outcome.now }
{
    matches!(outcome, Err(TillFault::Book))
}

/// Makes sure of refused entries after a word: after `send` as long as it takes, and else for a short time.
fn made_sure<S: Alter, K: WallClock, V: Server, L: Shelf>(
    desk: &Desk<'_, K, V, L>,
    conn: &mut Connection<S>,
    is_send: bool,
    said: &mut Said,
) -> Result<(), TillFault>
    requires { conn.old.in_transaction ≡ false }
    ensures ended { conn.new.in_transaction ≡ false }
    ensures clean { HasCleanDisk (state S.Store conn.new) → HasCleanDisk (state S.Store conn.old) }
    ensures same { HasCleanDisk (state S.Store conn.new) → IsBookKept result
        → EntersNothing (IsExchanged (V.opens desk.now.server.now) V.Reader.remaining V.Writer.contents) (state S.Store
        conn.old) (state S.Store conn.new) }
{
    if is_send {
        return make_sure(desk, conn, said);
    }
    make_sure_soon(desk, conn, said)
}

/// Makes sure of refused entries after a word, and prints what that results in. After `send` it takes its time. Returns
/// whether the book failed.
fn sure_at<S: Alter, K: WallClock, V: Server, L: Shelf, W: Write>(
    desk: &Desk<'_, K, V, L>,
    conn: &mut Connection<S>,
    is_send: bool,
    out: &mut W,
) -> bool
    requires { conn.old.in_transaction ≡ false }
    ensures ended { conn.new.in_transaction ≡ false }
    ensures clean { HasCleanDisk (state S.Store conn.new) → HasCleanDisk (state S.Store conn.old) }
    ensures same { HasCleanDisk (state S.Store conn.new) → result ≡ false
        → EntersNothing (IsExchanged (V.opens desk.now.server.now) V.Reader.remaining V.Writer.contents) (state S.Store
        conn.old) (state S.Store conn.new) }
    ensures grows { Grows (W.contents out.old) (W.contents out.new) }
{
    let mut more = Said::done(desk.alloc);
    let sure = made_sure(desk, conn, is_send, &mut more);
    write_text(more.text.as_str().as_bytes(), out);
    has_failed(&sure)
}

/// Makes sure of refused entries after a word, over the desk's own server after `send` and else over that one. Returns
/// whether the book failed.
fn sure_after<S: Alter, K: WallClock, V: Server, L: Shelf, W: Write>(
    desk: &Desk<'_, K, V, L>,
    least: &V,
    conn: &mut Connection<S>,
    is_send: bool,
    out: &mut W,
) -> bool
    requires { conn.old.in_transaction ≡ false }
    ensures ended { conn.new.in_transaction ≡ false }
    ensures clean { HasCleanDisk (state S.Store conn.new) → HasCleanDisk (state S.Store conn.old) }
    ensures same { HasCleanDisk (state S.Store conn.new) → result ≡ false
        → MakesSure (IsExchanged (V.opens desk.now.server.now) V.Reader.remaining V.Writer.contents)
        (IsExchanged (V.opens least.now) V.Reader.remaining V.Writer.contents) (state S.Store conn.old) (state S.Store
        conn.new) }
    ensures grows { Grows (W.contents out.old) (W.contents out.new) }
{
    if is_send {
        return sure_at(desk, conn, true, out);
    }
    sure_at(&desk.over(least), conn, false, out)
}

/// Does a word at an open book, and prints what it resulted in. If it was done, refused entries are made sure of after
/// it, with the least patience unless the word is `send`. What comes of that is printed, and what can't be asked
/// now is left for another time.
fn word_at<S: Alter, K: WallClock, V: Server, L: Shelf, W: Write, E: Write>(
    desk: &Desk<'_, K, V, L>,
    least: &V,
    conn: &mut Connection<S>,
    act: TillAct,
    watch: &mut Progress<'_>,
    out: &mut W,
    err: &mut E,
) -> Outcome
    requires { conn.old.in_transaction ≡ false }
    ensures ended { conn.new.in_transaction ≡ false }
    ensures clean { HasCleanDisk (state S.Store conn.new) → HasCleanDisk (state S.Store conn.old) }
    ensures performed { HasCleanDisk (state S.Store conn.new)
        → IsPerformed S.Store (IsExchanged (V.opens desk.now.server.now) V.Reader.remaining V.Writer.contents)
        (IsAnswered (V.opens desk.now.server.now) V.Reader.remaining V.Writer.contents)
        (MakesSure (IsExchanged (V.opens desk.now.server.now) V.Reader.remaining V.Writer.contents)
        (IsExchanged (V.opens least.now) V.Reader.remaining V.Writer.contents))
        (local_clock (K.shows desk.now.clock.now) desk.now.settings.now.zone) desk.now.wall
        (offset_of desk.now.settings.now.zone) desk.now.settings.now.mark desk.now.settings.now.token
        desk.now.settings.now.staff
        (giver_of desk.now.settings.now.staff desk.now.staff) desk.now.is_json desk.now.sheet.now act result.is_failed result.status
        (screen (W.contents out.old) (E.contents err.old)) (screen (W.contents out.new) (E.contents err.new)) conn.old conn.new }
    ensures grows { PrintsMore (screen (W.contents out.old) (E.contents err.old)) (screen (W.contents out.new)
        (E.contents err.new)) }
{
    let is_send = matches!(act, TillAct::Send);
    let said = do_word(desk, conn, act, watch);
    let line = line_after(desk.line, is_send, &said);
    let is_failed = has_failed(&said);
    let status = print(said, out, err);
    if status != 0 {
        return Outcome {
            status,
            is_failed,
            line,
        };
    }
    Outcome {
        status,
        is_failed: sure_after(desk, least, conn, is_send, out),
        line,
    }
}

/// The status of a word of a window's prompt that wasn't done, since its question is the answer.
pub const ASKED: u8 = 5;

/// Who is asked before a word that can't be undone.
#[derive(Clone, Copy, Debug, PartialEq, Eq)]
pub enum Asks {
    /// Nobody: it isn't done without `--yes`.
    Nobody,
    /// Whoever types at this program's prompt.
    Prompt,
    /// Whoever types at a window's prompt. The question is the answer to the word.
    Window,
}

/// Who stands at the till, and who is asked before a word that can't be undone.
#[derive(Clone, Copy)]
pub struct Station {
    /// Who gives the words, if it isn't the member of staff whose till it is.
    pub staff: Option<StaffNo>,
    pub asks: Asks,
}

/// A word, how its answer is printed, and whether it is done without a question. And who gives it, if it isn't the
/// member of staff whose till it is. And its drawer, and how it may use the line to the server.
#[derive(Drop)]
struct Word {
    is_json: bool,
    is_sure: bool,
    asks: Asks,
    staff: Option<StaffNo>,
    /// 0 for the book's own.
    drawer: u32,
    act: TillAct,
    way: Way,
}

/// Asks the question on `out`, and reads a line. Returns whether it is `y` or `yes`.
pub fn says_yes<W: Write>(rt: &HostRuntime, question: &str, out: &mut W) -> bool
    ensures grows { Grows (W.contents out.old) (W.contents out.new) }
{
    if !write_text(question.as_bytes(), out) {
        return false;
    }
    'lines: for line in rt.lines(rt.alloc()) {
        return match line {
            Ok(line) => line.as_str() == "y" || line.as_str() == "yes",
            Err(_) => false,
        };
    }
    false
}

/// What keeps a word from being begun.
#[derive(Drop)]
enum Unbegun {
    /// Nobody can be asked, for which this is the fault.
    Missing(TillFault),
    /// The answer wasn't yes.
    Refused,
    /// The window is to ask this.
    Asked(String),
}

/// Asks the question before a word. Returns whether the word is sure: it can be undone, or what is owed covers it, or the
/// answer was yes. If the word is sure, nothing is asked.
fn ask_consent<K: WallClock, V: Server, L: Shelf, W: Write>(
    rt: &HostRuntime,
    desk: &Desk<'_, K, V, L>,
    act: &TillAct,
    asks: Asks,
    last: Option<Moment>,
    out: &mut W,
) -> Result<bool, Unbegun>
    ensures grows { Grows (W.contents out.old) (W.contents out.new) }
{
    if desk.is_sure {
        return Ok(true);
    }
    match question(desk, act, last) {
        Ok(None) => Ok(true),
        Ok(Some(Inquiry { text, fault })) => match asks {
            Asks::Window => Err(Unbegun::Asked(text)),
            Asks::Prompt if says_yes(rt, text.as_str(), out) => Ok(true),
            Asks::Prompt => Err(Unbegun::Refused),
            Asks::Nobody if matches!(fault, TillFault::Joined(_)) => Err(Unbegun::Missing(fault)),
            Asks::Nobody => Ok(false),
        },
        Err(_) => Ok(false),
    }
}

/// Returns what a window's word resulted in that wasn't done yet: its question is printed.
fn question_outcome<W: Write>(question: &str, line: Link, out: &mut W) -> Outcome
    ensures asked { result.status ≡ 5 }
    ensures grows { Grows (W.contents out.old) (W.contents out.new) }
{
    write_text(question.as_bytes(), out);
    Outcome {
        status: ASKED,
        is_failed: false,
        line,
    }
}

/// What is printed if a question wasn't answered by yes.
pub(crate) const NOTHING: &[u8] = b"Nothing was entered.\n";

/// Prints that a word wasn't begun, since its question wasn't answered by yes.
fn left_alone<W: Write, E: Write>(line: Link, out: &mut W, err: &mut E) -> Outcome
    ensures status { result.status ≢ 0 }
    ensures shown { IsShown nothing_text 1 result.status (screen (W.contents out.old) (E.contents err.old))
        (screen (W.contents out.new) (E.contents err.new)) }
{
    Outcome {
        status: show(NOTHING, 1, out, err),
        is_failed: false,
        line,
    }
}

/// Prints the fault of a word that wasn't begun.
fn not_done<E: Write>(fault: TillFault, line: Link, err: &mut E) -> Outcome
    ensures status { result.status ≢ 0 }
    ensures shown { PrintsFault fault result.status (E.contents err.old) (E.contents err.new) }
{
    Outcome {
        status: show_fault(fault, err),
        is_failed: matches!(fault, TillFault::Book),
        line,
    }
}

/// Prints what keeps a word from being begun.
fn not_begun<W: Write, E: Write>(why: Unbegun, line: Link, out: &mut W, err: &mut E) -> Outcome
    ensures status { result.status ≢ 0 }
    ensures shown { IsNotDone result.status (screen (W.contents out.old) (E.contents err.old)) (screen (W.contents out.new)
        (E.contents err.new)) }
    ensures grows { PrintsMore (screen (W.contents out.old) (E.contents err.old)) (screen (W.contents out.new)
        (E.contents err.new)) }
{
    match why {
        Unbegun::Missing(fault) => not_done(fault, line, err),
        Unbegun::Refused => left_alone(line, out, err),
        Unbegun::Asked(question) => question_outcome(question.as_str(), line, out),
    }
}

/// Does a word with these tools at an open book, and prints what it resulted in.
fn with_tools<'x, W: Write, E: Write>(
    rt: &'x HostRuntime,
    tools: &'x Tools,
    conn: &mut Connection<FileStore<File>>,
    word: Word,
    out: &mut W,
    err: &mut E,
) -> Outcome
    requires { conn.old.in_transaction ≡ false }
    ensures ended { conn.new.in_transaction ≡ false }
    ensures clean { HasCleanDisk (file_state conn.new) → HasCleanDisk (file_state conn.old) }
    ensures attempted { HasCleanDisk (file_state conn.new)
        → IsAttempted tools.now.settings word.is_json word.staff word.act result.is_failed result.status
        (screen (W.contents out.old) (E.contents err.old)) (screen (W.contents out.new) (E.contents err.new)) conn.old conn.new }
    ensures grows { PrintsMore (screen (W.contents out.old) (E.contents err.old)) (screen (W.contents out.new)
        (E.contents err.new)) }
{
    let Word {
        is_json,
        is_sure,
        asks,
        staff,
        drawer,
        act,
        way,
    } = word;
    let server = Tcp {
        rt,
        address: tools.settings.address.as_str(),
        patience: way.patience,
    };
    let shelf = FileShelf {
        rt,
        book: tools.name.as_str(),
    };
    let sheet = read_sheet(rt.alloc(), &shelf);
    let mut desk = Desk {
        alloc: rt.alloc(),
        clock: rt,
        server: &server,
        shelf: &shelf,
        routes: &tools.routes,
        settings: &tools.settings,
        sheet: sheet.as_slice(),
        wall: wall_zone(&tools.rules, &tools.settings.zone),
        line: way.line,
        staff,
        drawer,
        is_json,
        is_sure,
        said_day: said_day(rt.alloc(), &shelf),
    };
    let asked = match ask_before(rt, &desk, conn, &act, asks == Asks::Prompt, out) {
        Ok(asked) => asked,
        Err(fault) => return not_done(fault, way.line, err),
    };
    desk.said_day = asked.said_day;
    desk.is_sure = match ask_consent(rt, &desk, &act, asks, asked.last, out) {
        Ok(is_sure) => is_sure,
        Err(why) => return not_begun(why, way.line, out, err),
    };
    let begun = rt.monotonic().unwrap_or(Duration::ZERO);
    let mut watch = Progress {
        rt,
        next: begun.saturating_add(Duration::from_secs(1)),
    };
    let least = Tcp {
        patience: Patience::Least,
        ..server
    };
    word_at(&desk, &least, conn, act, &mut watch, out, err)
}

/// Does a word at the book of that name, prints what it resulted in, and returns its status and what it showed of the
/// line. The book stays open, and is held, unless it failed.
fn at_book<W: Write, E: Write>(
    rt: &HostRuntime,
    name: &str,
    held: &mut Option<OpenBook>,
    word: Word,
    out: &mut W,
    err: &mut E,
) -> Result<Performed, TillFault>
    requires { IfSome held.old (λ book. book.conn.in_transaction ≡ false) }
    ensures ended { IfSome held.new (λ book. book.conn.in_transaction ≡ false) }
    ensures attempted { IfOk result (λ it. AtBook (IsAttemptedAt word.is_json word.staff word.act it.status
        (screen (W.contents out.old) (E.contents err.old)) (screen (W.contents out.new) (E.contents err.new))) name.now held.old
        held.new) }
    ensures closed { IfErr result (λ _. held.new ≡ None) }
    ensures silent { IfErr result (λ _. screen (W.contents out.new) (E.contents err.new) ≡ screen (W.contents out.old)
        (E.contents err.old)) }
    ensures grows { PrintsMore (screen (W.contents out.old) (E.contents err.old)) (screen (W.contents out.new)
        (E.contents err.new)) }
{
    let mut book = opened(rt, name, held)?;
    let outcome = with_tools(rt, &book.tools, &mut book.conn, word, out, err);
    let performed = Performed {
        status: outcome.status,
        line: outcome.line,
    };
    if outcome.is_failed {
        book.close();
        return Ok(performed);
    }
    *held = Some(book);
    Ok(performed)
}

/// Returns the name of the book's file: the one that is given, or `till.book`.
pub fn book_of(rt: &HostRuntime, named: &Option<FileName>) -> Result<String, TillFault>
    ensures { IfOk result (λ name. string_bytes name ≡ book_name named.now) }
{
    let name = match named {
        Some(name) => name.as_str(),
        None => BOOK,
    };
    Ok(String::from_str(rt.alloc(), name)?)
}

/// Sets the zone of the book of that name, and prints what that resulted in. Returns the status.
fn perform_zone<W: Write, E: Write>(
    rt: &HostRuntime,
    book: &str,
    zone: &ZoneText,
    held: &mut Option<OpenBook>,
    out: &mut W,
    err: &mut E,
) -> u8
    requires { IfSome held.old (λ book. book.conn.in_transaction ≡ false) }
    ensures ended { IfSome held.new (λ book. book.conn.in_transaction ≡ false) }
    ensures done { DoesZone book.now zone.now result held.old held.new }
    ensures shown { Shows (SaysDone (IsZoneText zone.now)) result (screen (W.contents out.old) (E.contents err.old))
        (screen (W.contents out.new) (E.contents err.new)) }
{
    let said = set_zone(rt, book, held, zone.as_str());
    print(said, out, err)
}

/// Returns the number of a drawer, or 0 for the book's own.
pub(crate) fn drawer_number(drawer: Option<DrawerNo>) -> u32 {
    match drawer {
        Some(drawer) => drawer.get(),
        None => 0,
    }
}

/// Does what a line of words asks for, and prints what it resulted in. Returns its status and what it showed of the line to
/// the server. A prompt in a line is answered by the words that there are.
fn perform_line<W: Write, E: Write>(
    rt: &HostRuntime,
    line: TillLine,
    given: &Words<'_>,
    held: &mut Option<OpenBook>,
    out: &mut W,
    err: &mut E,
) -> Result<Performed, TillFault>
    requires { IfSome held.old (λ book. book.conn.in_transaction ≡ false) }
    ensures ended { IfSome held.new (λ book. book.conn.in_transaction ≡ false) }
    ensures done { IfOk result (λ it. DoesLine given.now.standing.staff (sent_file given.now.stock) line it.status
        (screen (W.contents out.old) (E.contents err.old)) (screen (W.contents out.new) (E.contents err.new)) held.old
        held.new) }
    ensures stopped { IfErr result (λ _. IsNotBegun held.old held.new) }
    ensures silent { IfErr result (λ _. screen (W.contents out.new) (E.contents err.new) ≡ screen (W.contents out.old)
        (E.contents err.old)) }
    ensures grows { PrintsMore (screen (W.contents out.old) (E.contents err.old)) (screen (W.contents out.new)
        (E.contents err.new)) }
{
    let TillLine {
        book,
        is_json,
        is_sure,
        staff,
        drawer,
        act,
    } = line;
    let book = book_of(rt, &book)?;
    let (standing, way) = (given.standing, given.way);
    match act {
        TillAct::Init(beginning) => {
            close_held(held);
            let status = print(begin(rt, book.as_str(), beginning), out, err);
            Ok(Performed::at(status, way))
        }
        TillAct::Prompt if standing.asks == Asks::Window => {
            let said = greeted(rt, book.as_str(), staff.or(standing.staff), way.line);
            Ok(Performed::at(print(said, out, err), way))
        }
        TillAct::Help | TillAct::Prompt => Ok(Performed::at(print(help(rt), out, err), way)),
        TillAct::Zone(zone) => {
            let status = perform_zone(rt, book.as_str(), &zone, held, out, err);
            Ok(Performed::at(status, way))
        }
        act => {
            let act = completed(rt, given.stock, book.as_str(), act)?;
            let word = Word {
                is_json,
                is_sure,
                asks: if is_json { Asks::Nobody } else { standing.asks },
                staff: staff.or(standing.staff),
                drawer: drawer_number(drawer),
                act,
                way,
            };
            at_book(rt, book.as_str(), held, word, out, err)
        }
    }
}

/// Returns what a prompt says first.
fn greeted(
    rt: &HostRuntime,
    book: &str,
    staff: Option<StaffNo>,
    line: Link,
) -> Result<Said, TillFault>
    ensures { IfOk result (λ said. IsGreeting (string_bytes said.text) × (said.status ≡ 0)) }
{
    let line = greeting(rt, book, staff, line)?;
    let mut said = Said::done(rt.alloc());
    said.line(line.as_str())?;
    Ok(said)
}

/// Returns the words that there are.
fn help(rt: &HostRuntime) -> Result<Said, TillFault>
    ensures { IfOk result (λ said. IsHelp (string_bytes said.text) × (said.status ≡ 0)) }
{
    let mut text = help_text(rt.alloc())?;
    text.push_str(
        "\nAt the prompt, staff N or staff NAME changes who stands there, and exit or quit ends it.\nMany windows at one book: desk --help.\n",
    )?;
    Ok(Said { text, status: 0 })
}

/// Says how words are to be given. If they ask for that by `--help`, it is what they wanted.
fn usage(rt: &HostRuntime, words: &[String], text: &str) -> Result<Said, TillFault>
    ensures { IfOk result (λ said. (said.status ≡ 0) ⊎ (said.status ≡ 2)) }
{
    let mut said = Said::done(rt.alloc());
    said.line(text.trim_end())?;
    if !asks_for_help(rt.alloc(), words)? {
        said.status = 2;
    }
    Ok(said)
}

/// Words, and who stands where they are said. And where the stock file is that they may name, and how they may use the line
/// to the server.
#[derive(Clone, Copy)]
pub struct Words<'w> {
    pub words: &'w [String],
    pub standing: Station,
    pub stock: Stock<'w>,
    pub way: Way,
}

/// The status of words, and what is known of the line to the server after them.
#[derive(Clone, Copy, Debug)]
pub struct Performed {
    pub status: u8,
    pub line: Link,
}

impl Performed {
    /// Words with that status, which showed nothing of the line.
    fn at(status: u8, way: Way) -> Performed
        ensures { result.status ≡ status }
    {
        Performed {
            status,
            line: way.line,
        }
    }
}

/// Does what a line of words asks for, or prints what keeps the till from it.
fn perform_known<W: Write, E: Write>(
    rt: &HostRuntime,
    line: TillLine,
    given: &Words<'_>,
    held: &mut Option<OpenBook>,
    out: &mut W,
    err: &mut E,
) -> Performed
    requires { IfSome held.old (λ book. book.conn.in_transaction ≡ false) }
    ensures ended { IfSome held.new (λ book. book.conn.in_transaction ≡ false) }
    ensures done { DoesLine given.now.standing.staff (sent_file given.now.stock) line result.status
        (screen (W.contents out.old) (E.contents err.old)) (screen (W.contents out.new) (E.contents err.new)) held.old held.new
        ⊎ IsNotDoneAt result.status (screen (W.contents out.old) (E.contents err.old))
        (screen (W.contents out.new) (E.contents err.new)) held.old held.new }
    ensures grows { PrintsMore (screen (W.contents out.old) (E.contents err.old)) (screen (W.contents out.new)
        (E.contents err.new)) }
{
    match perform_line(rt, line, given, held, out, err) {
        Ok(performed) => performed,
        Err(fault) => Performed::at(show_fault(fault, err), given.way),
    }
}

/// Does what words ask for that don't begin a prompt, and returns the status and what is known of the line after them.
/// The book that is held is closed if another is named. The book of the words is held after them, unless it failed.
pub fn perform_words<W: Write, E: Write>(
    rt: &HostRuntime,
    given: &Words<'_>,
    held: &mut Option<OpenBook>,
    out: &mut W,
    err: &mut E,
) -> Performed
    requires { IfSome held.old (λ book. book.conn.in_transaction ≡ false) }
    ensures ended { IfSome held.new (λ book. book.conn.in_transaction ≡ false) }
    ensures done { DoesWords (map string_bytes given.now.words.now) given.now.standing.staff (sent_file given.now.stock)
        result.status (screen (W.contents out.old) (E.contents err.old)) (screen (W.contents out.new) (E.contents err.new))
        held.old held.new }
    ensures grows { PrintsMore (screen (W.contents out.old) (E.contents err.old)) (screen (W.contents out.new)
        (E.contents err.new)) }
{
    let way = given.way;
    match read_till_words(rt.alloc(), given.words) {
        Ok(line) => perform_known(rt, line, given, held, out, err),
        Err(Usage::Words(text)) => {
            let said = usage(rt, given.words, text.as_str());
            Performed::at(print(said, out, err), way)
        }
        Err(Usage::Memory) => Performed::at(show_fault(TillFault::Memory, err), way),
    }
}

/// Opens the book for words that don't begin a prompt, does what they ask for, and closes it.
fn perform_once<W: Write, E: Write>(
    rt: &HostRuntime,
    words: &[String],
    out: &mut W,
    err: &mut E,
) -> u8
    ensures { PerformsOnce (map string_bytes words.now) result (screen (W.contents out.old) (E.contents err.old))
        (screen (W.contents out.new) (E.contents err.new)) }
{
    let mut held = None;
    let given = Words {
        words,
        standing: Station {
            staff: None,
            asks: Asks::Nobody,
        },
        stock: Stock::Named,
        way: Way::open(),
    };
    let performed = perform_words(rt, &given, &mut held, out, err);
    close_held(&mut held);
    performed.status
}

/// Tests whether the words ask for a prompt.
pub(crate) fn asks_for_prompt(alloc: Global, words: &[String]) -> bool
    ensures { result ≡ true → AsksForPrompt (map string_bytes words.now) }
{
    match read_till_words(alloc, words) {
        Ok(line) => matches!(line.act, TillAct::Prompt),
        Err(_) => false,
    }
}

/// Does words at a till with a book of its own. It prints on `out` what a word resulted in, and on
/// `err` why it was refused or not done. Returns the status: 0 done, 1 refused, 2 usage, 3 a fault of the till's own, 4
/// not answered yet, but in the book. Without a word it reads lines of words from standard input.
pub(crate) fn run_till<W: Write, E: Write>(
    rt: &HostRuntime,
    words: &[String],
    out: &mut W,
    err: &mut E,
) -> u8
    ensures { RunsTill (map string_bytes words.now) result (screen (W.contents out.old) (E.contents err.old))
        (screen (W.contents out.new) (E.contents err.new)) }
{
    if !asks_for_prompt(rt.alloc(), words) {
        return perform_once(rt, words, out, err);
    }
    match prompt(rt, words, out, err) {
        Ok(status) => status,
        Err(fault) => show_fault(fault, err),
    }
}
