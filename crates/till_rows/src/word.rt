//! Types a word at an open book, and takes what is printed.
ghost use Rattle.std.specs.Prelude.{◌≡◌, false};

use crate::book::NO_BOOK;
use crate::kit::Kit;
use crate::line::{Counter, WireEnd};
use crate::shelf::{Board, Hands};
use crate::world::World;
use row_player::{Fault, Texts};
use shop_types::{Act, LotName, NewCustomer, Person, StaffNo, StockFile};
use sqlite::{Alter, Connection};
use std::alloc::Global;
use till_cashier::{
    Desk, Quiet, Said, TillFault, accept_zone, city_on_sheet, do_word, fault_line, make_sure,
    read_sheet, said_day, zone_said,
};
use till_requests::Zone;
use till_words::{PersonIn, TillAct, TillLine, read_till_words, split_line};

/// The stock file that is imported, whatever name is typed.
const STOCK: &[u8] = b"film_id,copies\n1,3\n2,1\n";

/// Returns the import of the stock file as a lot of that name.
fn import(alloc: Global, lot: LotName) -> Result<TillAct, Fault> {
    match StockFile::new(Vec::from_slice(alloc, STOCK)?) {
        Some(file) => Ok(TillAct::Do(Act::Import { lot, file })),
        None => Err(Fault::Line("the stock file is too large")),
    }
}

/// Returns the act of who joins in a city that the sheet names.
fn join_in(alloc: Global, sheet: &[u8], who: PersonIn) -> Result<TillAct, Fault> {
    let Ok(city) = city_on_sheet(alloc, sheet, who.city.as_str()) else {
        return Err(Fault::Line("the sheet has no city of that name"));
    };
    let person = Person {
        first: who.first,
        last: who.last,
        address: who.address,
        postal: who.postal,
        phone: who.phone,
        city,
    };
    Ok(TillAct::Do(Act::Customer(NewCustomer { person })))
}

/// Replaces the name of the stock file by the file, if the act is an import, and a city's name by its number.
fn completed(alloc: Global, act: TillAct, sheet: &[u8]) -> Result<TillAct, Fault> {
    match act {
        TillAct::JoinIn(who) => join_in(alloc, sheet, who),
        TillAct::Import { file, lot } => {
            drop(file);
            import(alloc, lot)
        }
        other => Ok(other),
    }
}

/// Splits a line into the words that are typed.
fn words_in(alloc: Global, line: &str) -> Result<Vec<String>, Fault> {
    match split_line(alloc, line) {
        Ok(words) => Ok(words),
        Err(_) => Err(Fault::Line("the words aren't parted")),
    }
}

/// Reads what the words ask for.
fn read(alloc: Global, line: &str) -> Result<TillLine, Fault> {
    let words = words_in(alloc, line)?;
    let read = read_till_words(alloc, words.as_slice());
    drop(words);
    match read {
        Ok(line) => Ok(line),
        Err(usage) => {
            drop(usage);
            Err(Fault::Line("these are no words of a till"))
        }
    }
}

/// Who types words, and where.
#[derive(Clone, Copy)]
pub enum Typist {
    /// The member of staff whose till it is, at the book. Each word tries the line to the server.
    Till,
    /// A member of staff at a window of the desk that holds the book. While the line is known to be down, no word but
    /// `send` tries it.
    Window(StaffNo),
}

/// Returns the window of the member of staff with that number, or none if that is no number of staff.
pub fn window_of(number: &str) -> Option<Typist> {
    match StaffNo::read(number.as_bytes()) {
        Some(staff) => Some(Typist::Window(staff)),
        None => None,
    }
}

/// A word as it is done.
#[derive(Drop)]
struct Typed {
    act: TillAct,
    /// Who gives it, if that isn't the member of staff whose till it is.
    staff: Option<StaffNo>,
    /// The drawer, or 0 for the book's own.
    drawer: u32,
    /// Whether what can't be undone is to be done.
    is_sure: bool,
    /// What is known of the line to the server.
    line: till_cashier::Link,
    /// The number of the till's zone.
    zone: usize,
}

/// Returns the number of the zone in which a word is done: the one that the word sets, or else the till's.
fn zone_in<C: Counter>(world: &World, kit: &Kit<C>, act: &TillAct) -> Result<usize, Fault> {
    if let TillAct::Zone(name) = act {
        return world.zones.number_of(name.as_str());
    }
    Ok(kit.zone.get())
}

/// Returns what the words ask for, with the stock file instead of its name.
fn read_input<C: Counter>(
    alloc: Global,
    world: &World,
    kit: &Kit<C>,
    typist: Typist,
    words: &str,
    sheet: &[u8],
) -> Result<Typed, Fault> {
    let TillLine {
        book,
        staff,
        drawer,
        act,
        is_sure,
        ..
    } = read(alloc, words)?;
    drop(book);
    let (own, line) = match typist {
        Typist::Till => (None, till_cashier::Link::Open),
        Typist::Window(staff) => (Some(staff), kit.line.get()),
    };
    let zone = zone_in(world, kit, &act)?;
    let drawer = match drawer {
        Some(drawer) => drawer.get(),
        None => 0,
    };
    let act = completed(alloc, act, sheet)?;
    Ok(Typed {
        act,
        staff: staff.or(own),
        drawer,
        is_sure,
        line,
        zone,
    })
}

/// Sets the zone of the desk's settings for the book, which had that zone before.
fn set_zone<S: Alter, C: Counter>(
    desk: &Desk<'_, Hands, WireEnd<'_, C>, Board>,
    conn: &mut Connection<S>,
    before: &Option<Zone>,
) -> Result<Said, TillFault>
    requires { conn.old.in_transaction ≡ false }
{
    accept_zone(desk, conn, before)?;
    zone_said(desk.alloc, desk.settings)
}

/// Does a word at an open book that had that zone before, and then settles refused entries with `make_sure`, as the
/// program does.
fn done<S: Alter, C: Counter>(
    desk: &Desk<'_, Hands, WireEnd<'_, C>, Board>,
    conn: &mut Connection<S>,
    act: TillAct,
    before: &Option<Zone>,
) -> Result<Said, TillFault>
    requires { conn.old.in_transaction ≡ false }
{
    if matches!(act, TillAct::Zone(_)) {
        return set_zone(desk, conn, before);
    }
    let mut said = do_word(desk, conn, act, &mut Quiet)?;
    if said.status == 0 {
        if let Err(TillFault::Book) = make_sure(desk, conn, &mut said) {
            return Err(TillFault::Book);
        }
    }
    Ok(said)
}

/// Notes what a word showed of the line to the server, as the program does.
fn note<C: Counter>(kit: &Kit<C>, is_send: bool, said: &Result<Said, TillFault>) {
    match said {
        Ok(_) if is_send => kit.line.set(till_cashier::Link::Open),
        Err(fault) if fault.is_unanswered() => kit.line.set(till_cashier::Link::Down),
        Ok(_) | Err(_) => {}
    }
}

/// Puts the fault of a word into `told`, as it is printed.
fn tell_fault(alloc: Global, fault: TillFault, told: &mut Texts) -> Result<(), Fault> {
    match fault_line(alloc, fault) {
        Ok(line) => {
            told.printed(fault.status(), line.as_str());
            Ok(())
        }
        Err(_) => Err(Fault::Line("no memory")),
    }
}

/// Puts what a word prints into `told`. Returns false if the book's disk has failed.
fn tell(alloc: Global, said: Result<Said, TillFault>, told: &mut Texts) -> Result<bool, Fault> {
    match said {
        Ok(said) => told.printed(said.status, said.text.as_str()),
        Err(TillFault::Book) => return Ok(false),
        Err(fault) => tell_fault(alloc, fault, told)?,
    }
    Ok(true)
}

/// Does a word at a desk in its zone, and puts what is printed into `told`. A zone that is accepted is the till's from
/// then on. Returns false if the book's disk has failed.
fn at_desk<'d, 'x, S: Alter, C: Counter>(
    alloc: Global,
    world: &'d World,
    kit: &'d Kit<C>,
    server: &'d WireEnd<'x, C>,
    sheet: &'d [u8],
    conn: &mut Connection<S>,
    typed: Typed,
    told: &mut Texts,
) -> Result<bool, Fault>
    requires { conn.old.in_transaction ≡ false }
{
    let Typed {
        act,
        staff,
        drawer,
        is_sure,
        line,
        zone,
    } = typed;
    let till = world.zones.at(zone)?;
    let desk = Desk {
        alloc,
        clock: &kit.clock,
        server,
        shelf: &kit.shelf,
        routes: &world.routes,
        settings: till.settings(),
        sheet,
        wall: till.wall(),
        line,
        staff,
        drawer,
        is_json: false,
        is_sure,
        said_day: said_day(alloc, &kit.shelf),
    };
    let is_send = matches!(act, TillAct::Send);
    let before = world.zones.at(kit.zone.get())?;
    let said = done(&desk, conn, act, &before.settings().zone);
    note(kit, is_send, &said);
    if said.is_ok() {
        kit.zone.set(zone);
    }
    tell(alloc, said, told)
}

/// Types words at a till's book, and puts what is printed into `told`. Returns false if the book's disk has failed.
pub fn type_at<'x, S: Alter, C: Counter>(
    alloc: Global,
    world: &'x World,
    kit: &'x Kit<C>,
    conn: &mut Connection<S>,
    typist: Typist,
    words: &str,
    told: &mut Texts,
) -> Result<bool, Fault> {
    if !conn.is_autocommit() {
        return Err(NO_BOOK);
    }
    let sheet = read_sheet(alloc, &kit.shelf);
    let typed = read_input(alloc, world, kit, typist, words, sheet.as_slice())?;
    let server = WireEnd { wire: &kit.wire };
    at_desk(
        alloc,
        &*world,
        &*kit,
        &server,
        sheet.as_slice(),
        conn,
        typed,
        told,
    )
}
