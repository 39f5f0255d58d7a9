//! Reads the lists of consignments row by row, outside any transaction. Neighbouring rows of one join belong to one
//! consignment, and a first line begins the next consignment.

ghost use Rattle.std.specs.Prelude.{⊤, ◌≡◌, List, [], ◌∷◌, ◌++◌, Option, Some, IfOk, OnOk, map, option_map, string_bytes};
ghost use Rattle.serde_json.specs.View.{view};
ghost use Rattle.sqlite.specs.Held.{state};
ghost use Rattle.sqlite.specs.State.{HasCleanDisk};
ghost use Rattle.sql_rows.specs.Calls.{StaysSame};
ghost use Rattle.sql_rows.specs.Causes.{FailsAtRest};
ghost use Rattle.shop_model.specs.Json.{array};
ghost use Rattle.shop_model.specs.Values.{Text};
ghost use Rattle.shop_model.specs.Books.{Books, shop_of};
ghost use Rattle.shop_model.specs.Machine.{ArrivalsAre, SentAre, TransitIs};
ghost use Rattle.shop_model.specs.Answers.{shown_text};
ghost use Rattle.shop_schema.specs.Shop.{Holds};
ghost use Rattle.shop_schema.specs.Asked.{HoldsBooks};
ghost use Rattle.shop_schema.specs.Held.{IsHeld};
ghost use Rattle.shop_views.specs.Consignments.{Listed, seen_listed};
ghost use Rattle.shop_views.specs.Lists.{IsRow};
ghost use Rattle.shop_views.specs.Page.{HasTexts};
ghost use Rattle.shop_store.specs.Asked.{IsNoneOf};
ghost use Rattle.consign_store.specs.Listed.{under_way, ListLine, IsListLine, shown_line, read_columns, is_first, films_of, begun, with_film, take_line, closed, data_of, text_of, HasConsignments};

use serde_json::Value;
use shop_schema::read_cells;
use shop_types::{BranchNo, ConsignmentNo, FilmNo, LineNo};
use shop_views::{ListPage, ListedConsignment, arrival_row, sent_row, transit_row};
use sql_rows::{StoreFault, Stored, TakesRows, each_row};
use sqlite::types::ToSql;
use sqlite::{Alter, Connection, Row};
use std::alloc::{AllocError, Global};

/// The kind of list of consignments.
#[derive(Clone, Copy)]
pub(crate) enum ListKind {
    Arrivals,
    Sent,
    Transit,
}

/// The columns of the lists' join.
type ListCells = (
    BranchNo,
    (
        BranchNo,
        (
            ConsignmentNo,
            (bool, (Option<LineNo>, (Option<FilmNo>, ()))),
        ),
    ),
);

/// A consignment with one of its lines, or with no line, as the join shows them.
#[derive(Drop)]
pub(crate) struct ListedLine {
    source: BranchNo,
    addressee: BranchNo,
    number: ConsignmentNo,
    received: bool,
    line: Option<LineNo>,
    film: Option<FilmNo>,
}

impl Stored for ListedLine {
    ghost columns = { read_columns };

    ghost fits = { λ _. ⊤ };

    ghost refuses = { IsNoneOf IsListLine shown_line };

    fn read(row: &Row) -> Result<ListedLine, StoreFault> {
        let cells = match read_cells::<ListCells>(row) {
            Ok(cells) => cells,
            Err(fault) => return Err(fault),
        };
        let (source, (addressee, (number, (received, (line, (film, ())))))) = cells;
        Ok(ListedLine {
            source,
            addressee,
            number,
            received,
            line,
            film,
        })
    }
}

/// Returns whether the row begins a consignment, which is so if the row has the first line or no line.
fn is_first(row: &ListedLine) -> bool
    ensures { (line : ListLine) → read_columns row.now ≡ shown_line line → result ≡ is_first line.1 }
{
    match row.line {
        Some(number) => number.get() == 1,
        None => true,
    }
}

/// Makes the consignment of the row, with no film.
fn bare(alloc: Global, row: &ListedLine) -> ListedConsignment
    ensures bare { (line : ListLine) → read_columns row.now ≡ shown_line line
        → record (seen_listed result) { films = films_of line.1 } ≡ begun line }
    ensures none { result.films.items ≡ [] }
{
    ListedConsignment {
        source: row.source,
        addressee: row.addressee,
        number: row.number,
        received: row.received,
        films: Vec::new(alloc),
    }
}

/// Adds the row's film to the consignment.
fn with_film(it: ListedConsignment, row: &ListedLine) -> Result<ListedConsignment, AllocError>
    ensures { IfOk result (λ now. (line : ListLine) → read_columns row.now ≡ shown_line line
        → seen_listed now ≡ with_film (seen_listed it) line.1) }
{
    let mut it = it;
    if let Some(film) = row.film {
        it.films.push(film)?;
    }
    Ok(it)
}

/// Makes the list's entry for the consignment.
fn value_of(alloc: Global, kind: ListKind, it: &ListedConsignment) -> Result<Value, AllocError>
    ensures { IfOk result (λ v. IsRow (data_of kind) (text_of kind) (seen_listed it.now) (view v)) }
{
    match kind {
        ListKind::Arrivals => arrival_row(alloc, it),
        ListKind::Sent => sent_row(alloc, it),
        ListKind::Transit => transit_row(alloc, it),
    }
}

/// Puts the consignment at the end of the page.
fn add(
    alloc: Global,
    kind: ListKind,
    it: ListedConsignment,
    page: &mut ListPage,
) -> Result<(), AllocError>
    ensures { OnOk result ((texts : List Text) → HasTexts page.old texts
        → HasTexts page.new (texts ++ text_of kind (seen_listed it) ∷ [])) }
{
    let value = value_of(alloc, kind, &it)?;
    page.add(&value)
}

/// Returns the consignment of the row with the row's film. If the row begins another consignment, the consignment of
/// the rows before is put on the page.
fn next(
    alloc: Global,
    kind: ListKind,
    it: Option<ListedConsignment>,
    row: &ListedLine,
    page: &mut ListPage,
) -> Result<ListedConsignment, AllocError>
    ensures { IfOk result (λ now. (line : ListLine) (done : List Listed) → read_columns row.now ≡ shown_line line
        → HasTexts page.old (map (text_of kind) done)
        → HasTexts page.new (map (text_of kind) (take_line (done, option_map seen_listed it) line).0)
        × (Some (seen_listed now) ≡ (take_line (done, option_map seen_listed it) line).1)) }
{
    let Some(it) = it else {
        return with_film(bare(alloc, row), row);
    };
    if is_first(row) {
        add(alloc, kind, it, page)?;
        with_film(bare(alloc, row), row)
    } else {
        with_film(it, row)
    }
}

/// The list of consignments so far, and the consignment that isn't on it yet.
#[derive(Drop)]
pub(crate) struct ConsignmentPage {
    page: ListPage,
    alloc: Global,
    kind: ListKind,
    consignment: Option<ListedConsignment>,
}

impl TakesRows for ConsignmentPage {
    ghost took = { HasConsignments };

    ghost refuses = { λ _. IsNoneOf IsListLine shown_line };

    fn take(&mut self, row: &Row) -> Result<(), StoreFault> {
        let line = match ListedLine::read(row) {
            Ok(line) => line,
            Err(fault) => return Err(fault),
        };
        let it = self.consignment.take();
        self.consignment = Some(next(self.alloc, self.kind, it, &line, &mut self.page)?);
        Ok(())
    }
}

/// Returns the text of the list with the last consignment.
fn finish(taker: ConsignmentPage) -> Result<String, AllocError>
    ensures { IfOk result (λ s. (done : List Listed) → HasTexts taker.page (map (text_of taker.kind) done)
        → string_bytes s ≡ array (map (text_of taker.kind) (closed (done, option_map seen_listed taker.consignment)))) }
{
    let ConsignmentPage {
        mut page,
        alloc,
        kind,
        consignment,
    } = taker;
    match consignment {
        Some(it) => {
            add(alloc, kind, it, &mut page)?;
            page.finish()
        }
        None => page.finish(),
    }
}

/// Makes a page of the kind with no consignment.
fn empty(alloc: Global, kind: ListKind) -> ConsignmentPage
    ensures { (result.kind ≡ kind) × HasConsignments result result [] }
{
    ConsignmentPage {
        page: ListPage::new(alloc),
        alloc,
        kind,
        consignment: None,
    }
}

const SELECT_ARRIVALS: &str =
    "SELECT c.source, c.addressee, c.number, c.received, l.line, l.film FROM consignment AS c LEFT JOIN consignment_line AS l ON l.source = c.source AND l.addressee = c.addressee AND l.number = c.number WHERE c.addressee = ?1 ORDER BY c.place, l.line";

/// Returns the arrivals of the branch in the order of their dispatch, received ones too, as the text of a list. The
/// database stays as it was, unless the store fails, which commits nothing.
pub fn arrivals<S: Alter>(
    alloc: Global,
    conn: &mut Connection<S>,
    branch: BranchNo,
) -> Result<String, StoreFault>
    ensures text { HasCleanDisk (state S.Store conn.new)
        → IfOk result (λ s. (books : Books) → Holds (state S.Store conn.old) books → IsHeld books → string_bytes s
        ≡ shown_text (ArrivalsAre (shop_of branch books).arrivals)) }
    ensures fails { FailsAtRest S.Store conn.old conn.new result HoldsBooks }
    ensures same { StaysSame S.Store conn.old conn.new result }
{
    let mut taker = empty(alloc, ListKind::Arrivals);
    if let Err(fault) = each_row(conn, SELECT_ARRIVALS, &[branch.get().to_sql()], &mut taker) {
        return Err(fault);
    }
    Ok(finish(taker)?)
}

const SELECT_SENT: &str =
    "SELECT c.source, c.addressee, c.number, c.received, l.line, l.film FROM consignment AS c LEFT JOIN consignment_line AS l ON l.source = c.source AND l.addressee = c.addressee AND l.number = c.number WHERE c.source = ?1 ORDER BY c.place, l.line";

/// Returns what the branch sent, in the order of dispatch, as the text of a list. The database stays as it was, unless
/// the store fails, which commits nothing.
pub fn sent<S: Alter>(
    alloc: Global,
    conn: &mut Connection<S>,
    branch: BranchNo,
) -> Result<String, StoreFault>
    ensures text { HasCleanDisk (state S.Store conn.new)
        → IfOk result (λ s. (books : Books) → Holds (state S.Store conn.old) books → IsHeld books → string_bytes s
        ≡ shown_text (SentAre (shop_of branch books).sent)) }
    ensures fails { FailsAtRest S.Store conn.old conn.new result HoldsBooks }
    ensures same { StaysSame S.Store conn.old conn.new result }
{
    let mut taker = empty(alloc, ListKind::Sent);
    if let Err(fault) = each_row(conn, SELECT_SENT, &[branch.get().to_sql()], &mut taker) {
        return Err(fault);
    }
    Ok(finish(taker)?)
}

const SELECT_TRANSIT: &str =
    "SELECT c.source, c.addressee, c.number, c.received, l.line, l.film FROM consignment AS c LEFT JOIN consignment_line AS l ON l.source = c.source AND l.addressee = c.addressee AND l.number = c.number WHERE c.received = 0 ORDER BY c.source, c.addressee, c.number, l.line";

/// Returns all consignments of the chain that aren't received, by sender, addressee and number, as the text of a list.
/// The database stays as it was, unless the store fails, which commits nothing.
pub fn transit<S: Alter>(alloc: Global, conn: &mut Connection<S>) -> Result<String, StoreFault>
    ensures text { HasCleanDisk (state S.Store conn.new)
        → IfOk result (λ s. (books : Books) → Holds (state S.Store conn.old) books → IsHeld books → string_bytes s
        ≡ shown_text (TransitIs (under_way books))) }
    ensures fails { FailsAtRest S.Store conn.old conn.new result HoldsBooks }
    ensures same { StaysSame S.Store conn.old conn.new result }
{
    let mut taker = empty(alloc, ListKind::Transit);
    if let Err(fault) = each_row(conn, SELECT_TRANSIT, &[], &mut taker) {
        return Err(fault);
    }
    Ok(finish(taker)?)
}
