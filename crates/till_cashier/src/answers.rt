//! What an answer says, as lines: nothing is asked for here.

ghost use Rattle.std.specs.Prelude.{◌≡◌, ◌==◌, ◌++◌, Some, IfOk, OnOk, if◌then◌else◌, option_map, string_bytes};
ghost use Rattle.shop_types.specs.Seen.{seen_act, seen_ask, seen_view};
ghost use Rattle.till_client.specs.Replies.{seen_answer};
ghost use Rattle.till_shows.specs.Looks.{holder_text};
ghost use Rattle.till_shows.specs.Refusals.{refusal_text};
ghost use Rattle.till_cashier.specs.Looking.{Adds, IsLines, ShowsByCategory, ShowsInAll, ShowsList, ShowsSales, lines_in, list_in, name_end, table_or};
ghost use Rattle.till_cashier.specs.Saying.{AddsAll, SaysOfficeAnswer, SaysOutcome, end_text, ended, status_of};

use crate::fault::TillFault;
use crate::said::Said;
use crate::sheet::Rented;
use shop_types::{Act, Ask, CopyNo, CustomerNo, Refusal, View};
use std::alloc::Global;
use till_client::Answer;
use till_shows::{
    NotShown, Table, arrivals, balance_line, film_in_stock_line, film_not_in_stock_line,
    film_sheet, holder_line, in_stock_line, money, overdue, refusal_in, refusal_sentences,
    reply_line, rewards_line, sales_by_film_category, sales_by_store, sent,
};

/// Says what a refusal means.
fn says_refusal(alloc: Global, refusal: Refusal, said: &mut Said) -> Result<(), TillFault>
    ensures said { OnOk result (string_bytes said.new.text
        ≡ string_bytes said.old.text ++ ended (refusal_text refusal)) }
    ensures status { said.new.status ≡ said.old.status }
{
    let text = refusal_sentences(alloc, refusal)?;
    said.line(text.as_str())?;
    Ok(())
}

/// Sets the status to 1, unless the server did what was asked for.
fn set_status(status: u16, said: &mut Said)
    ensures text { said.new.text ≡ said.old.text }
    ensures status { said.new.status ≡ (if status == 200 then said.old.status else 1) }
{
    if status != 200 {
        said.status = 1;
    }
}

/// Says a refusal, or with `--json` the body as it is. Returns whether it said so: then there is nothing more to say.
/// The status is 1, unless the server did what was asked for.
pub(crate) fn says_all(
    alloc: Global,
    is_json: bool,
    answer: &Answer,
    said: &mut Said,
) -> Result<bool, TillFault>
    ensures said { IfOk result (λ is_whole. AddsAll is_json (seen_answer answer.now) is_whole
        (string_bytes said.old.text) (string_bytes said.new.text)) }
    ensures status { said.new.status ≡ (if answer.now.status == 200 then said.old.status else 1) }
{
    let body = answer.body.as_slice();
    set_status(answer.status, said);
    if is_json {
        says_body(body, said)?;
        return Ok(true);
    }
    match refusal_in(answer.status, body) {
        Some(refusal) => {
            says_refusal(alloc, refusal, said)?;
            Ok(true)
        }
        None => Ok(false),
    }
}

/// Says a body as it is.
pub(crate) fn says_body(body: &[u8], said: &mut Said) -> Result<(), TillFault>
    ensures said { OnOk result (string_bytes said.new.text ≡ string_bytes said.old.text ++ ended body.now) }
    ensures status { said.new.status ≡ said.old.status }
{
    match std::str::from_utf8(body) {
        Ok(text) => Ok(said.line(text)?),
        Err(_) => Err(TillFault::Foreign),
    }
}

/// Says a table, or that nothing is in it.
pub(crate) fn says_table(
    alloc: Global,
    table: &Table,
    none: &str,
    said: &mut Said,
) -> Result<(), TillFault>
    ensures said { OnOk result (string_bytes said.new.text
        ≡ string_bytes said.old.text ++ table_or none.now table.now) }
    ensures status { said.new.status ≡ said.old.status }
{
    if table.is_empty() {
        said.line(none)?;
    } else {
        said.text.push_str(table.text(alloc)?.as_str())?;
    }
    Ok(())
}

/// Returns the table of a body that lists what was asked for.
fn table_in(alloc: Global, ask: &Ask, body: &[u8]) -> Result<Table, NotShown>
    ensures { IfOk result (λ table. list_in (seen_ask ask.now) body.now ≡ Some table) }
{
    match ask {
        Ask::Overdue(_) => overdue(alloc, body),
        Ask::Arrivals => arrivals(alloc, body),
        Ask::Sent => sent(alloc, body),
        Ask::Customer(_) | Ask::Film(_) | Ask::InStock(_) | Ask::HeldBy(_) => {
            Err(NotShown::OtherForm)
        }
        Ask::FilmInStock(_) | Ask::FilmNotInStock(_) => Err(NotShown::OtherForm),
        Ask::Balance { .. } | Ask::Rewards { .. } => Err(NotShown::OtherForm),
    }
}

/// Says that table, or that nothing is in it.
pub(crate) fn says_list(
    alloc: Global,
    ask: &Ask,
    body: &[u8],
    none: &str,
    said: &mut Said,
) -> Result<(), TillFault>
    ensures said { OnOk result (Adds (ShowsList (seen_ask ask.now) none.now body.now) (string_bytes said.old.text)
        (string_bytes said.new.text)) }
    ensures status { said.new.status ≡ said.old.status }
{
    let table = table_in(alloc, ask, body)?;
    says_table(alloc, &table, none, said)
}

/// Returns the lines of a body that reports one thing. `name` is the customer's, if a balance was asked for.
fn lines_in(alloc: Global, ask: &Ask, name: &str, body: &[u8]) -> Result<String, NotShown>
    ensures { IfOk result (λ lines. lines_in (seen_ask ask.now) name.now body.now ≡ Some (string_bytes lines)) }
{
    match ask {
        Ask::Film(_) => film_sheet(alloc, body),
        Ask::InStock(copy) => in_stock_line(alloc, *copy, body),
        Ask::FilmInStock(film) => film_in_stock_line(alloc, *film, body),
        Ask::FilmNotInStock(film) => film_not_in_stock_line(alloc, *film, body),
        Ask::Balance { .. } => balance_line(alloc, name, body),
        Ask::Rewards { .. } => rewards_line(alloc, body),
        Ask::Customer(_) | Ask::HeldBy(_) | Ask::Overdue(_) => Err(NotShown::OtherForm),
        Ask::Arrivals | Ask::Sent => Err(NotShown::OtherForm),
    }
}

/// Says them.
pub(crate) fn says_lines(
    alloc: Global,
    ask: &Ask,
    name: &str,
    body: &[u8],
    said: &mut Said,
) -> Result<(), TillFault>
    ensures said { OnOk result (Adds (IsLines (seen_ask ask.now) name.now body.now) (string_bytes said.old.text)
        (string_bytes said.new.text)) }
    ensures status { said.new.status ≡ said.old.status }
{
    let lines = lines_in(alloc, ask, name, body)?;
    said.line(lines.as_str())?;
    Ok(())
}

/// Says who has a copy, with the name, where it is known.
pub(crate) fn says_holder(
    alloc: Global,
    copy: CopyNo,
    who: Option<CustomerNo>,
    name: &Option<String>,
    said: &mut Said,
) -> Result<(), TillFault>
    ensures said { OnOk result (string_bytes said.new.text ≡ string_bytes said.old.text
        ++ ended (holder_text copy who ++ name_end (option_map string_bytes name.now))) }
    ensures status { said.new.status ≡ said.old.status }
{
    let mut line = holder_line(alloc, copy, who)?;
    if let Some(name) = name {
        line.push_str(": ")?;
        line.push_str(name.as_str())?;
    }
    said.line(line.as_str())?;
    Ok(())
}

/// Says what customers paid for rentals, in all.
fn says_sales_in_all(alloc: Global, body: &[u8], said: &mut Said) -> Result<(), TillFault>
    ensures said { OnOk result (Adds (ShowsInAll body.now) (string_bytes said.old.text) (string_bytes said.new.text)) }
    ensures status { said.new.status ≡ said.old.status }
{
    let table = sales_by_store(alloc, body)?;
    if !table.is_empty() {
        said.line("What was paid for rentals, of all time:")?;
    }
    says_table(alloc, &table, "nothing was paid for a rental yet", said)
}

/// Says what customers paid for rentals, by category.
fn says_sales_by_category(alloc: Global, body: &[u8], said: &mut Said) -> Result<(), TillFault>
    ensures said { OnOk result (Adds (ShowsByCategory body.now) (string_bytes said.old.text)
        (string_bytes said.new.text)) }
    ensures status { said.new.status ≡ said.old.status }
{
    let table = sales_by_film_category(alloc, body)?;
    if table.is_empty() {
        return Ok(());
    }
    said.line("")?;
    says_table(alloc, &table, "", said)
}

/// Says what customers paid for rentals, in all or by category. Fails with `Foreign` for any other view.
pub(crate) fn says_sales(
    alloc: Global,
    view: View,
    body: &[u8],
    said: &mut Said,
) -> Result<(), TillFault>
    ensures said { OnOk result (Adds (ShowsSales (seen_view view) body.now) (string_bytes said.old.text)
        (string_bytes said.new.text)) }
    ensures status { said.new.status ≡ said.old.status }
{
    match view {
        View::SalesByStore => says_sales_in_all(alloc, body, said),
        View::SalesByFilmCategory => says_sales_by_category(alloc, body, said),
        View::CustomerList | View::StaffList | View::FilmList | View::ActorInfo => {
            Err(TillFault::Foreign)
        }
    }
}

/// Returns the end of an accepted command's line: to whom, or how much, with the customer's name.
pub(crate) fn besides(
    alloc: Global,
    act: &Act,
    name: &str,
    rented: &Rented,
) -> Result<String, TillFault>
    ensures { IfOk result (λ end. string_bytes end
        ≡ end_text (seen_act act.now) name.now (option_map string_bytes rented.now.title) rented.now.due) }
{
    match act {
        Act::Rent { copy, .. } => {
            let (title, due) = (rented.title_text(alloc)?, rented.due_text(alloc)?);
            Ok(format!(in alloc; ": copy {}{title} to {name}{due}", copy.get())?)
        }
        Act::Pay { amount, .. } => {
            let amount = money(alloc, i64::from(amount.get()))?;
            Ok(format!(in alloc; ": {amount} from {name}")?)
        }
        Act::Customer(it) => {
            let (first, last) = (it.person.first.as_str(), it.person.last.as_str());
            Ok(format!(in alloc; ": {first} {last}")?)
        }
        Act::Active { .. } | Act::TakeBack(_) | Act::Import { .. } => Ok(String::new(alloc)),
        Act::Dispatch { .. } | Act::Receive { .. } | Act::Scrap(_) => Ok(String::new(alloc)),
    }
}

/// Says the outcome of a command, with the end of its line.
pub(crate) fn command_said(
    alloc: Global,
    is_json: bool,
    answer: &Answer,
    besides: &str,
) -> Result<Said, TillFault>
    ensures said { IfOk result (λ said. SaysOutcome is_json (seen_answer answer.now) besides.now
        (string_bytes said.text)) }
    ensures status { IfOk result (λ said. said.status ≡ status_of answer.now.status) }
{
    let mut said = Said::done(alloc);
    if says_all(alloc, is_json, answer, &mut said)? {
        return Ok(said);
    }
    let mut line = reply_line(alloc, answer.body.as_slice())?;
    line.push_str(besides)?;
    said.line(line.as_str())?;
    Ok(said)
}

/// Returns an answer to head office: its body, or what a refusal means.
pub(crate) fn office_said(alloc: Global, is_json: bool, answer: &Answer) -> Result<Said, TillFault>
    ensures said { IfOk result (λ said. SaysOfficeAnswer is_json (seen_answer answer.now) (string_bytes said.text)) }
    ensures status { IfOk result (λ said. said.status ≡ status_of answer.now.status) }
{
    let mut said = Said::done(alloc);
    if says_all(alloc, is_json, answer, &mut said)? {
        return Ok(said);
    }
    says_body(answer.body.as_slice(), &mut said)?;
    Ok(said)
}
