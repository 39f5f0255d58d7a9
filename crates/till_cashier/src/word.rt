//! One word at an open book.

ghost use Rattle.std.specs.Prelude.{◌≡◌, ◌<◌, ◌⊎◌, true, false, None, Some, Err, is_ok, IfOk, IfErr, IfSome, OnOk, IsSome};
ghost use Rattle.std.specs.Prelude.{ℕ, option_map, string_bytes};
ghost use Rattle.sqlite.specs.Held.{state};
ghost use Rattle.sqlite.specs.State.{HasCleanDisk};
ghost use Rattle.shop_types.specs.Seen.{seen_act};
ghost use Rattle.till_book.specs.Steps.{Stays};
ghost use Rattle.till_client.specs.Replies.{seen_answer};
ghost use Rattle.till_work.specs.Exchanged.{IsExchanged};
ghost use Rattle.till_work.specs.Entering.{IsTillsBook};
ghost use Rattle.till_work.specs.Desk.{GoesOn, Grows, HasPlace};
ghost use Rattle.till_work.specs.Stops.{Leaves};
ghost use Rattle.till_requests.specs.Zones.{offset_of};
ghost use Rattle.till_cashier.specs.Asking.{IsAnswered, IsOwing};
ghost use Rattle.till_cashier.specs.Clock.{local_clock};
ghost use Rattle.till_cashier.specs.Faults.{IsBookKept, IsReading, giver_of, others_fault};
ghost use Rattle.till_cashier.specs.Giving.{GivesAct};
ghost use Rattle.till_cashier.specs.Adding.{AddsTries, EntersPlan, EntersWord};
ghost use Rattle.till_cashier.specs.Word.{
  KeepsATillsBook,
  KeepsABook,
  EntersOrSends,
  IsDebtor,
  IsFor,
  IsOwnBook,
  IsPlannedFor,
};
ghost use Rattle.till_cashier.specs.Doing.{IsPlanOf, IsCarriedOut, DoesWord, RepeatsPlan, RepeatsWord, office_planned};
ghost use Rattle.till_cashier.specs.Saying.{IsTitleIn};
ghost use Rattle.till_cashier.specs.Following.{AddsBalance, AddsDebt, AddsRest, AddsUnwritten, SaysAct, debtor_of};
ghost use Rattle.till_cashier.specs.Printing.{GivesSaying, SaysPlan, SaysWord};
ghost use Rattle.till_cashier.specs.Showing.{ShowsPlan, ShowsWord};
ghost use Rattle.till_cashier.specs.Stops.{IsTriedAfter, LeavesPlan, LeavesWord, LeavesATillsBook, LeavesABook};
ghost use Rattle.till_cashier.specs.Sure as sure;
ghost use Rattle.till_cashier.specs.Today as dates;

use crate::again::again;
use crate::book::Book;
use crate::caches::Shelf;
use crate::clock::WallClock;
use crate::commands::{EntryReply, give, tell};
use crate::day::day;
use crate::desk::Desk;
use crate::fault::TillFault;
use crate::lists::List;
use crate::lists_of_entries::{last_entries, waiting_entries};
use crate::looks::look;
use crate::office::{give_office, read_office};
use crate::returns::{balance_of, customer_of, owed_line, rental_at};
use crate::said::Said;
use crate::sendings::{say_waited, send, waited};
use crate::sheet::{Rented, about_rent};
use crate::slips::{debtor_of, say_slip, slip_of, write_slip};
use crate::sure::{is_answered, wants_yes};
use crate::today::{dated_if, enters_acts, today};
use shop_types::{Act, CopyNo, CustomerNo, Moment};
use sqlite::{Alter, Connection};
use std::alloc::Global;
use till_client::Answer;
use till_requests::is_office_look;
use till_words::{DayText, Drawer, TillAct, TillLook, WordList, help_text};
use till_work::{Server, Watch};

/// What is to be done for a word, once the book was looked at.
#[derive(Drop)]
enum Plan {
    /// A command is entered, and then it is said what the customer owes.
    Give(Act, Option<CustomerNo>),
    /// Head office's words are entered.
    Office(WordList),
    /// What waits is sent.
    Send,
    /// The server is asked for a look of the branch.
    Look(TillLook),
    /// The server is asked for a reading of head office.
    ReadOffice(WordList),
    /// The entries that have no reply yet are shown.
    Waiting,
    /// The last entries are shown, up to that many.
    Last(u32),
    /// What is in the drawer is shown, or it is closed.
    Day(Drawer),
    /// The date is put beside the book, if it is today's.
    Today(DayText),
    /// What was refused because the branch had a later moment is entered once more, rents and returns of another day too
    /// if that is said.
    Again(bool),
    /// The last slip is shown.
    Slip,
    /// The words that there are are said, as a usage.
    Usage,
}

/// Refuses a book whose last entry was entered with another till's mark.
fn is_own(book: &Book) -> Result<(), TillFault>
    ensures own { is_ok result ≡ book.now.is_own }
    ensures other { IfErr result (λ fault. fault ≡ TillFault.OtherBook) }
{
    if book.is_own {
        Ok(())
    } else {
        Err(TillFault::OtherBook)
    }
}

/// Plans head office's words, which are for its own book: a reading, or words to enter.
fn office_plan<K: WallClock, V: Server, L: Shelf>(
    desk: &Desk<'_, K, V, L>,
    book: &Book,
    words: WordList,
) -> Result<Plan, TillFault>
    ensures planned { IfOk result (IsPlannedFor desk.now.settings.now.staff) }
    ensures acts { IfOk result (λ it. it ≡ office_planned words) }
    ensures own { OnOk result (desk.now.settings.now.staff ≡ None) }
    ensures others { IsSome desk.now.settings.now.staff → result ≡ Err (others_fault desk.now.settings.now.staff) }
    ensures marked { OnOk result (book.now.is_own ≡ true) }
    ensures foreign { desk.now.settings.now.staff ≡ None → book.now.is_own ≡ false
        → result ≡ Err TillFault.OtherBook }
{
    if desk.settings.staff.is_some() {
        return Err(TillFault::IsBranch);
    }
    is_own(book)?;
    if is_office_look(words.as_slice()) {
        Ok(Plan::ReadOffice(words))
    } else {
        Ok(Plan::Office(words))
    }
}

/// Returns the customer of a return's rental, if the register knows, and none of another act. The book stays.
fn customer_in<S: Alter>(
    conn: &mut Connection<S>,
    act: &Act,
) -> Result<Option<CustomerNo>, TillFault>
    requires { conn.old.in_transaction ≡ false }
    ensures ended { conn.new.in_transaction ≡ false }
    ensures clean { HasCleanDisk (state S.Store conn.new) → HasCleanDisk (state S.Store conn.old) }
    ensures stays { HasCleanDisk (state S.Store conn.new) → Stays (state S.Store conn.old) (state S.Store conn.new) }
    ensures debtor { HasCleanDisk (state S.Store conn.new)
        → IfOk result (λ customer. IsDebtor act.now customer (state S.Store conn.old)) }
{
    if let Act::TakeBack(rental) = act {
        return customer_of(conn, *rental);
    }
    Ok(None)
}

/// Plans a command of the branch. The book stays.
fn act_plan<S: Alter, K: WallClock, V: Server, L: Shelf>(
    desk: &Desk<'_, K, V, L>,
    conn: &mut Connection<S>,
    book: &Book,
    act: Act,
) -> Result<Plan, TillFault>
    requires { conn.old.in_transaction ≡ false }
    ensures ended { conn.new.in_transaction ≡ false }
    ensures clean { HasCleanDisk (state S.Store conn.new) → HasCleanDisk (state S.Store conn.old) }
    ensures stays { HasCleanDisk (state S.Store conn.new) → Stays (state S.Store conn.old) (state S.Store conn.new) }
    ensures planned { IfOk result (IsPlannedFor desk.now.settings.now.staff) }
    ensures acts { HasCleanDisk (state S.Store conn.new)
        → IfOk result (IsPlanOf desk.now.sheet.now (state S.Store conn.old) (TillAct.Do act)) }
    ensures own { OnOk result (IsSome desk.now.settings.now.staff) }
    ensures others { desk.now.settings.now.staff ≡ None → result ≡ Err (others_fault desk.now.settings.now.staff) }
    ensures marked { OnOk result (book.now.is_own ≡ true) }
    ensures foreign { IsSome desk.now.settings.now.staff → book.now.is_own ≡ false
        → result ≡ Err TillFault.OtherBook }
{
    let _ = desk.giver()?;
    is_own(book)?;
    let customer = customer_in(conn, &act)?;
    Ok(Plan::Give(act, customer))
}

/// Plans the return of a copy: the rental is the register's, or else the sheet's. The book stays.
fn copy_plan<S: Alter, K: WallClock, V: Server, L: Shelf>(
    desk: &Desk<'_, K, V, L>,
    conn: &mut Connection<S>,
    book: &Book,
    copy: CopyNo,
) -> Result<Plan, TillFault>
    requires { conn.old.in_transaction ≡ false }
    ensures ended { conn.new.in_transaction ≡ false }
    ensures clean { HasCleanDisk (state S.Store conn.new) → HasCleanDisk (state S.Store conn.old) }
    ensures stays { HasCleanDisk (state S.Store conn.new) → Stays (state S.Store conn.old) (state S.Store conn.new) }
    ensures planned { IfOk result (IsPlannedFor desk.now.settings.now.staff) }
    ensures acts { HasCleanDisk (state S.Store conn.new)
        → IfOk result (IsPlanOf desk.now.sheet.now (state S.Store conn.old) (TillAct.ReturnCopy copy)) }
    ensures own { OnOk result (IsSome desk.now.settings.now.staff) }
    ensures others { desk.now.settings.now.staff ≡ None → result ≡ Err (others_fault desk.now.settings.now.staff) }
    ensures marked { OnOk result (book.now.is_own ≡ true) }
    ensures foreign { IsSome desk.now.settings.now.staff → book.now.is_own ≡ false
        → result ≡ Err TillFault.OtherBook }
{
    let _ = desk.giver()?;
    is_own(book)?;
    let held = rental_at(desk, conn, book, copy)?;
    Ok(Plan::Give(Act::TakeBack(held.rental), Some(held.customer)))
}

/// Plans the sending of what waits.
fn send_plan(book: &Book) -> Result<Plan, TillFault>
    ensures acts { IfOk result (λ plan. plan ≡ Plan.Send) }
    ensures marked { OnOk result (book.now.is_own ≡ true) }
    ensures foreign { book.now.is_own ≡ false → result ≡ Err TillFault.OtherBook }
{
    is_own(book)?;
    Ok(Plan::Send)
}

/// Plans a look, which is a branch's.
fn look_plan<K: WallClock, V: Server, L: Shelf>(
    desk: &Desk<'_, K, V, L>,
    it: TillLook,
) -> Result<Plan, TillFault>
    ensures planned { IfOk result (IsPlannedFor desk.now.settings.now.staff) }
    ensures acts { IfOk result (λ plan. plan ≡ Plan.Look it) }
    ensures own { OnOk result (IsSome desk.now.settings.now.staff) }
    ensures others { desk.now.settings.now.staff ≡ None → result ≡ Err (others_fault desk.now.settings.now.staff) }
{
    let _ = desk.giver()?;
    Ok(Plan::Look(it))
}

/// Plans what is asked of the drawer, which is a branch's.
fn day_plan<K: WallClock, V: Server, L: Shelf>(
    desk: &Desk<'_, K, V, L>,
    asked: Drawer,
) -> Result<Plan, TillFault>
    ensures planned { IfOk result (IsPlannedFor desk.now.settings.now.staff) }
    ensures acts { IfOk result (λ plan. plan ≡ Plan.Day asked) }
    ensures own { OnOk result (IsSome desk.now.settings.now.staff) }
    ensures others { desk.now.settings.now.staff ≡ None → result ≡ Err (others_fault desk.now.settings.now.staff) }
{
    let _ = desk.giver()?;
    Ok(Plan::Day(asked))
}

/// Plans to give once more what was refused because the branch had a later moment.
fn again_plan<K: WallClock, V: Server, L: Shelf>(
    desk: &Desk<'_, K, V, L>,
    book: &Book,
    late: bool,
) -> Result<Plan, TillFault>
    ensures planned { IfOk result (IsPlannedFor desk.now.settings.now.staff) }
    ensures acts { IfOk result (λ plan. plan ≡ Plan.Again late) }
    ensures own { OnOk result (IsSome desk.now.settings.now.staff) }
    ensures others { desk.now.settings.now.staff ≡ None → result ≡ Err (others_fault desk.now.settings.now.staff) }
    ensures marked { OnOk result (book.now.is_own ≡ true) }
    ensures foreign { IsSome desk.now.settings.now.staff → book.now.is_own ≡ false
        → result ≡ Err TillFault.OtherBook }
{
    let _ = desk.giver()?;
    is_own(book)?;
    Ok(Plan::Again(late))
}

/// Plans the showing of the last slip, which is a branch's.
fn slip_plan<K: WallClock, V: Server, L: Shelf>(desk: &Desk<'_, K, V, L>) -> Result<Plan, TillFault>
    ensures planned { IfOk result (IsPlannedFor desk.now.settings.now.staff) }
    ensures acts { IfOk result (λ plan. plan ≡ Plan.Slip) }
    ensures own { OnOk result (IsSome desk.now.settings.now.staff) }
    ensures others { desk.now.settings.now.staff ≡ None → result ≡ Err (others_fault desk.now.settings.now.staff) }
{
    let _ = desk.giver()?;
    Ok(Plan::Slip)
}

/// Plans a word. For a return the register is read: by copy it is of the rental that the register has of it, or else the
/// sheet. The book stays.
fn plan_of<S: Alter, K: WallClock, V: Server, L: Shelf>(
    desk: &Desk<'_, K, V, L>,
    conn: &mut Connection<S>,
    book: &Book,
    act: TillAct,
) -> Result<Plan, TillFault>
    requires { conn.old.in_transaction ≡ false }
    ensures ended { conn.new.in_transaction ≡ false }
    ensures clean { HasCleanDisk (state S.Store conn.new) → HasCleanDisk (state S.Store conn.old) }
    ensures stays { HasCleanDisk (state S.Store conn.new) → Stays (state S.Store conn.old) (state S.Store conn.new) }
    ensures planned { IfOk result (IsPlannedFor desk.now.settings.now.staff) }
    ensures acts { HasCleanDisk (state S.Store conn.new)
        → IfOk result (IsPlanOf desk.now.sheet.now (state S.Store conn.old) act) }
    ensures own { OnOk result (IsFor desk.now.settings.now.staff act) }
    ensures others { ¬ IsFor desk.now.settings.now.staff act
        → result ≡ Err (others_fault desk.now.settings.now.staff) }
    ensures marked { EntersOrSends act → OnOk result (book.now.is_own ≡ true) }
    ensures foreign { EntersOrSends act → IsFor desk.now.settings.now.staff act → book.now.is_own ≡ false
        → result ≡ Err TillFault.OtherBook }
{
    match act {
        TillAct::Do(act) => act_plan(desk, conn, book, act),
        TillAct::ReturnCopy(copy) => copy_plan(desk, conn, book, copy),
        TillAct::Office(words) => office_plan(desk, book, words),
        TillAct::Send => send_plan(book),
        TillAct::Look(it) => look_plan(desk, it),
        TillAct::Waiting => Ok(Plan::Waiting),
        TillAct::Last(count) => Ok(Plan::Last(count)),
        TillAct::Day(asked) => day_plan(desk, asked),
        TillAct::Help | TillAct::Init(_) | TillAct::Import { .. } => Ok(Plan::Usage),
        TillAct::Zone(_) | TillAct::Prompt | TillAct::JoinIn(_) => Ok(Plan::Usage),
        TillAct::Today(date) => Ok(Plan::Today(date)),
        TillAct::Again { late } => again_plan(desk, book, late),
        TillAct::Slip => slip_plan(desk),
    }
}

/// Asks what the customer of an act owes, if there is one.
fn balance_after<K: WallClock, V: Server, L: Shelf>(
    desk: &Desk<'_, K, V, L>,
    act: &Act,
    customer: &Option<CustomerNo>,
    last: &Option<Moment>,
) -> Option<Answer>
    ensures { IfSome result (λ balance. (debtor : ℕ) × (debtor_of (seen_act act.now) customer.now ≡ Some debtor)
        × IsOwing (IsAnswered (V.opens desk.now.server.now) V.Reader.remaining V.Writer.contents)
        desk.now.settings.now.token debtor (seen_answer balance)) }
{
    match debtor_of(act, customer) {
        Some(debtor) => balance_of(desk, debtor, *last).ok(),
        None => None,
    }
}

/// Says what the customer of a return owes, by the reply to that question. After another act it says nothing.
fn say_owed<K: WallClock, V: Server, L: Shelf>(
    desk: &Desk<'_, K, V, L>,
    act: &Act,
    customer: &Option<CustomerNo>,
    balance: &Option<Answer>,
    said: &mut Said,
) -> Result<(), TillFault>
    ensures said { OnOk result (AddsBalance desk.now.is_json (seen_act act.now) customer.now
        (option_map seen_answer balance.now) (string_bytes said.old.text) (string_bytes said.new.text)) }
    ensures status { said.new.status ≡ said.old.status }
{
    if desk.is_json {
        return Ok(());
    }
    let (Act::TakeBack(_), Some(customer), Some(balance)) = (act, customer, balance) else {
        return Ok(());
    };
    if let Ok(line) = owed_line(desk, *customer, balance) {
        said.line(line.as_str())?;
    }
    Ok(())
}

/// If the act was accepted, says what the customer of a return owes, and writes the slip, if the act has one. Returns
/// false if the slip can't be written.
fn follow_up<K: WallClock, V: Server, L: Shelf>(
    desk: &Desk<'_, K, V, L>,
    act: &Act,
    customer: &Option<CustomerNo>,
    last: &Option<Moment>,
    rented: &Rented,
    told: &EntryReply,
    said: &mut Said,
) -> Result<bool, TillFault>
    ensures said { OnOk result (AddsDebt
        (IsOwing (IsAnswered (V.opens desk.now.server.now) V.Reader.remaining V.Writer.contents)
        desk.now.settings.now.token) desk.now.is_json (seen_act act.now) customer.now (seen_answer told.now.answer)
        (string_bytes said.old.text) (string_bytes said.new.text)) }
    ensures status { said.new.status ≡ said.old.status }
{
    if !told.is_accepted() {
        return Ok(true);
    }
    if matches!(act, Act::Customer(_) | Act::Active { .. }) {
        desk.shelf.forget(List::Customers.name());
    }
    let balance = balance_after(desk, act, customer, last);
    say_owed(desk, act, customer, &balance, said)?;
    match slip_of(desk.alloc, act, &told.answer, last, &balance) {
        Some(slip) => Ok(write_slip(desk, &slip, rented)),
        None => Ok(true),
    }
}

/// Returns what is known of a rent's film and last day, if the rent was accepted.
fn about_accepted<K: WallClock, V: Server, L: Shelf>(
    desk: &Desk<'_, K, V, L>,
    act: &Act,
    last: &Option<Moment>,
    told: &EntryReply,
) -> Rented
    ensures { IsTitleIn desk.now.sheet.now (seen_act act.now) (option_map string_bytes result.title) }
{
    if !told.is_accepted() {
        return Rented::nothing();
    }
    about_rent(desk, act, last)
}

/// Says that the slip wasn't written, if it wasn't.
fn say_unwritten(is_written: bool, said: &mut Said) -> Result<(), TillFault>
    ensures said { OnOk result (AddsUnwritten (string_bytes said.old.text) (string_bytes said.new.text)) }
    ensures status { said.new.status ≡ said.old.status }
{
    if is_written {
        return Ok(());
    }
    said.line("The slip wasn't written.")?;
    Ok(())
}

/// Says the outcomes of the entries that had waited, and that the slip wasn't written. With `--json` it says nothing.
fn say_rest(
    is_json: bool,
    waited: &Option<Said>,
    is_written: bool,
    said: &mut Said,
) -> Result<(), TillFault>
    ensures said { OnOk result (AddsRest is_json (string_bytes said.old.text) (string_bytes said.new.text)) }
    ensures status { said.new.status ≡ said.old.status }
{
    if is_json {
        return Ok(());
    }
    say_waited(waited, said)?;
    say_unwritten(is_written, said)
}

/// Says the outcome of a command, what its customer owes, and the outcomes of the entries that had waited before it.
fn told<K: WallClock, V: Server, L: Shelf>(
    desk: &Desk<'_, K, V, L>,
    act: &Act,
    customer: Option<CustomerNo>,
    last: Option<Moment>,
    told: &EntryReply,
    waited: Option<Said>,
) -> Result<Said, TillFault>
    ensures { IfOk result (λ said. SaysAct
        (IsOwing (IsAnswered (V.opens desk.now.server.now) V.Reader.remaining V.Writer.contents)
        desk.now.settings.now.token) desk.now.is_json desk.now.sheet.now (seen_act act.now) customer
        (seen_answer told.now.answer) (string_bytes said.text) said.status) }
{
    let rented = about_accepted(desk, act, &last, told);
    let mut said = tell(desk, act, &rented, told)?;
    let is_written = follow_up(desk, act, &customer, &last, &rented, told, &mut said)?;
    say_rest(desk.is_json, &waited, is_written, &mut said)?;
    Ok(said)
}

/// Gives a command, and says its outcome.
fn give_and_say<S: Alter, K: WallClock, V: Server, L: Shelf, W: Watch>(
    desk: &Desk<'_, K, V, L>,
    conn: &mut Connection<S>,
    book: &mut Book,
    act: &Act,
    customer: Option<CustomerNo>,
    watch: &mut W,
) -> Result<Said, TillFault>
    requires { conn.old.in_transaction ≡ false }
    ensures ended { conn.new.in_transaction ≡ false }
    ensures clean { HasCleanDisk (state S.Store conn.new) → HasCleanDisk (state S.Store conn.old) }
    ensures given { HasCleanDisk (state S.Store conn.new)
        → OnOk result (GivesAct (IsExchanged (V.opens desk.now.server.now) V.Reader.remaining V.Writer.contents)
        (local_clock (K.shows desk.now.clock.now) desk.now.settings.now.zone) desk.now.settings.now.mark desk.now.settings.now.token
        (giver_of desk.now.settings.now.staff desk.now.staff) (seen_act act.now) book.old.place
        (state S.Store conn.old) book.new.place (state S.Store conn.new)) }
    ensures keeps { HasCleanDisk (state S.Store conn.new) → IsBookKept result
        → GoesOn (IsExchanged (V.opens desk.now.server.now) V.Reader.remaining V.Writer.contents)
        desk.now.settings.now.mark book.old.place (state S.Store conn.old) book.new.place
        (state S.Store conn.new) }
    ensures adds { HasCleanDisk (state S.Store conn.new) → IsBookKept result
        → AddsTries (local_clock (K.shows desk.now.clock.now) desk.now.settings.now.zone)
        desk.now.settings.now.mark desk.now.settings.now.token
        (giver_of desk.now.settings.now.staff desk.now.staff) (seen_act act.now)
        book.old.place (state S.Store conn.old) book.new.place (state S.Store conn.new) }
    ensures says { HasCleanDisk (state S.Store conn.new) → IfOk result (λ said. GivesSaying
        (IsExchanged (V.opens desk.now.server.now) V.Reader.remaining V.Writer.contents)
        (IsAnswered (V.opens desk.now.server.now) V.Reader.remaining V.Writer.contents)
        (local_clock (K.shows desk.now.clock.now) desk.now.settings.now.zone) desk.now.settings.now.mark desk.now.settings.now.token
        (giver_of desk.now.settings.now.staff desk.now.staff) desk.now.is_json desk.now.sheet.now
        (seen_act act.now) customer book.old.place (state S.Store conn.old) book.new.place (state S.Store conn.new)
        (string_bytes said.text) said.status) }
    ensures crash { HasCleanDisk (state S.Store conn.new) → Leaves (HasPlace book.old.place (state S.Store conn.old))
        (IsTillsBook desk.now.settings.now.mark) (IsTriedAfter (IsExchanged (V.opens desk.now.server.now) V.Reader.remaining V.Writer.contents)
        (local_clock (K.shows desk.now.clock.now) desk.now.settings.now.zone) desk.now.settings.now.token
        (giver_of desk.now.settings.now.staff desk.now.staff) (seen_act act.now)) (state S.Store conn.new) }
{
    let before = book.place;
    let it = match give(desk, conn, book, act, watch) {
        Ok(it) => it,
        Err(fault) => return Err(fault),
    };
    let table = waited(desk, conn, before)?;
    told(desk, act, customer, book.last, &it, table)
}

/// Says the words that there are, as a usage.
fn usage(alloc: Global) -> Result<Said, TillFault>
    ensures { IfOk result (λ said. said.status ≡ 2) }
{
    Ok(Said {
        text: help_text(alloc)?,
        status: 2,
    })
}

/// Carries out a plan, and says what it resulted in. A look leaves the book as it is.
fn carry_out<S: Alter, K: WallClock, V: Server, L: Shelf, W: Watch>(
    desk: &Desk<'_, K, V, L>,
    conn: &mut Connection<S>,
    book: &mut Book,
    plan: Plan,
    watch: &mut W,
) -> Result<Said, TillFault>
    requires { conn.old.in_transaction ≡ false }
    ensures ended { conn.new.in_transaction ≡ false }
    ensures clean { HasCleanDisk (state S.Store conn.new) → HasCleanDisk (state S.Store conn.old) }
    ensures done { HasCleanDisk (state S.Store conn.new)
        → OnOk result (IsCarriedOut (IsExchanged (V.opens desk.now.server.now) V.Reader.remaining V.Writer.contents)
        (local_clock (K.shows desk.now.clock.now) desk.now.settings.now.zone) desk.now.settings.now.mark desk.now.settings.now.token
        (giver_of desk.now.settings.now.staff desk.now.staff) plan book.old.place
        (state S.Store conn.old) book.new.place (state S.Store conn.new)) }
    ensures keeps { HasCleanDisk (state S.Store conn.new) → IsBookKept result → IsSome desk.now.settings.now.staff
        → IsPlannedFor desk.now.settings.now.staff plan
        → GoesOn (IsExchanged (V.opens desk.now.server.now) V.Reader.remaining V.Writer.contents)
        desk.now.settings.now.mark book.old.place (state S.Store conn.old) book.new.place
        (state S.Store conn.new) }
    ensures grows { HasCleanDisk (state S.Store conn.new) → IsBookKept result → desk.now.settings.now.staff ≡ None
        → IsPlannedFor desk.now.settings.now.staff plan
        → Grows (IsExchanged (V.opens desk.now.server.now) V.Reader.remaining V.Writer.contents) book.old.place (state
        S.Store conn.old) book.new.place (state S.Store conn.new) }
    ensures enters { HasCleanDisk (state S.Store conn.new) → IsBookKept result
        → EntersPlan (local_clock (K.shows desk.now.clock.now) desk.now.settings.now.zone)
        desk.now.settings.now.mark desk.now.settings.now.token
        (giver_of desk.now.settings.now.staff desk.now.staff) plan book.old.place
        (state S.Store conn.old) book.new.place (state S.Store conn.new) }
    ensures again { HasCleanDisk (state S.Store conn.new) → IfOk result (λ said. said.status < 3
        → RepeatsPlan (IsExchanged (V.opens desk.now.server.now) V.Reader.remaining V.Writer.contents)
        (local_clock (K.shows desk.now.clock.now) desk.now.settings.now.zone) desk.now.settings.now.mark desk.now.settings.now.token
        desk.now.settings.now.staff plan book.old.place (state S.Store conn.old) book.new.place
        (state S.Store conn.new)) }
    ensures says { HasCleanDisk (state S.Store conn.new) → IfOk result (λ said. SaysPlan
        (IsExchanged (V.opens desk.now.server.now) V.Reader.remaining V.Writer.contents)
        (IsAnswered (V.opens desk.now.server.now) V.Reader.remaining V.Writer.contents)
        (local_clock (K.shows desk.now.clock.now) desk.now.settings.now.zone)
        (dates.IsOnWall desk.now.wall (offset_of desk.now.settings.now.zone)) desk.now.settings.now.mark desk.now.settings.now.token
        (giver_of desk.now.settings.now.staff desk.now.staff) desk.now.is_json desk.now.sheet.now book.old.last
        plan book.old.place (state S.Store conn.old) book.new.place (state S.Store conn.new)
        (string_bytes said.text) said.status) }
    ensures shows { HasCleanDisk (state S.Store conn.new) → IfOk result (λ said. ShowsPlan
        (IsExchanged (V.opens desk.now.server.now) V.Reader.remaining V.Writer.contents)
        (local_clock (K.shows desk.now.clock.now) desk.now.settings.now.zone)
        desk.now.wall (offset_of desk.now.settings.now.zone) desk.now.settings.now.staff desk.now.settings.now.mark
        desk.now.settings.now.token desk.now.is_json plan book.old.place (state S.Store conn.old) book.new.place
        (state S.Store conn.new) (string_bytes said.text) said.status) }
    ensures crash { HasCleanDisk (state S.Store conn.new)
        → LeavesPlan (IsExchanged (V.opens desk.now.server.now) V.Reader.remaining V.Writer.contents)
        (local_clock (K.shows desk.now.clock.now) desk.now.settings.now.zone) desk.now.settings.now.mark desk.now.settings.now.token
        (giver_of desk.now.settings.now.staff desk.now.staff) plan (HasPlace book.old.place (state S.Store conn.old))
        (state S.Store conn.new) }
{
    match plan {
        Plan::Give(act, customer) => give_and_say(desk, conn, book, &act, customer, watch),
        Plan::Office(words) => give_office(desk, conn, book, words.as_slice(), watch),
        Plan::Send => send(desk, conn, &mut book.place, watch),
        Plan::Look(it) => look(desk, conn, book, it),
        Plan::ReadOffice(words) => read_office(desk, words.as_slice()),
        Plan::Waiting => waiting_entries(desk, conn, book),
        Plan::Last(count) => last_entries(desk, conn, book, count),
        Plan::Day(asked) => day(desk, conn, book, asked),
        Plan::Today(date) => today(desk, date.as_str()),
        Plan::Again(late) => again(desk, conn, book, late, watch),
        Plan::Slip => say_slip(desk),
        Plan::Usage => usage(desk.alloc),
    }
}

/// Does a word at an open book, and says what it resulted in. An act that was typed is given once. A copy that comes
/// back is the return of the register's rental, or of the sheet's if the register has none. After `send` each entry has
/// its reply. A look leaves the book as it is. Whatever its outcome, a word enters nothing but tries of what was typed,
/// unless the book failed. A word of head office is entered only once each earlier entry has its reply, and under the
/// key that refused entries left.
///
/// What is said of an act is of the very answer that it got. With `--json` that is the body as it is. Else it is what a
/// refusal means, or the reply's line with its end, and after a return what the rental's customer owes. The status is 0
/// if that answer's is 200, and else 1. What is said of a look, or of a reading of head office, is of some answer to it.
///
/// A branch's book stays one unless it failed, and what is in it stays, in head office's book too. A branch's command
/// or look at head office's book is refused, whoever gives it: `IsOffice`. Head office's words at a branch's book are
/// refused: `IsBranch`. If the last entry was entered with another mark than the settings', a word that enters or sends
/// is refused, and the book stays: `OtherBook`. A word that wants an answer and has none is refused, and the book stays:
/// `Unsure`, unless another refusal comes first. A word that makes a book, a prompt, or a stock file that is still to be
/// read is answered as a usage. So is a word that sets the book's zone.
///
/// A word that enters commands wants today's date first if the book is empty, or its last entry is more than 36 hours
/// ago. If the date of the clock on the wall wasn't said, the word is refused, and the book stays: `Undated`.
pub fn do_word<S: Alter, K: WallClock, V: Server, L: Shelf, W: Watch>(
    desk: &Desk<'_, K, V, L>,
    conn: &mut Connection<S>,
    act: TillAct,
    watch: &mut W,
) -> Result<Said, TillFault>
    requires { conn.old.in_transaction ≡ false }
    ensures ended { conn.new.in_transaction ≡ false }
    ensures clean { HasCleanDisk (state S.Store conn.new) → HasCleanDisk (state S.Store conn.old) }
    ensures done { HasCleanDisk (state S.Store conn.new)
        → OnOk result (DoesWord (IsExchanged (V.opens desk.now.server.now) V.Reader.remaining V.Writer.contents)
        (local_clock (K.shows desk.now.clock.now) desk.now.settings.now.zone) desk.now.settings.now.mark desk.now.settings.now.token
        (giver_of desk.now.settings.now.staff desk.now.staff) desk.now.sheet.now act (state S.Store conn.old)
        (state S.Store conn.new)) }
    ensures keeps { HasCleanDisk (state S.Store conn.new) → IsBookKept result → IsSome desk.now.settings.now.staff
        → KeepsATillsBook (IsExchanged (V.opens desk.now.server.now) V.Reader.remaining V.Writer.contents)
        desk.now.settings.now.mark (state S.Store conn.old) (state S.Store conn.new) }
    ensures office { HasCleanDisk (state S.Store conn.new) → IsBookKept result → desk.now.settings.now.staff ≡ None
        → KeepsABook (IsExchanged (V.opens desk.now.server.now) V.Reader.remaining V.Writer.contents) (state S.Store
        conn.old) (state S.Store conn.new) }
    ensures own { OnOk result (IsFor desk.now.settings.now.staff act) }
    ensures others { ¬ IsFor desk.now.settings.now.staff act → IfErr result (λ fault. IsReading fault
        ⊎ (fault ≡ others_fault desk.now.settings.now.staff)) }
    ensures stays { HasCleanDisk (state S.Store conn.new) → ¬ IsFor desk.now.settings.now.staff act
        → Stays (state S.Store conn.old) (state S.Store conn.new) }
    ensures marked { HasCleanDisk (state S.Store conn.new) → EntersOrSends act
        → OnOk result (IsOwnBook desk.now.settings.now.mark (state S.Store conn.old)) }
    ensures foreign { HasCleanDisk (state S.Store conn.new) → EntersOrSends act → IsFor desk.now.settings.now.staff act
        → ¬ IsOwnBook desk.now.settings.now.mark (state S.Store conn.old)
        → IfErr result (λ fault. IsReading fault ⊎ (fault ≡ TillFault.OtherBook)) }
    ensures untouched { HasCleanDisk (state S.Store conn.new) → EntersOrSends act
        → ¬ IsOwnBook desk.now.settings.now.mark (state S.Store conn.old)
        → Stays (state S.Store conn.old) (state S.Store conn.new) }
    ensures unsure { sure.is_answered (sure.wants_yes act) desk.now.is_sure ≡ false → is_ok result ≡ false }
    ensures unanswered { HasCleanDisk (state S.Store conn.new)
        → sure.is_answered (sure.wants_yes act) desk.now.is_sure ≡ false
        → Stays (state S.Store conn.old) (state S.Store conn.new) }
    ensures dated { HasCleanDisk (state S.Store conn.new) → dates.enters_acts act ≡ true
        → OnOk result (dates.IsDatedBook (local_clock (K.shows desk.now.clock.now) desk.now.settings.now.zone)
        desk.now.wall (offset_of desk.now.settings.now.zone) desk.now.said_day (state S.Store conn.old)) }
    ensures undated { HasCleanDisk (state S.Store conn.new) → dates.enters_acts act ≡ true
        → ¬ dates.IsDatedBook (local_clock (K.shows desk.now.clock.now) desk.now.settings.now.zone)
        desk.now.wall (offset_of desk.now.settings.now.zone) desk.now.said_day (state S.Store conn.old)
        → Stays (state S.Store conn.old) (state S.Store conn.new) }
    ensures enters { HasCleanDisk (state S.Store conn.new) → IsBookKept result
        → EntersWord (local_clock (K.shows desk.now.clock.now) desk.now.settings.now.zone)
        desk.now.settings.now.mark desk.now.settings.now.token
        (giver_of desk.now.settings.now.staff desk.now.staff) desk.now.sheet.now act
        (state S.Store conn.old) (state S.Store conn.new) }
    ensures again { HasCleanDisk (state S.Store conn.new) → IfOk result (λ said. said.status < 3
        → RepeatsWord (IsExchanged (V.opens desk.now.server.now) V.Reader.remaining V.Writer.contents)
        (local_clock (K.shows desk.now.clock.now) desk.now.settings.now.zone) desk.now.settings.now.mark desk.now.settings.now.token
        desk.now.settings.now.staff act (state S.Store conn.old) (state S.Store conn.new)) }
    ensures says { HasCleanDisk (state S.Store conn.new) → IfOk result (λ said. SaysWord
        (IsExchanged (V.opens desk.now.server.now) V.Reader.remaining V.Writer.contents)
        (IsAnswered (V.opens desk.now.server.now) V.Reader.remaining V.Writer.contents)
        (local_clock (K.shows desk.now.clock.now) desk.now.settings.now.zone)
        (dates.IsOnWall desk.now.wall (offset_of desk.now.settings.now.zone)) desk.now.settings.now.mark desk.now.settings.now.token
        (giver_of desk.now.settings.now.staff desk.now.staff) desk.now.is_json desk.now.sheet.now
        act (state S.Store conn.old) (state S.Store conn.new) (string_bytes said.text) said.status) }
    ensures shows { HasCleanDisk (state S.Store conn.new) → IfOk result (λ said. ShowsWord
        (IsExchanged (V.opens desk.now.server.now) V.Reader.remaining V.Writer.contents)
        (local_clock (K.shows desk.now.clock.now) desk.now.settings.now.zone)
        desk.now.wall (offset_of desk.now.settings.now.zone) desk.now.settings.now.staff desk.now.settings.now.mark
        desk.now.settings.now.token desk.now.is_json act (state S.Store conn.old) (state S.Store conn.new)
        (string_bytes said.text) said.status) }
    ensures crash { HasCleanDisk (state S.Store conn.new) → IsSome desk.now.settings.now.staff
        → LeavesATillsBook (IsExchanged (V.opens desk.now.server.now) V.Reader.remaining V.Writer.contents)
        desk.now.settings.now.mark (state S.Store conn.old) (state S.Store conn.new) }
    ensures crash_office { HasCleanDisk (state S.Store conn.new) → desk.now.settings.now.staff ≡ None
        → LeavesABook (IsExchanged (V.opens desk.now.server.now) V.Reader.remaining V.Writer.contents) (state S.Store
        conn.old) (state S.Store conn.new) }
    ensures crash_enters { HasCleanDisk (state S.Store conn.new)
        → LeavesWord (IsExchanged (V.opens desk.now.server.now) V.Reader.remaining V.Writer.contents)
        (local_clock (K.shows desk.now.clock.now) desk.now.settings.now.zone) desk.now.settings.now.mark desk.now.settings.now.token
        (giver_of desk.now.settings.now.staff desk.now.staff) desk.now.sheet.now act (state S.Store conn.old)
        (state S.Store conn.new) }
{
    let wants = wants_yes(&act);
    let enters = enters_acts(&act);
    let mut book = Book::read(desk.alloc, desk.routes, &desk.settings.mark, conn)?;
    let plan = plan_of(desk, conn, &book, act)?;
    dated_if(desk, &book, enters)?;
    is_answered(wants, desk.is_sure)?;
    carry_out(desk, conn, &mut book, plan, watch)
}
