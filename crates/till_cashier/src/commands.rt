//! A command is entered, sent, and answered.

ghost use Rattle.std.specs.Prelude.{◌≡◌, ◌==◌, ◌≤◌, ◌+◌, true, false, [], ◌∷◌, IfOk, IfSome, OnOk, OnErr, option_map, string_bytes};
ghost use Rattle.sqlite.specs.Held.{state};
ghost use Rattle.sqlite.specs.State.{HasCleanDisk};
ghost use Rattle.shop_types.specs.Seen.{seen_act};
ghost use Rattle.shop_model.specs.Calendar.{seconds_of};
ghost use Rattle.till_client.specs.Replies.{seen_answer};
ghost use Rattle.till_shows.specs.Refused.{HasRefusal};
ghost use Rattle.till_work.specs.Exchanged.{IsExchanged};
ghost use Rattle.till_work.specs.Entering.{IsTillsBook};
ghost use Rattle.till_work.specs.Desk.{GoesOn, HasPlace, Stays};
ghost use Rattle.till_work.specs.Stops.{Leaves};
ghost use Rattle.till_cashier.specs.Clock.{local_clock};
ghost use Rattle.till_cashier.specs.Faults.{IsBookKept, giver_of};
ghost use Rattle.till_cashier.specs.Giving.{IsDated, IsRequest, EntersTry, Tries, IsBack, Gives};
ghost use Rattle.till_cashier.specs.Adding.{AddsOneTry, AddsTries};
ghost use Rattle.till_cashier.specs.Saying.{IsCalled, IsCalledIn, IsEnd, TellsOutcome, status_of};
ghost use Rattle.till_cashier.specs.Stops.{IsTriedAfter, IsTriedOnce};

use crate::answers::{besides, command_said};
use crate::book::Book;
use crate::caches::Shelf;
use crate::clock::WallClock;
use crate::desk::Desk;
use crate::fault::TillFault;
use crate::lists::name_if_known;
use crate::said::Said;
use crate::sendings::send_all;
use crate::sheet::Rented;
use shop_types::{Act, CustomerNo, Moment, Refusal};
use sqlite::{Alter, Connection};
use till_client::Answer;
use till_requests::{command_request, next_moment};
use till_shows::refusal_in;
use till_work::{Server, Watch, enter};

/// How many seconds ahead of the clock a command is tried, one try after another, while its moment is before the
/// branch's last.
const AHEAD: [u64; 8] = [0, 1, 3, 7, 15, 31, 63, 119];

/// How many seconds an entry's moment may be ahead of the clock.
const SPAN: u64 = 120;

/// The reply to an entry.
#[derive(Drop)]
pub(crate) struct EntryReply {
    pub(crate) answer: Answer,
}

impl EntryReply {
    pub(crate) fn refusal(&self) -> Option<Refusal>
        ensures { IfSome result (HasRefusal self.now.answer.status self.now.answer.body.items) }
    {
        refusal_in(self.answer.status, self.answer.body.as_slice())
    }

    pub(crate) fn is_accepted(&self) -> bool
        ensures { result ≡ (self.now.answer.status == 200) }
    {
        self.answer.status == 200
    }

    /// Tests whether it was refused because its moment was before the branch's last.
    fn is_back(&self) -> bool
        ensures { result ≡ true → IsBack (seen_answer self.now.answer) }
    {
        matches!(self.refusal(), Some(Refusal::MomentBack))
    }
}

/// A command's request with its moment.
#[derive(Drop)]
struct Prepared {
    request: Vec<u8>,
    at: Moment,
}

/// Tests whether the moment is at most `SPAN` seconds later than the other. Fails with `Ahead` if it is later.
fn within_span(at: Moment, now: Moment) -> Result<(), TillFault>
    ensures { OnOk result (seconds_of at ≤ seconds_of now + 120) }
{
    let over = at.seconds().saturating_sub(now.seconds());
    if over > SPAN {
        return Err(TillFault::Ahead(over - SPAN));
    }
    Ok(())
}

/// Returns the moment of the next entry: the clock's, or that many seconds after it, or a second after the last
/// entry's, whichever is the latest. Fails with `Ahead` if that is more than two minutes ahead of the clock.
fn next_date<K: WallClock, V: Server, L: Shelf>(
    desk: &Desk<'_, K, V, L>,
    last: Option<Moment>,
    ahead: u64,
) -> Result<Moment, TillFault>
    ensures { IfOk result (IsDated (local_clock (K.shows desk.now.clock.now) desk.now.settings.now.zone) last ahead) }
{
    let now = desk.now()?;
    let Some(at) = next_moment(now, last, ahead) else {
        return Err(TillFault::System);
    };
    within_span(at, now)?;
    Ok(at)
}

/// Returns the request of the next entry, at the clock's moment or that many seconds after it.
fn next_request<K: WallClock, V: Server, L: Shelf>(
    desk: &Desk<'_, K, V, L>,
    book: &Book,
    act: &Act,
    ahead: u64,
) -> Result<Prepared, TillFault>
    ensures { IfOk result (λ it. IsRequest (local_clock (K.shows desk.now.clock.now) desk.now.settings.now.zone) desk.now.settings.now.token
        (giver_of desk.now.settings.now.staff desk.now.staff) (seen_act act.now) it.request.items) }
{
    let staff = desk.giver()?;
    let at = next_date(desk, book.last, ahead)?;
    let number = book.place.entries.checked_add(1).ok_or(TillFault::Full)?;
    let settings = desk.settings;
    let request = command_request(
        desk.alloc,
        desk.routes,
        &settings.token,
        &settings.mark,
        number,
        staff,
        at,
        act,
    )?;
    Ok(Prepared { request, at })
}

/// Enters a command after the last entry, at the clock's moment or that many seconds after it.
fn enter_act<S: Alter, K: WallClock, V: Server, L: Shelf>(
    desk: &Desk<'_, K, V, L>,
    conn: &mut Connection<S>,
    book: &mut Book,
    act: &Act,
    ahead: u64,
) -> Result<(), TillFault>
    requires { conn.old.in_transaction ≡ false }
    ensures ended { conn.new.in_transaction ≡ false }
    ensures clean { HasCleanDisk (state S.Store conn.new) → HasCleanDisk (state S.Store conn.old) }
    ensures entered { HasCleanDisk (state S.Store conn.new) → OnOk result (EntersTry (local_clock (K.shows desk.now.clock.now) desk.now.settings.now.zone)
        desk.now.settings.now.mark desk.now.settings.now.token
        (giver_of desk.now.settings.now.staff desk.now.staff) (seen_act act.now) book.old.place
        (state S.Store conn.old) book.new.place (state S.Store conn.new)) }
    ensures stays { HasCleanDisk (state S.Store conn.new) → IsBookKept result
        → OnErr result (Stays book.old.place (state S.Store conn.old) book.new.place (state S.Store conn.new)) }
    ensures crash { HasCleanDisk (state S.Store conn.new) → Leaves (HasPlace book.old.place (state S.Store conn.old))
        (IsTillsBook desk.now.settings.now.mark) (IsTriedOnce (IsExchanged (V.opens desk.now.server.now) V.Reader.remaining V.Writer.contents)
        (local_clock (K.shows desk.now.clock.now) desk.now.settings.now.zone) desk.now.settings.now.token
        (giver_of desk.now.settings.now.staff desk.now.staff) (seen_act act.now)) (state S.Store conn.new) }
{
    let Prepared { request, at } = next_request(desk, book, act, ahead)?;
    match enter(desk.alloc, conn, desk.identity(), &mut book.place, request) {
        Ok(()) => {
            book.last = Some(at);
            Ok(())
        }
        Err(fault) => Err(TillFault::from(fault)),
    }
}

/// Enters a command, and sends what waits and then it. While the line is down it waits in the book.
fn give_once<S: Alter, K: WallClock, V: Server, L: Shelf, W: Watch>(
    desk: &Desk<'_, K, V, L>,
    conn: &mut Connection<S>,
    book: &mut Book,
    act: &Act,
    ahead: u64,
    watch: &mut W,
) -> Result<EntryReply, TillFault>
    requires { conn.old.in_transaction ≡ false }
    ensures ended { conn.new.in_transaction ≡ false }
    ensures clean { HasCleanDisk (state S.Store conn.new) → HasCleanDisk (state S.Store conn.old) }
    ensures tried { HasCleanDisk (state S.Store conn.new) → IfOk result (λ told. Tries
        (IsExchanged (V.opens desk.now.server.now) V.Reader.remaining V.Writer.contents) (local_clock (K.shows desk.now.clock.now) desk.now.settings.now.zone)
        desk.now.settings.now.mark desk.now.settings.now.token
        (giver_of desk.now.settings.now.staff desk.now.staff) (seen_act act.now) (seen_answer told.answer ∷ [])
        book.old.place (state S.Store conn.old) book.new.place (state S.Store conn.new)) }
    ensures keeps { HasCleanDisk (state S.Store conn.new) → IsBookKept result
        → GoesOn (IsExchanged (V.opens desk.now.server.now) V.Reader.remaining V.Writer.contents)
        desk.now.settings.now.mark book.old.place (state S.Store conn.old) book.new.place
        (state S.Store conn.new) }
    ensures adds { HasCleanDisk (state S.Store conn.new) → IsBookKept result
        → AddsOneTry (local_clock (K.shows desk.now.clock.now) desk.now.settings.now.zone)
        desk.now.settings.now.mark desk.now.settings.now.token
        (giver_of desk.now.settings.now.staff desk.now.staff) (seen_act act.now)
        book.old.place (state S.Store conn.old) book.new.place (state S.Store conn.new) }
    ensures crash { HasCleanDisk (state S.Store conn.new) → Leaves (HasPlace book.old.place (state S.Store conn.old))
        (IsTillsBook desk.now.settings.now.mark) (IsTriedOnce (IsExchanged (V.opens desk.now.server.now) V.Reader.remaining V.Writer.contents)
        (local_clock (K.shows desk.now.clock.now) desk.now.settings.now.zone) desk.now.settings.now.token
        (giver_of desk.now.settings.now.staff desk.now.staff) (seen_act act.now)) (state S.Store conn.new) }
{
    match enter_act(desk, conn, book, act, ahead) {
        Ok(()) => {}
        Err(fault) => return Err(fault),
    }
    if desk.line.is_down() {
        return Err(TillFault::Waits);
    }
    match send_all(desk, conn, &mut book.place, watch) {
        Ok(Some(answer)) => Ok(EntryReply { answer }),
        Ok(None) => Err(TillFault::OtherBook),
        Err(fault) => Err(fault),
    }
}

/// Enters a command, sends what waits and then the command. If its moment is before the branch's last, it never acts.
/// Then the command is entered anew, later and later, up to two minutes ahead of the clock.
pub(crate) fn give<S: Alter, K: WallClock, V: Server, L: Shelf, W: Watch>(
    desk: &Desk<'_, K, V, L>,
    conn: &mut Connection<S>,
    book: &mut Book,
    act: &Act,
    watch: &mut W,
) -> Result<EntryReply, TillFault>
    requires { conn.old.in_transaction ≡ false }
    ensures ended { conn.new.in_transaction ≡ false }
    ensures clean { HasCleanDisk (state S.Store conn.new) → HasCleanDisk (state S.Store conn.old) }
    ensures given { HasCleanDisk (state S.Store conn.new) → IfOk result (λ told. Gives
        (IsExchanged (V.opens desk.now.server.now) V.Reader.remaining V.Writer.contents) (local_clock (K.shows desk.now.clock.now) desk.now.settings.now.zone)
        desk.now.settings.now.mark desk.now.settings.now.token
        (giver_of desk.now.settings.now.staff desk.now.staff) (seen_act act.now) (seen_answer told.answer)
        book.old.place (state S.Store conn.old) book.new.place (state S.Store conn.new)) }
    ensures keeps { HasCleanDisk (state S.Store conn.new) → IsBookKept result
        → GoesOn (IsExchanged (V.opens desk.now.server.now) V.Reader.remaining V.Writer.contents)
        desk.now.settings.now.mark book.old.place (state S.Store conn.old) book.new.place
        (state S.Store conn.new) }
    ensures adds { HasCleanDisk (state S.Store conn.new) → IsBookKept result
        → AddsTries (local_clock (K.shows desk.now.clock.now) desk.now.settings.now.zone)
        desk.now.settings.now.mark desk.now.settings.now.token
        (giver_of desk.now.settings.now.staff desk.now.staff) (seen_act act.now)
        book.old.place (state S.Store conn.old) book.new.place (state S.Store conn.new) }
    ensures crash { HasCleanDisk (state S.Store conn.new) → Leaves (HasPlace book.old.place (state S.Store conn.old))
        (IsTillsBook desk.now.settings.now.mark) (IsTriedAfter (IsExchanged (V.opens desk.now.server.now) V.Reader.remaining V.Writer.contents)
        (local_clock (K.shows desk.now.clock.now) desk.now.settings.now.zone) desk.now.settings.now.token
        (giver_of desk.now.settings.now.staff desk.now.staff) (seen_act act.now)) (state S.Store conn.new) }
{
    let mut told = Err(TillFault::OtherBook);
    'tries: for ahead in AHEAD {
        let it = match give_once(desk, conn, book, act, ahead, watch) {
            Ok(it) => it,
            Err(fault) => return Err(fault),
        };
        if !it.is_back() {
            return Ok(it);
        }
        told = Ok(it);
    }
    told
}

/// Returns the name of the customer of a rent or a payment, and nobody's of another act.
fn customer_name<K: WallClock, V: Server, L: Shelf>(
    desk: &Desk<'_, K, V, L>,
    act: &Act,
) -> Result<String, TillFault>
    ensures { IfOk result (λ name. IsCalledIn (seen_act act.now) (string_bytes name)) }
{
    match act {
        Act::Rent { customer, .. } | Act::Pay { customer, .. } => called(desk, *customer),
        Act::Customer(_) | Act::Active { .. } | Act::TakeBack(_) | Act::Import { .. } => {
            Ok(String::new(desk.alloc))
        }
        Act::Dispatch { .. } | Act::Receive { .. } | Act::Scrap(_) => {
            Ok(String::new(desk.alloc))
        }
    }
}

/// Returns the customer's name, if the till knows the name, and else the number.
pub(crate) fn called<K: WallClock, V: Server, L: Shelf>(
    desk: &Desk<'_, K, V, L>,
    customer: CustomerNo,
) -> Result<String, TillFault>
    ensures { IfOk result (λ name. IsCalled customer (string_bytes name)) }
{
    match name_if_known(desk, customer) {
        Some(name) => Ok(name),
        None => {
            let alloc = desk.alloc;
            Ok(format!(in alloc; "customer {}", customer.get())?)
        }
    }
}

/// Returns the end of the command's line, if it was accepted.
fn more_of<K: WallClock, V: Server, L: Shelf>(
    desk: &Desk<'_, K, V, L>,
    act: &Act,
    rented: &Rented,
    told: &EntryReply,
) -> Result<String, TillFault>
    ensures { IfOk result (λ end. desk.now.is_json ≡ false → IsEnd (told.now.answer.status == 200) (seen_act act.now)
        (option_map string_bytes rented.now.title) rented.now.due (string_bytes end)) }
{
    if desk.is_json || !told.is_accepted() {
        return Ok(String::new(desk.alloc));
    }
    let name = customer_name(desk, act)?;
    besides(desk.alloc, act, name.as_str(), rented)
}

/// Says the outcome of a command.
pub(crate) fn tell<K: WallClock, V: Server, L: Shelf>(
    desk: &Desk<'_, K, V, L>,
    act: &Act,
    rented: &Rented,
    told: &EntryReply,
) -> Result<Said, TillFault>
    ensures said { IfOk result (λ said. TellsOutcome desk.now.is_json (seen_act act.now)
        (option_map string_bytes rented.now.title) rented.now.due (seen_answer told.now.answer)
        (string_bytes said.text)) }
    ensures status { IfOk result (λ said. said.status ≡ status_of told.now.answer.status) }
{
    let more = more_of(desk, act, rented, told)?;
    command_said(desk.alloc, desk.is_json, &told.answer, more.as_str())
}
