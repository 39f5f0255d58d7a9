//! A copy comes back: the rental is the register's, and what is owed is said.

ghost use Rattle.std.specs.Prelude.{◌≡◌, false, Some, IfOk, string_bytes};
ghost use Rattle.sqlite.specs.Held.{state};
ghost use Rattle.sqlite.specs.State.{HasCleanDisk};
ghost use Rattle.till_book.specs.Steps.{Stays};
ghost use Rattle.till_client.specs.Replies.{seen_answer};
ghost use Rattle.till_cashier.specs.Asking.{IsAnswered, IsOwing};
ghost use Rattle.till_cashier.specs.Following.{SaysBalance};
ghost use Rattle.till_cashier.specs.Word.{IsRenterIn};
ghost use Rattle.till_cashier.specs.Returns.{IsRegisteredIn, IsReturned};

use crate::book::Book;
use crate::caches::Shelf;
use crate::clock::WallClock;
use crate::commands::called;
use crate::desk::Desk;
use crate::entries::EntriesAfter;
use crate::fault::TillFault;
use crate::sheet::rental_on_sheet;
use shop_types::{Act, Ask, CopyNo, CustomerNo, Moment, RentalNo};
use sqlite::{Alter, Connection};
use till_book::{HeldRental, held_of, renter_of};
use till_client::Answer;
use till_requests::look_request;
use till_shows::balance_line;
use till_work::Server;

/// Tests whether the act is a rent of that copy.
fn is_rent_of(act: &Act, copy: CopyNo) -> bool {
    matches!(act, Act::Rent { copy: rented, .. } if rented.get() == copy.get())
}

/// Tests whether one of the entries is a rent of that copy. All have to be commands.
fn has_rent_of<K: WallClock, V: Server, L: Shelf>(
    desk: &Desk<'_, K, V, L>,
    entries: &EntriesAfter,
    copy: CopyNo,
) -> Result<bool, TillFault> {
    for at in 0..entries.len() {
        let command = entries.command_at(desk.alloc, desk.routes, at)?;
        if is_rent_of(&command.act, copy) {
            return Ok(true);
        }
    }
    Ok(false)
}

/// Tests whether a rent of the copy has no reply yet. The book stays.
fn is_rent_waiting<S: Alter, K: WallClock, V: Server, L: Shelf>(
    desk: &Desk<'_, K, V, L>,
    conn: &mut Connection<S>,
    book: &Book,
    copy: CopyNo,
) -> Result<bool, TillFault>
    requires { conn.old.in_transaction ≡ false }
    ensures ended { conn.new.in_transaction ≡ false }
    ensures clean { HasCleanDisk (state S.Store conn.new) → HasCleanDisk (state S.Store conn.old) }
    ensures stays { HasCleanDisk (state S.Store conn.new) → Stays (state S.Store conn.old) (state S.Store conn.new) }
{
    let entries = EntriesAfter::read(desk.alloc, conn, book.place.replies)?;
    has_rent_of(desk, &entries, copy)
}

/// Returns the rental that the register has of a copy, and its customer, if it has one. The book stays.
pub(crate) fn held_at<S: Alter>(
    conn: &mut Connection<S>,
    copy: CopyNo,
) -> Result<Option<HeldRental>, TillFault>
    requires { conn.old.in_transaction ≡ false }
    ensures ended { conn.new.in_transaction ≡ false }
    ensures clean { HasCleanDisk (state S.Store conn.new) → HasCleanDisk (state S.Store conn.old) }
    ensures stays { HasCleanDisk (state S.Store conn.new) → Stays (state S.Store conn.old) (state S.Store conn.new) }
    ensures held { HasCleanDisk (state S.Store conn.new)
        → IfOk result (λ held. IsRegisteredIn copy held (state S.Store conn.old)) }
{
    match held_of(conn, copy) {
        Ok(held) => Ok(held),
        Err(_) => Err(TillFault::Book),
    }
}

/// Asks what the customer owes now; `last` is the last entry's moment.
pub(crate) fn balance_of<K: WallClock, V: Server, L: Shelf>(
    desk: &Desk<'_, K, V, L>,
    customer: CustomerNo,
    last: Option<Moment>,
) -> Result<Answer, TillFault>
    ensures { IfOk result (λ answer. IsOwing
        (IsAnswered (V.opens desk.now.server.now) V.Reader.remaining V.Writer.contents)
        desk.now.settings.now.token customer (seen_answer answer)) }
{
    let ask = Ask::Balance {
        customer,
        at: desk.now_behind(last)?,
    };
    let request = look_request(desk.alloc, desk.routes, &desk.settings.token, &ask)?;
    desk.ask(request.as_slice())
}

/// Returns what the customer owes as a line, by the reply to that question.
pub(crate) fn owed_line<K: WallClock, V: Server, L: Shelf>(
    desk: &Desk<'_, K, V, L>,
    customer: CustomerNo,
    balance: &Answer,
) -> Result<String, TillFault>
    ensures { IfOk result (λ line. SaysBalance customer (seen_answer balance.now) (string_bytes line)) }
{
    let name = called(desk, customer)?;
    Ok(balance_line(desk.alloc, name.as_str(), balance.body.as_slice())?)
}

/// Returns the customer whose rental it is, if the register knows. The book stays.
pub(crate) fn customer_of<S: Alter>(
    conn: &mut Connection<S>,
    rental: RentalNo,
) -> Result<Option<CustomerNo>, TillFault>
    requires { conn.old.in_transaction ≡ false }
    ensures ended { conn.new.in_transaction ≡ false }
    ensures clean { HasCleanDisk (state S.Store conn.new) → HasCleanDisk (state S.Store conn.old) }
    ensures stays { HasCleanDisk (state S.Store conn.new) → Stays (state S.Store conn.old) (state S.Store conn.new) }
    ensures renter { HasCleanDisk (state S.Store conn.new)
        → IfOk result (λ customer. IsRenterIn rental customer (state S.Store conn.old)) }
{
    match renter_of(conn, rental) {
        Ok(customer) => Ok(customer),
        Err(_) => Err(TillFault::Book),
    }
}

/// Returns the rental that a copy's return is of, and its customer: the register's, and else the sheet's. Fails with
/// `RentWaits` if a rent of the copy has no reply yet. If the register has no rental of the copy, the server is asked
/// whose the copy is now. Fails with `NotOut` if it is nobody's, and with `NoRental` unless it is the sheet's customer's.
/// The book stays.
pub(crate) fn rental_at<S: Alter, K: WallClock, V: Server, L: Shelf>(
    desk: &Desk<'_, K, V, L>,
    conn: &mut Connection<S>,
    book: &Book,
    copy: CopyNo,
) -> Result<HeldRental, TillFault>
    requires { conn.old.in_transaction ≡ false }
    ensures ended { conn.new.in_transaction ≡ false }
    ensures clean { HasCleanDisk (state S.Store conn.new) → HasCleanDisk (state S.Store conn.old) }
    ensures stays { HasCleanDisk (state S.Store conn.new) → Stays (state S.Store conn.old) (state S.Store conn.new) }
    ensures held { HasCleanDisk (state S.Store conn.new)
        → IfOk result (λ held. IsReturned desk.now.sheet.now copy held (state S.Store conn.old)) }
{
    if is_rent_waiting(desk, conn, book, copy)? {
        return Err(TillFault::RentWaits);
    }
    match held_at(conn, copy) {
        Ok(Some(held)) => Ok(held),
        Ok(None) => rental_on_sheet(desk, copy),
        Err(fault) => Err(fault),
    }
}
