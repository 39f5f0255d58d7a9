//! Adding a request after the last.

ghost use Rattle.std.specs.Prelude.{◌≡◌, ◌+◌, false, OnOk, OnErr};
ghost use Rattle.sqlite.specs.Held.{state};
ghost use Rattle.sqlite.specs.State.{HasCleanDisk, Survives};
ghost use Rattle.till_book.specs.Steps.{IsEntered, LeavesEntered};
ghost use Rattle.till_work.specs.Desk.{Stays, EntersOne, LeavesEntry, IsBookKept};

use crate::entering::enter_command;
use crate::fault::DeskFault;
use crate::place::Place;
use counter_routes::Routes;
use sqlite::{Alter, Connection};
use std::alloc::Global;

/// Who a till is: the token of its branch, the mark by which its keys begin, and the server's own reader of requests.
#[derive(Clone, Copy)]
pub struct Identity<'t> {
    pub routes: &'t Routes,
    pub mark: &'t [u8],
    pub token: &'t [u8],
}

/// Enters a request after the last, and commits it. The request has to say a command with the till's token. The
/// command's key has to be the mark and the entry's number, and its moment after the last entry's. Else the call fails
/// with `NoCommand`, `OtherKey` or `NotLater`, and nothing is entered.
pub fn enter<S: Alter>(
    alloc: Global,
    conn: &mut Connection<S>,
    till: Identity<'_>,
    place: &mut Place,
    request: Vec<u8>,
) -> Result<(), DeskFault>
    requires { conn.old.in_transaction ≡ false }
    ensures ended { conn.new.in_transaction ≡ false }
    ensures entered { HasCleanDisk (state S.Store conn.new)
        → OnOk result (EntersOne till.entry.mark.now till.entry.token.now request.items place.old
        (state S.Store conn.old) place.new (state S.Store conn.new)) }
    ensures stays { HasCleanDisk (state S.Store conn.new) → IsBookKept result
        → OnErr result (Stays place.old (state S.Store conn.old) place.new (state S.Store conn.new)) }
    ensures clean { HasCleanDisk (state S.Store conn.new) → HasCleanDisk (state S.Store conn.old) }
    ensures crash { Survives (state S.Store conn.old) (state S.Store conn.new)
        (LeavesEntry till.entry.mark.now till.entry.token.now request.items place.old
        (state S.Store conn.old)) }
{
    let Some(number) = place.entries.checked_add(1) else {
        return Err(DeskFault::Full);
    };
    enter_command(
        alloc,
        conn,
        till.routes,
        till.mark,
        till.token,
        number,
        request,
    )?;
    place.entries = number;
    Ok(())
}

/// Enters a request after the last, whatever it says, and commits it. It is for head office's requests, which
/// `till_requests` has read back.
pub fn enter_request<S: Alter>(
    conn: &mut Connection<S>,
    place: &mut Place,
    request: &[u8],
) -> Result<(), DeskFault>
    requires { conn.old.in_transaction ≡ false }
    ensures ended { conn.new.in_transaction ≡ false }
    ensures entered { HasCleanDisk (state S.Store conn.new)
        → OnOk result (IsEntered (place.old.entries + 1) request.now (state S.Store conn.old)
        (state S.Store conn.new)) }
    ensures stays { HasCleanDisk (state S.Store conn.new) → IsBookKept result
        → OnErr result (Stays place.old (state S.Store conn.old) place.new (state S.Store conn.new)) }
    ensures counted { OnOk result (place.new ≡ record place.old { entries = place.old.entries + 1 }) }
    ensures uncounted { OnErr result (place.new ≡ place.old) }
    ensures crash { Survives (state S.Store conn.old) (state S.Store conn.new)
        (LeavesEntered (place.old.entries + 1) request.now (state S.Store conn.old)) }
{
    let Some(number) = place.entries.checked_add(1) else {
        return Err(DeskFault::Full);
    };
    match till_book::enter(conn, number, request) {
        Ok(()) => {
            place.entries = number;
            Ok(())
        }
        Err(_) => Err(DeskFault::Book),
    }
}
