//! Entering a command: its request is added to the book.

ghost use Rattle.std.specs.Prelude.{◌≡◌, true, false, List, IfOk, IfErr};
ghost use Rattle.std.specs.Str.{bytes_eq};
ghost use Rattle.sqlite.specs.Held.{state};
ghost use Rattle.sqlite.specs.State.{HasCleanDisk, Survives};
ghost use Rattle.shop_types.specs.Seen.{seen_command};
ghost use Rattle.shop_model.specs.Values.{Command as Written};
ghost use Rattle.till_model.specs.Numbered.{key_of, IsAfterLast};
ghost use Rattle.till_client.specs.Sealing.{SaysCommand};
ghost use Rattle.till_work.specs.Entering.{Enters, FailsToEnter, FindsLast, FindsNoLast, IsLast, IsUnfit, LeavesCommand};

use crate::fault::DeskFault;
use counter_routes::Routes;
use shop_types::{Command, Moment};
use sqlite::{Alter, Connection};
use std::alloc::{AllocError, Global};
use till_book::{enter, request_of};
use till_client::{NotSealed, Sealed, command_of, seal};

/// Returns the key of the entry of that number: the till's mark, a hyphen and the number.
pub fn key_bytes(alloc: Global, mark: &[u8], number: u32) -> Result<Vec<u8>, AllocError>
    ensures { IfOk result (λ key. key.items ≡ key_of mark.now number) }
{
    let mut digits = itoa::Buffer::new();
    let mut key = Vec::from_slice(alloc, mark)?;
    key.extend_from_slice(b"-")?;
    key.extend_from_slice(digits.format(number).as_bytes())?;
    Ok(key)
}

/// Tests whether the command has the key of the entry of that number.
fn has_key(alloc: Global, mark: &[u8], number: u32, command: &Command) -> Result<bool, AllocError>
    ensures { IfOk result (λ is. is ≡ bytes_eq command.now.key (key_of mark.now number)) }
{
    let key = key_bytes(alloc, mark, number)?;
    Ok(command.key.as_str().as_bytes() == key.as_slice())
}

/// Returns the request with its command, if that has the key of the entry of that number.
fn fit(
    alloc: Global,
    routes: &Routes,
    mark: &[u8],
    token: &[u8],
    number: u32,
    request: Vec<u8>,
) -> Result<Sealed, DeskFault>
    ensures ok { IfOk result (λ sealed. (sealed.bytes ≡ request)
        × SaysCommand request.items token.now (seen_command sealed.command)
        × (sealed.command.key ≡ key_of mark.now number)) }
    ensures err { IfErr result (λ fault. IsUnfit mark.now token.now number fault request.items) }
{
    let sealed = match seal(alloc, routes, token, request) {
        Ok(sealed) => sealed,
        Err(NotSealed::Other) => return Err(DeskFault::NoCommand),
        Err(NotSealed::Memory) => return Err(DeskFault::Memory),
    };
    match has_key(alloc, mark, number, &sealed.command) {
        Ok(true) => Ok(sealed),
        Ok(false) => Err(DeskFault::OtherKey),
        Err(_) => Err(DeskFault::Memory),
    }
}

/// Returns the moment of the last entry, if there is one; `number` is the next entry's.
fn last_moment<S: Alter>(
    alloc: Global,
    conn: &mut Connection<S>,
    routes: &Routes,
    number: u32,
) -> Result<Option<Moment>, DeskFault>
    requires { conn.old.in_transaction ≡ false }
    ensures ended { conn.new.in_transaction ≡ false }
    ensures found { HasCleanDisk (state S.Store conn.new)
        → IfOk result (λ last. FindsLast number last (state S.Store conn.old) (state S.Store conn.new)) }
    ensures fault { HasCleanDisk (state S.Store conn.new)
        → IfErr result (λ fault. FindsNoLast number fault (state S.Store conn.old) (state S.Store conn.new)) }
    ensures crash { Survives (state S.Store conn.old) (state S.Store conn.new) (λ _. ⊥) }
{
    if number <= 1 {
        return Ok(None);
    }
    let request = match request_of(conn, number - 1) {
        Ok(Some(request)) => request,
        Ok(None) => return Err(DeskFault::OtherBook),
        Err(_) => return Err(DeskFault::Book),
    };
    match command_of(alloc, routes, request.as_slice()) {
        Ok(command) => Ok(Some(command.at)),
        Err(NotSealed::Other) => Err(DeskFault::OtherBook),
        Err(NotSealed::Memory) => Err(DeskFault::Memory),
    }
}

/// Tests whether the moment is after the last one's, if there is one.
fn is_later(last: Option<Moment>, moment: Moment) -> bool
    ensures yes { (commands : List Written) → IsLast last commands → result ≡ true → IsAfterLast commands moment }
    ensures no { (commands : List Written) → IsLast last commands → result ≡ false → ¬ (IsAfterLast commands moment) }
{
    match last {
        Some(last) => last.is_earlier(moment),
        None => true,
    }
}

/// Enters a command's request after the last, and commits it. `number` is the entry's number, `mark` the till's mark
/// and `token` its token.
///
/// The bytes have to say a command by the server's own readers. Its key is the mark and the number. Its moment is after
/// the last entry's, which is read from the book. So the keys of a book that was made by this call
/// alone are its own, and its moments rise. A number is never used twice, since no entry is ever taken out.
pub fn enter_command<S: Alter>(
    alloc: Global,
    conn: &mut Connection<S>,
    routes: &Routes,
    mark: &[u8],
    token: &[u8],
    number: u32,
    request: Vec<u8>,
) -> Result<Command, DeskFault>
    requires { conn.old.in_transaction ≡ false }
    ensures ended { conn.new.in_transaction ≡ false }
    ensures entered { HasCleanDisk (state S.Store conn.new)
        → IfOk result (λ command. Enters mark.now token.now number (seen_command command) request.items
        (state S.Store conn.old) (state S.Store conn.new)) }
    ensures fault { HasCleanDisk (state S.Store conn.new)
        → IfErr result (λ fault. FailsToEnter mark.now token.now number fault request.items (state S.Store conn.old)
        (state S.Store conn.new)) }
    ensures crash { Survives (state S.Store conn.old) (state S.Store conn.new)
        (LeavesCommand mark.now token.now number request.items (state S.Store conn.old)) }
{
    let Sealed { bytes, command } = match fit(alloc, routes, mark, token, number, request) {
        Ok(sealed) => sealed,
        Err(fault) => return Err(fault),
    };
    let last = match last_moment(alloc, conn, routes, number) {
        Ok(last) => last,
        Err(fault) => return Err(fault),
    };
    if !is_later(last, command.at) {
        return Err(DeskFault::NotLater);
    }
    match enter(conn, number, bytes.as_slice()) {
        Ok(()) => Ok(command),
        Err(_) => Err(DeskFault::Book),
    }
}
