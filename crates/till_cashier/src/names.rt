//! Who stands at a branch's till, by name, and where: from the branch's sheet, or from the server's list of staff.

ghost use Rattle.std.specs.Prelude.{◌≡◌};

use crate::caches::Shelf;
use crate::clock::WallClock;
use crate::desk::Desk;
use crate::members::{number_at, row_with, text_at};
use crate::sheet::{branch_of, name_on_sheet};
use serde_json::Value;
use shop_types::{BranchNo, StaffNo, View};
use std::alloc::Global;
use till_requests::view_request;
use till_work::Server;

/// The name of the list on the shelf.
const NAME: &str = "staff";

/// For how many seconds the list is kept: a day.
const KEPT: u64 = 86_400;

/// Who stands at a branch's till, and where, as far as it is known.
#[derive(Drop)]
pub struct Attendant {
    pub staff: StaffNo,
    pub name: Option<String>,
    pub branch: Option<BranchNo>,
    /// The branch's city.
    pub city: Option<String>,
}

/// A member of staff, as the server lists them.
#[derive(Drop)]
struct Listed {
    name: String,
    branch: Option<BranchNo>,
}

/// Returns the member of staff from the body of `GET /views/staff_list`, if the list has that number.
fn find_listed(alloc: Global, body: &[u8], staff: StaffNo) -> Option<Listed> {
    let list = Value::from_slice(alloc, body).ok()?;
    let row = row_with(&list, "id", staff.get())?;
    Some(Listed {
        name: text_at(alloc, row, "name")?,
        branch: BranchNo::new(number_at(row, "branch")?),
    })
}

/// Returns the list that was kept last, if it isn't old.
fn kept_list<K: WallClock, V: Server, L: Shelf>(desk: &Desk<'_, K, V, L>) -> Option<Vec<u8>> {
    let (second, body) = desk.shelf.take(desk.alloc, NAME)?;
    let seconds = desk.seconds().ok()?.checked_sub(second)?;
    if seconds < KEPT { Some(body) } else { None }
}

/// Asks the server once for the list, and keeps it.
fn asked_list<K: WallClock, V: Server, L: Shelf>(desk: &Desk<'_, K, V, L>) -> Option<Vec<u8>> {
    let token = &desk.settings.token;
    let request = view_request(desk.alloc, desk.routes, token, View::StaffList).ok()?;
    let answer = desk.ask_once(request.as_slice()).ok()?;
    if answer.status != 200 {
        return None;
    }
    if let Ok(now) = desk.seconds() {
        desk.shelf
            .put(desk.alloc, NAME, now, answer.body.as_slice());
    }
    Some(answer.body)
}

/// Returns the member of staff from the list that is kept, or else from the server's.
fn found<K: WallClock, V: Server, L: Shelf>(
    desk: &Desk<'_, K, V, L>,
    staff: StaffNo,
) -> Option<Listed> {
    if let Some(body) = kept_list(desk) {
        if let Some(it) = find_listed(desk.alloc, body.as_slice(), staff) {
            return Some(it);
        }
    }
    let body = asked_list(desk)?;
    find_listed(desk.alloc, body.as_slice(), staff)
}

/// Returns the name that the sheet has of that kind and number.
fn on_sheet<K: WallClock, V: Server, L: Shelf>(
    desk: &Desk<'_, K, V, L>,
    kind: &str,
    number: u32,
) -> Option<String> {
    let name = name_on_sheet(desk.alloc, desk.sheet, kind, number)?;
    String::from_str(desk.alloc, name).ok()
}

/// Returns who stands at the till, if the list has them.
fn by_list<K: WallClock, V: Server, L: Shelf>(
    desk: &Desk<'_, K, V, L>,
    staff: StaffNo,
    city: Option<String>,
) -> Attendant
    ensures { result.staff ≡ staff }
{
    let (name, branch) = match found(desk, staff) {
        Some(Listed { name, branch }) => (Some(name), branch),
        None => (None, None),
    };
    Attendant {
        staff,
        name,
        branch: branch.or(branch_of(desk.sheet)),
        city,
    }
}

/// Returns the city that the sheet has of its branch.
fn city_on_sheet<K: WallClock, V: Server, L: Shelf>(desk: &Desk<'_, K, V, L>) -> Option<String> {
    let branch = branch_of(desk.sheet)?;
    on_sheet(desk, "branch", branch.get())
}

/// Returns who stands at a branch's till: by the sheet if it has their name, or else by the server's list, which is kept
/// for a day. The server is asked once, and not while the line is down.
pub fn find_attendant<K: WallClock, V: Server, L: Shelf>(
    desk: &Desk<'_, K, V, L>,
    staff: StaffNo,
) -> Attendant
    ensures { result.staff ≡ staff }
{
    let city = city_on_sheet(desk);
    match on_sheet(desk, "staff", staff.get()) {
        Some(name) => Attendant {
            staff,
            name: Some(name),
            branch: branch_of(desk.sheet),
            city,
        },
        None => by_list(desk, staff, city),
    }
}
