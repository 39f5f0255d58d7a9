//! What the prompt says first: who is at the till and where, and the date and the time of the clock on the wall.

ghost use Rattle.std.specs.Prelude.{◌≡◌, IfOk, option_map, string_bytes};
ghost use Rattle.till_program.specs.Greeting.{IsGreetingLine, called_text, greeting_text, office_greeting, place_text};

use crate::files::FileShelf;
use crate::opening::{Tools, tools_of};
use crate::tcp::Tcp;
use crate::way::Patience;
use crate::zones::wall_zone;
use shop_types::{BranchNo, Moment, StaffNo};
use std::alloc::{AllocError, Global};
use std::time::Clock;
use till_cashier::{Attendant, Desk, Link, TillFault, find_attendant, on_wall, read_sheet};
use till_requests::{Settings, moment_at, zone_offset, zone_second};
use till_shows::moment_words;

/// Returns the moment of the clock on the wall.
fn now_on_wall(rt: &HostRuntime, tools: &Tools) -> Result<Moment, TillFault> {
    let zone = &tools.settings.zone;
    let seconds = rt.since_1970()?.as_secs();
    let Some(second) = zone_second(zone, seconds) else {
        return Err(TillFault::System);
    };
    let Some(now) = moment_at(second) else {
        return Err(TillFault::System);
    };
    Ok(on_wall(wall_zone(&tools.rules, zone), zone_offset(zone), now))
}

/// Returns the name of the settings' zone.
fn zone_name(settings: &Settings) -> &str {
    match &settings.zone {
        Some(zone) => zone.name.as_str(),
        None => "UTC",
    }
}

/// Returns who stands there: `IDA LUND (staff 1)`, or `staff 1` if the name isn't known.
fn called(alloc: Global, name: &Option<String>, staff: StaffNo) -> Result<String, AllocError>
    ensures { IfOk result (λ s. string_bytes s ≡ called_text (option_map string_bytes name.now) staff) }
{
    match name {
        Some(name) => format!(in alloc; "{name} (staff {})", staff.get()),
        None => format!(in alloc; "staff {}", staff.get()),
    }
}

/// Returns where that is: `at branch 1, Lethbridge:`, or `at the till,` if the branch isn't known.
fn place(
    alloc: Global,
    branch: Option<BranchNo>,
    city: &Option<String>,
) -> Result<String, AllocError>
    ensures { IfOk result (λ s. string_bytes s ≡ place_text branch (option_map string_bytes city.now)) }
{
    let Some(branch) = branch else {
        return String::from_str(alloc, "at the till,");
    };
    match city {
        Some(city) => format!(in alloc; "at branch {}, {city}:", branch.get()),
        None => format!(in alloc; "at branch {}:", branch.get()),
    }
}

/// Returns the line of a branch's till: `IDA LUND (staff 1) at branch 1, Lethbridge: 1 March 2026, 22:05
/// (America/Edmonton)`.
fn greeting_line(
    alloc: Global,
    who: &Attendant,
    now: &str,
    zone: &str,
) -> Result<String, AllocError>
    ensures { IfOk result (λ s. string_bytes s ≡ greeting_text (option_map string_bytes who.now.name) who.now.staff
        who.now.branch (option_map string_bytes who.now.city) now.now zone.now) }
{
    let called = called(alloc, &who.name, who.staff)?;
    let place = place(alloc, who.branch, &who.city)?;
    format!(in alloc; "{called} {place} {now} ({zone})")
}

/// Returns the line of head office's book: `head office's book, 1 March 2026, 22:05 (UTC)`.
fn office_line(alloc: Global, now: &str, zone: &str) -> Result<String, AllocError>
    ensures { IfOk result (λ s. string_bytes s ≡ office_greeting now.now zone.now) }
{
    format!(in alloc; "head office's book, {now} ({zone})")
}

/// Returns who stands at the till of that book, and where. The server isn't waited for long.
fn attendant_with<'x>(
    rt: &'x HostRuntime,
    book: &'x str,
    tools: &'x Tools,
    staff: StaffNo,
    line: Link,
) -> Attendant {
    let alloc = rt.alloc();
    let server = Tcp {
        rt,
        address: tools.settings.address.as_str(),
        patience: Patience::Brief,
    };
    let shelf = FileShelf { rt, book };
    let sheet = read_sheet(alloc, &shelf);
    let desk = Desk {
        alloc,
        clock: rt,
        server: &server,
        shelf: &shelf,
        routes: &tools.routes,
        settings: &tools.settings,
        sheet: sheet.as_slice(),
        wall: wall_zone(&tools.rules, &tools.settings.zone),
        line,
        staff: Some(staff),
        drawer: 0,
        is_json: false,
        is_sure: false,
        said_day: None,
    };
    find_attendant(&desk, staff)
}

/// Returns the prompt's first line at the book with these tools.
fn greeted<'x>(
    rt: &'x HostRuntime,
    book: &'x str,
    tools: &'x Tools,
    named: Option<StaffNo>,
    line: Link,
) -> Result<String, TillFault>
    ensures { IfOk result (λ line. IsGreetingLine (string_bytes line)) }
{
    let alloc = rt.alloc();
    let now = moment_words(alloc, now_on_wall(rt, tools)?)?;
    let zone = zone_name(&tools.settings);
    let Some(own) = tools.settings.staff else {
        return Ok(office_line(alloc, now.as_str(), zone)?);
    };
    let who = attendant_with(rt, book, tools, named.unwrap_or(own), line);
    Ok(greeting_line(alloc, &who, now.as_str(), zone)?)
}

/// Returns the prompt's first line: who is at the till, by name if the branch's sheet or the server's list of staff has the
/// name, where that is, and when. At head office's book it names nobody.
pub(crate) fn greeting(
    rt: &HostRuntime,
    book: &str,
    named: Option<StaffNo>,
    line: Link,
) -> Result<String, TillFault>
    ensures { IfOk result (λ line. IsGreetingLine (string_bytes line)) }
{
    let tools = tools_of(rt, book)?;
    greeted(rt, book, &tools, named, line)
}
