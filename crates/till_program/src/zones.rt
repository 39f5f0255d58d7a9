//! The zones that the system knows, and the standard time of a zone.

ghost use Rattle.std.specs.Prelude.{IfOk, ◌≡◌, pos, ◌≤◌, ◌≤ℤ◌, IfSome};

use crate::standard::standard_offset;
use jiff_core::{Error, Offset, Timestamp};
use jiff_tz::{TimeZone, TimeZoneDatabase};
use std::fs;
use std::time::Clock;
use till_cashier::TillFault;
use till_requests::{Zone, ZoneName, ZoneOffset};

/// The folder in which the system has its zones' files.
const FOLDER: &str = "/usr/share/zoneinfo";

/// How many bytes a zone's file may have.
const MOST_BYTES: u64 = 1 << 20;

/// Returns the number that two digits write.
fn two_digits(text: &str) -> Option<u8>
    ensures { IfSome result (λ n. n ≤ 99) }
{
    let bytes = text.as_bytes();
    if bytes.len() != 2 || !bytes[0].is_ascii_digit() || !bytes[1].is_ascii_digit() {
        return None;
    }
    Some((bytes[0] - b'0') * 10 + (bytes[1] - b'0'))
}

/// Returns the seconds that hours and minutes write: `07:00`.
fn written_seconds(text: &str) -> Option<i32>
    ensures { IfSome result (λ n. (pos 0 ≤ℤ n) × (n ≤ℤ pos 86_399)) }
{
    let (hours, minutes) = text.split_once(":")?;
    let (hours, minutes) = (two_digits(hours)?, two_digits(minutes)?);
    if hours > 23 || minutes > 59 {
        return None;
    }
    Some(hours as i32 * 3_600 + minutes as i32 * 60)
}

/// Returns the offset that a name writes: `UTC`, `UTC-07:00` or `-07:00`, `UTC+05:30` or `+05:30`.
fn written_offset(name: &str) -> Option<i32> {
    if name == "UTC" {
        return Some(0);
    }
    let text = name.strip_prefix("UTC").unwrap_or(name);
    match text.strip_prefix("-") {
        Some(west) => Some(-written_seconds(west)?),
        None => written_seconds(text.strip_prefix("+")?),
    }
}

/// Tests whether the byte may be in the name of a zone's file.
fn is_of_path(b: u8) -> bool {
    b.is_ascii_alphanumeric() || b == b'/' || b == b'_' || b == b'-' || b == b'+'
}

/// Tests whether the name may be one of a file below the folder of zones.
fn is_path(name: &str) -> bool {
    !name.starts_with("/") && name.as_bytes().iter().all(|b| is_of_path(*b))
}

/// Reads the file at that path, if it is one and isn't too long.
fn zone_file(rt: &HostRuntime, path: &str) -> Option<Vec<u8>> {
    let known = fs::metadata(rt, path).ok()?;
    if !known.is_file() || known.len() > MOST_BYTES {
        return None;
    }
    fs::read(rt, path).ok()
}

/// Reads the rules of the zone of that name. If the system has none, no rules are in what it returns.
pub(crate) fn rules_of(rt: &HostRuntime, name: &str) -> Result<TimeZoneDatabase, TillFault> {
    let alloc = rt.alloc();
    let mut rules = TimeZoneDatabase::new(alloc);
    if !is_path(name) {
        return Ok(rules);
    }
    let path = format!(in alloc; "{FOLDER}/{name}")?;
    if let Some(bytes) = zone_file(rt, path.as_str()) {
        if let Err(Error::OutOfMemory) = rules.insert(name, bytes.as_slice()) {
            return Err(TillFault::Memory);
        }
    }
    Ok(rules)
}

/// Returns the instant by the machine's clock.
fn instant(rt: &HostRuntime) -> Result<Timestamp, TillFault> {
    let seconds = rt.since_1970()?.as_secs();
    match Timestamp::from_nanosecond(seconds as i128 * 1_000_000_000) {
        Ok(now) => Ok(now),
        Err(_) => Err(TillFault::System),
    }
}

/// Returns the offset of the standard time of the zone of that name, from now on.
fn offset_named(rt: &HostRuntime, name: &str) -> Result<i32, TillFault> {
    if let Some(seconds) = written_offset(name) {
        return Ok(seconds);
    }
    let rules = rules_of(rt, name)?;
    let now = instant(rt)?;
    match rules.get(name) {
        Ok(zone) if !zone.is_unknown() => Ok(standard_offset(zone, now)),
        Ok(_) => Err(TillFault::NoZone),
        Err(Error::OutOfMemory) => Err(TillFault::Memory),
        Err(_) => Err(TillFault::NoZone),
    }
}

/// Returns the zone of that name, with its standard time. Fails with `NoZone` if the system has none.
pub(crate) fn zone_named(rt: &HostRuntime, name: &str) -> Result<Zone, TillFault>
    ensures { IfOk result (λ zone. zone.name ≡ name.now) }
{
    let Some(name) = ZoneName::read(String::from_str(rt.alloc(), name)?) else {
        return Err(TillFault::NoZone);
    };
    match ZoneOffset::new(offset_named(rt, name.as_str())?) {
        Some(offset) => Ok(Zone { name, offset }),
        None => Err(TillFault::NoZone),
    }
}

/// Reads the rules of a till's zone. Without a zone there are none.
pub(crate) fn rules_for(
    rt: &HostRuntime,
    zone: &Option<Zone>,
) -> Result<TimeZoneDatabase, TillFault> {
    match zone {
        Some(zone) => rules_of(rt, zone.name.as_str()),
        None => Ok(TimeZoneDatabase::new(rt.alloc())),
    }
}

/// Returns the zone that has standard time all year.
fn standard_zone<'a>(offset: ZoneOffset) -> TimeZone<'a> {
    match Offset::from_seconds(offset.get() as i64) {
        Ok(offset) => TimeZone::Fixed(offset),
        Err(_) => TimeZone::UTC,
    }
}

/// Returns the zone of the clock on the wall: the till's zone by its rules, or its standard time if there are none.
pub(crate) fn wall_zone<'a>(rules: &'a TimeZoneDatabase, zone: &Option<Zone>) -> TimeZone<'a> {
    let Some(zone) = zone else {
        return TimeZone::UTC;
    };
    match rules.get(zone.name.as_str()) {
        Ok(found) => found,
        Err(_) => standard_zone(zone.offset),
    }
}
