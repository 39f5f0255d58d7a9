//! The standard time of a zone.

ghost use Rattle.std.specs.Prelude.{◌≡◌, pos, ◌+ℤ◌, int_le};
ghost use Rattle.till_program.specs.StandardTime.{smaller, standard_offset};

use jiff_core::Timestamp;
use jiff_tz::TimeZone;

/// How long standard time is looked for, in nanoseconds: 366 days.
const YEAR: i128 = 31_622_400_000_000_000;

/// How many of the zone's transitions are looked at.
const MOST: u32 = 400;

/// Returns the instant 366 days later, in nanoseconds.
fn end_after(now: Timestamp) -> i128
    ensures { result ≡ now.nanosecond +ℤ pos 31_622_400_000_000_000 }
{
    now.nanosecond + YEAR
}

/// Tests whether the instant is at that end or before it.
fn is_within(at: Timestamp, end: i128) -> bool
    ensures { result ≡ int_le at.nanosecond end }
{
    at.nanosecond <= end
}

/// Returns the smaller one of two offsets.
fn smaller(least: i32, offset: i32) -> i32
    ensures { result ≡ smaller least offset }
{
    if least <= offset { least } else { offset }
}

/// Returns the smallest offset of the zone, in seconds: the one at that instant, or one after a transition of the 366
/// days after it. No more than 400 transitions are looked at.
pub(crate) fn standard_offset(zone: TimeZone<'_>, now: Timestamp) -> i32
    ensures { result ≡ standard_offset zone.entry now.nanosecond }
{
    let end = end_after(now);
    let mut least = zone.to_offset(now).seconds;
    let mut at = now;
    for _ in 0..MOST {
        let next = match zone.next_transition(at) {
            Some(next) => next,
            None => return least,
        };
        if !is_within(next.timestamp, end) {
            return least;
        }
        at = next.timestamp;
        least = smaller(least, next.info.offset.seconds);
    }
    least
}
