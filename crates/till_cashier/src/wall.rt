//! The clock on the wall: an entry's moment by it, with summer time.

ghost use Rattle.std.specs.Prelude.{◌≡◌, pos, ◌+ℤ◌, ◌-ℤ◌, IfSome, IfNone};
ghost use Rattle.shop_model.specs.Calendar.{seconds_of};
ghost use Rattle.jiff_tz.specs.Zone.{offset_at};
ghost use Rattle.jiff_core.specs.Timestamp.{IsTimestampNanos};
ghost use Rattle.till_cashier.specs.Wall.{instant_of, moved_second, wall_second, IsShown};

use jiff_core::Timestamp;
use jiff_tz::TimeZone;
use shop_types::Moment;
use till_requests::moment_at;

/// Returns the instant at which a clock so many seconds ahead of UTC shows that second. Returns none if it is no instant
/// of the calendar.
fn instant_at(offset: i32, second: u64) -> Option<Timestamp>
    ensures some { IfSome result (λ it. it.nanosecond ≡ instant_of offset second) }
    ensures none { IfNone result (¬ IsTimestampNanos (instant_of offset second)) }
{
    let nanosecond = (second as i128 - offset as i128) * 1_000_000_000;
    Timestamp::from_nanosecond(nanosecond).ok()
}

/// Returns the second with the difference of the two offsets added. Returns none if that is before 1970 or after 9999.
fn moved(second: u64, offset: i32, then: i32) -> Option<u64>
    ensures some { IfSome result (λ it. pos it ≡ moved_second second offset then) }
    ensures none { IfNone result (¬ IsShown (moved_second second offset then)) }
{
    let shown = second as i128 + (then as i128 - offset as i128);
    if shown < 0 || shown > 253_402_300_799 {
        return None;
    }
    Some(shown as u64)
}

/// Returns the moment that the clock on the wall showed at an entry's moment, which is so many seconds ahead of UTC. The
/// two offsets' difference is added. If the two are one, or the wall's moment is before 1970 or after 9999, the moment
/// stays.
pub fn on_wall(zone: TimeZone<'_>, offset: i32, at: Moment) -> Moment
    ensures same { offset_at zone.entry (instant_of offset (seconds_of at)) ≡ offset → result ≡ at }
    ensures moved { IsTimestampNanos (instant_of offset (seconds_of at))
        → IsShown (wall_second zone.entry offset (seconds_of at))
        → pos (seconds_of result) ≡ wall_second zone.entry offset (seconds_of at) }
{
    let second = at.seconds();
    let Some(instant) = instant_at(offset, second) else {
        return at;
    };
    let then = zone.to_offset(instant).seconds;
    if then == offset {
        return at;
    }
    let Some(shown) = moved(second, offset, then) else {
        return at;
    };
    match moment_at(shown) {
        Some(shown) => shown,
        None => at,
    }
}
