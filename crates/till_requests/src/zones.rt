//! A till's zone, and the clock that dates its entries.

ghost use Rattle.std.specs.Prelude.{◌≡◌, ◌+ℤ◌, ◌<ℤ◌, ◌≤ℤ◌, ◌⊎◌, ◌^◌, pos, IfSome, IfNone};
ghost use Rattle.till_requests.specs.ZoneParts.{IsZoneOffset};
ghost use Rattle.till_requests.specs.Zones.{offset_of};

use crate::zone_parts::{ZoneName, ZoneOffset};

/// The zone of a till: its name as it was typed, and the offset by which its entries are dated.
#[derive(Drop)]
pub struct Zone {
    pub name: ZoneName,
    pub offset: ZoneOffset,
}

/// Returns how many seconds the clock that dates entries is ahead of UTC. Without a zone it is UTC.
pub fn zone_offset(zone: &Option<Zone>) -> i32
    ensures value { result ≡ offset_of zone.now }
    ensures kind { IsZoneOffset (offset_of zone.now) }
{
    match zone {
        Some(zone) => zone.offset.get(),
        None => 0,
    }
}

/// Returns the second that the clock of the zone shows at that second of UTC. Returns none if the clock shows a time
/// before 1970.
pub fn zone_second(zone: &Option<Zone>, seconds: u64) -> Option<u64>
    ensures some { IfSome result (λ n. pos n ≡ pos seconds +ℤ offset_of zone.now) }
    ensures none { IfNone result (((pos seconds +ℤ offset_of zone.now) <ℤ pos 0)
        ⊎ (pos (2 ^ 64) ≤ℤ (pos seconds +ℤ offset_of zone.now))) }
{
    let shown = seconds as i128 + zone_offset(zone) as i128;
    if shown < 0 || shown > u64::MAX as i128 {
        return None;
    }
    Some(shown as u64)
}
