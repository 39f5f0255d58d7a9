//! The parts of a till's zone: its name, and how far its standard time is ahead of UTC.

ghost use Rattle.std.specs.Prelude.{◌≡◌, true, Some, None, IfSome, IfNone, if◌then◌else◌};
ghost use Rattle.std.specs.String.{string_bytes};
ghost use Rattle.std.specs.List.{list_all};
ghost use Rattle.till_requests.specs.ZoneParts.{is_zone_name, is_zone_byte, IsZoneOffset};

use std::marker::Model;

/// The name of a zone: 1 to 60 printed bytes of ASCII, none of them a blank.
#[derive(Drop)]
pub struct ZoneName {
    text: String,
}

impl Model for ZoneName {
    ghost use Rattle.std.specs.Prelude.{◌≡◌, ℕ, List, true};
    ghost use Rattle.std.specs.String.{string_bytes};
    ghost use Rattle.till_requests.specs.ZoneParts.{is_zone_name};

    ghost Value = { List ℕ };

    ghost view = { λ a. string_bytes a.text };

    ghost invariant = { λ a. is_zone_name (string_bytes a.text) ≡ true };
}

fn is_byte_of_zone(b: u8) -> bool
    ensures { result ≡ is_zone_byte b }
{
    b >= 33 && b <= 126
}

fn all_of_zone(bytes: &[u8]) -> bool
    ensures { result ≡ list_all is_zone_byte bytes.now }
{
    bytes.iter().all(|b| is_byte_of_zone(*b))
}

fn fits(text: &str) -> bool
    ensures { result ≡ is_zone_name text.now }
{
    let bytes = text.as_bytes();
    1 <= bytes.len() && bytes.len() <= 60 && all_of_zone(bytes)
}

impl ZoneName {
    /// Returns the name, if the text is one.
    pub fn read(text: String) -> Option<ZoneName>
        ensures { result ≡ (if is_zone_name (string_bytes text) then Some (string_bytes text) else None) }
    {
        if fits(text.as_str()) {
            Some(ZoneName { text })
        } else {
            None
        }
    }

    pub fn as_str(&self) -> &str
        ensures value { result.now ≡ self.now }
        ensures kind { is_zone_name self.now ≡ true }
    {
        self.text.as_str()
    }
}

/// How many seconds a clock is ahead of UTC: less than a day either way.
#[derive(Clone, Copy, PartialEq, Eq)]
pub struct ZoneOffset(i32);

impl Model for ZoneOffset {
    ghost use Rattle.std.specs.Prelude.{ℤ};
    ghost use Rattle.till_requests.specs.ZoneParts.{IsZoneOffset};

    ghost Value = { ℤ };

    ghost view = { λ a. a.0 };

    ghost invariant = { λ a. IsZoneOffset a.0 };

    ghost inverse = { λ seconds. record { 0 = seconds } };
}

impl ZoneOffset {
    /// Returns the offset, if it is less than a day either way.
    pub fn new(seconds: i32) -> Option<ZoneOffset>
        ensures some { IfSome result (λ offset. (offset ≡ seconds) × IsZoneOffset seconds) }
        ensures none { IfNone result (¬ IsZoneOffset seconds) }
    {
        if seconds < -86_399 || seconds > 86_399 {
            None
        } else {
            Some(ZoneOffset(seconds))
        }
    }

    pub fn get(self) -> i32
        ensures value { result ≡ self }
        ensures kind { IsZoneOffset self }
    {
        self.0
    }
}
