//! The zones that a row's till may have.
use jiff_tz::{TimeZone, posix};
use row_player::Fault;
use std::alloc::{AllocError, Global};
use std::marker::Model;
use till_requests::{Settings, read_settings};

/// The till's settings without a zone: the till is branch 1's, and IDA LUND works at it.
const SETTINGS: &str =
    "address row:1\ntoken 11111111111111111111111111111111\nstaff 1\nmark tabcdefghij\n";

/// The settings of head office's book.
const OFFICE: &str =
    "address row:1\ntoken 00000000000000000000000000000000\noffice\nmark tabcdefghij\n";

/// The name by which the till of head office is found.
pub const HEAD_OFFICE: &str = "head office";

/// A till in a zone: its settings, and the rules of the clock on the wall.
#[derive(Drop)]
pub struct TillZone {
    name: &'static str,
    settings: Settings,
    rules: posix::TimeZone,
}

/// The model is trivial, as for `Days`.
impl Model for TillZone {
    ghost use Rattle.std.specs.Prelude.{⊤};

    ghost Value = { ⊤ };

    ghost view = { λ _. tt };
}

impl TillZone {
    /// Makes a till in the zone of that name, by its settings, the zone's line in them and the zone's rules.
    fn new(
        alloc: Global,
        name: &'static str,
        settings: &str,
        line: &str,
        rules: &[u8],
    ) -> Result<TillZone, Fault> {
        let Ok(rules) = posix::TimeZone::parse(rules) else {
            return Err(Fault::Line("no rules are read"));
        };
        let text = format!(in alloc; "{settings}{line}")?;
        match read_settings(alloc, text.as_str().as_bytes()) {
            Ok(settings) => Ok(TillZone {
                name,
                settings,
                rules,
            }),
            Err(_) => Err(Fault::Line("no settings are read")),
        }
    }

    /// Returns the till's settings.
    pub fn settings(&self) -> &Settings {
        &self.settings
    }

    /// Returns the zone of the clock on the wall.
    pub fn wall(&self) -> TimeZone<'_> {
        TimeZone::Posix(self.rules)
    }
}

/// A till in each zone.
#[derive(Drop)]
pub struct Zones {
    zones: Vec<TillZone>,
}

/// The model is trivial, as for `Days`.
impl Model for Zones {
    ghost use Rattle.std.specs.Prelude.{⊤};

    ghost Value = { ⊤ };

    ghost view = { λ _. tt };
}

/// The number of a till without a zone.
pub const NO_ZONE: usize = 0;

impl Zones {
    /// Makes a till without a zone, tills in two zones west and east of UTC, and head office's.
    pub fn new(alloc: Global) -> Result<Zones, Fault> {
        let mut zones = Vec::new(alloc);
        for (name, settings, line, rules) in [
            ("", SETTINGS, "", "UTC0"),
            (
                "America/Edmonton",
                SETTINGS,
                "zone America/Edmonton -25200\n",
                "MST7MDT,M3.2.0,M11.1.0",
            ),
            (
                "Europe/Berlin",
                SETTINGS,
                "zone Europe/Berlin 3600\n",
                "CET-1CEST,M3.5.0,M10.5.0/3",
            ),
            (HEAD_OFFICE, OFFICE, "", "UTC0"),
        ] {
            let zone = TillZone::new(alloc, name, settings, line, rules.as_bytes())?;
            match zones.push(zone) {
                Ok(()) => {}
                Err(full) => return Err(AllocError::from(full).into()),
            }
        }
        Ok(Zones { zones })
    }

    /// Returns the till in the zone with that number.
    pub fn at(&self, number: usize) -> Result<&TillZone, Fault> {
        match self.zones.as_slice().get(number) {
            Some(zone) => Ok(zone),
            None => Err(Fault::Line("no such zone")),
        }
    }

    /// Returns the number of the zone of that name.
    pub fn number_of(&self, name: &str) -> Result<usize, Fault> {
        for (number, zone) in self.zones.as_slice().iter().enumerate() {
            if zone.name == name {
                return Ok(number);
            }
        }
        Err(Fault::Line("no such zone"))
    }
}
