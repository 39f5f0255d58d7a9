//! The settings of a till's program: the address of the server, the till's token, who works at it, its
//! mark, and its zone.

ghost use Rattle.std.specs.Prelude.{◌≡◌, ◌++◌, IfOk};
ghost use Rattle.till_requests.specs.Settings.{settings_lines, staff_line};
ghost use Rattle.till_requests.specs.Zones.{zone_line};

use crate::marks::TillMark;
use crate::zone_parts::{ZoneName, ZoneOffset};
use crate::zones::Zone;
use shop_types::{StaffNo, T128, Token};
use std::alloc::{AllocError, Global};

/// The settings of a till's program.
#[derive(Drop)]
pub struct Settings {
    /// `HOST:PORT`, without blanks.
    pub address: T128,
    pub token: Token,
    /// The member of staff whose till it is. None means head office.
    pub staff: Option<StaffNo>,
    pub mark: TillMark,
    /// The zone by which entries are dated. None means UTC.
    pub zone: Option<Zone>,
}

/// Why no settings were read from the bytes.
#[derive(Clone, Copy, Debug, PartialEq, Eq)]
pub enum NoSettings {
    /// The bytes aren't the four lines, or the five.
    Form,
    /// Out of memory.
    Memory,
}

impl From<AllocError> for NoSettings {
    fn from(_error: AllocError) -> NoSettings {
        NoSettings::Memory
    }
}

fn push(text: &mut Vec<u8>, more: &[u8]) -> Result<(), AllocError>
    ensures { IfOk result (λ _. text.new.items ≡ text.old.items ++ more.now) }
{
    text.extend_from_slice(more)
}

/// Adds the line of the member of staff, or of head office.
fn push_staff(text: &mut Vec<u8>, staff: Option<StaffNo>) -> Result<(), AllocError>
    ensures { IfOk result (λ _. text.new.items ≡ text.old.items ++ staff_line staff) }
{
    match staff {
        Some(staff) => {
            let mut digits = itoa::Buffer::new();
            push(text, b"staff ")?;
            push(text, digits.format(staff.get()).as_bytes())
        }
        None => push(text, b"office"),
    }
}

/// Adds the line of the zone, if there is a zone.
fn push_zone(text: &mut Vec<u8>, zone: &Option<Zone>) -> Result<(), AllocError>
    ensures { IfOk result (λ _. text.new.items ≡ text.old.items ++ zone_line zone.now) }
{
    match zone {
        Some(zone) => {
            let mut digits = itoa::Buffer::new();
            push(text, b"zone ")?;
            push(text, zone.name.as_str().as_bytes())?;
            push(text, b" ")?;
            push(text, digits.format(zone.offset.get()).as_bytes())?;
            push(text, b"\n")
        }
        None => Ok(()),
    }
}

/// Returns the text of settings, which `read_settings` reads: four lines, and a fifth one if there is a zone. Each line
/// is ended by a line feed.
pub fn settings_text(alloc: Global, settings: &Settings) -> Result<Vec<u8>, AllocError>
    ensures { IfOk result (λ text. text.items ≡ settings_lines settings.now) }
{
    let mut text = Vec::from_slice(alloc, b"address ")?;
    push(&mut text, settings.address.as_str().as_bytes())?;
    push(&mut text, b"\ntoken ")?;
    push(&mut text, settings.token.as_bytes().as_slice())?;
    push(&mut text, b"\n")?;
    push_staff(&mut text, settings.staff)?;
    push(&mut text, b"\nmark ")?;
    push(&mut text, settings.mark.as_bytes().as_slice())?;
    push(&mut text, b"\n")?;
    push_zone(&mut text, &settings.zone)?;
    Ok(text)
}

/// Reads the line `staff N` or `office`.
fn staff_of(line: &str) -> Option<Option<StaffNo>> {
    if line == "office" {
        return Some(None);
    }
    let number = StaffNo::read(line.strip_prefix("staff ")?.as_bytes())?;
    Some(Some(number))
}

/// Reads the line `zone NAME OFFSET`.
fn zone_of(alloc: Global, line: &str) -> Result<Zone, NoSettings> {
    let Some((name, offset)) = line
        .strip_prefix("zone ")
        .and_then(|rest| rest.split_once(" "))
    else {
        return Err(NoSettings::Form);
    };
    let name = ZoneName::read(String::from_str(alloc, name)?).ok_or(NoSettings::Form)?;
    let Ok(seconds) = offset.parse::<i32>() else {
        return Err(NoSettings::Form);
    };
    let offset = ZoneOffset::new(seconds).ok_or(NoSettings::Form)?;
    Ok(Zone { name, offset })
}

/// Reads the fifth line of settings, which is empty if there is no zone.
fn zone_in(alloc: Global, line: Option<&str>) -> Result<Option<Zone>, NoSettings> {
    match line {
        None | Some("") => Ok(None),
        Some(line) => Ok(Some(zone_of(alloc, line)?)),
    }
}

/// Reads settings from their lines. The caller checks the result by writing the settings again.
fn parsed(alloc: Global, text: &str) -> Result<Settings, NoSettings> {
    let mut lines = text.split('\n');
    let address = lines.next().and_then(|line| line.strip_prefix("address "));
    let token = lines.next().and_then(|line| line.strip_prefix("token "));
    let staff = lines.next().and_then(staff_of);
    let mark = lines.next().and_then(|line| line.strip_prefix("mark "));
    let zone = lines.next();
    let (Some(address), Some(token), Some(staff), Some(mark)) = (address, token, staff, mark) else {
        return Err(NoSettings::Form);
    };
    if address.as_bytes().contains(&b' ') {
        return Err(NoSettings::Form);
    }
    let address = T128::read(String::from_str(alloc, address)?).ok_or(NoSettings::Form)?;
    let token = Token::read(token.as_bytes()).ok_or(NoSettings::Form)?;
    let mark = TillMark::read(mark.as_bytes()).ok_or(NoSettings::Form)?;
    let zone = zone_in(alloc, zone)?;
    Ok(Settings {
        address,
        token,
        staff,
        mark,
        zone,
    })
}

/// Reads settings from a text. The text has to be exactly the lines that `settings_text` writes of them.
pub fn read_settings(alloc: Global, text: &[u8]) -> Result<Settings, NoSettings>
    ensures { IfOk result (λ settings. settings_lines settings ≡ text.now) }
{
    let Ok(lines) = std::str::from_utf8(text) else {
        return Err(NoSettings::Form);
    };
    let settings = parsed(alloc, lines)?;
    let written = settings_text(alloc, &settings)?;
    if written.as_slice() != text {
        return Err(NoSettings::Form);
    }
    Ok(settings)
}
