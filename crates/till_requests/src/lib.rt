//! Builds the requests of a till's program as bytes, each read back by the server's own readers. Also has what a
//! program keeps beside its book: moments, its mark, its settings and the branch's sheet.
#![tactic(auto)]

mod bodies;
mod commands;
mod looks;
mod marks;
mod moments;
mod office;
mod same;
mod settings;
mod sheet;
mod sole;
mod zone_parts;
mod zones;

pub use commands::{NotBuilt, command_request, key_text};
pub use looks::{get_bytes, look_request, view_request};
pub use marks::{Dice, TillMark, new_mark};
pub use moments::{moment_at, next_moment};
pub use office::{
    NotSaid, OfficeLookSealed, OfficeSealed, is_office_look, office_look_request, office_request,
};
pub use same::is_same_act;
pub use settings::{NoSettings, Settings, read_settings, settings_text};
pub use sheet::{SheetFault, SheetRow, find_number, find_row};
pub use zone_parts::{ZoneName, ZoneOffset};
pub use zones::{Zone, zone_offset, zone_second};
