//! The tables of the shop: how they are made and known again, and for which books they stand.
#![tactic(auto)]

mod cells;
mod create;
mod first;
mod form;
mod known;
mod laws;
mod moment_text;
mod office_forms;
mod place;
mod read;
mod same_parts;
mod same_tables;
mod shop_cells;
mod states;
pub mod tables;

pub use cells::{Cell, Cells, read_cells};
pub use create::{create_shop, create_tables};
pub use first::create_first;
pub use form::{command_form, command_values};
pub use known::{KnownVersion, has_version, is_first_shop, is_shop, version};
pub use laws::{forms_are_one_to_one, office_forms_are_one_to_one};
pub use moment_text::MomentText;
pub use office_forms::{office_form, office_values};
pub use place::DispatchPlace;
pub use read::{
    bounded_at, first_of, moment_at, moment_or_null_at, query_first, row_number_at,
    row_number_or_null_at, row_numbers_in, text_at,
};
pub use same_tables::same_schema;
pub use shop_cells::ThisVersion;
pub use states::{line_state_code, state_code};
