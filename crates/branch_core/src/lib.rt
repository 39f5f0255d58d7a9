//! Decides on a command of a branch by what was found of the rows that the command names. The command is accepted, or
//! the first refusal is returned.
#![tactic(auto)]

mod acts;
mod arrived;
mod consignments;
mod decision;
mod film_copies;
mod found;
mod rentals;
mod stock;

pub use acts::named_rows;
pub use arrived::arrived_lines;
pub use consignments::has_unknown_copy;
pub use decision::decide;
pub use film_copies::{FilmCopy, film_in_stock, film_not_in_stock};
pub use found::{
    ArrivalFound, CopyFound, Found, ListedFound, Named, RentalFound, RowsFound, StockFound,
};
pub use rentals::{held_by, in_stock};
pub use stock::{StockRows, copies_in, rows_in};
