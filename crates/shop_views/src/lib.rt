//! Bodies of replies, as JSON texts (RFC 8259) without white space. The members of each object are in the byte order
//! of their names. Rows of views are such objects, too. A page takes rows one at a time and makes the text of their
//! list. A list of rows is a JSON value.
#![tactic(auto)]

pub mod actors;
mod audit;
mod consignments;
mod customer;
mod fields;
mod film;
pub mod films;
mod joins;
mod lists;
mod names;
mod numbers;
mod office;
pub mod overdue_rows;
mod page;
mod payment;
pub mod people;
mod places;
mod rental;
pub mod sales;

pub use audit::audit_text;
pub use consignments::{ListedConsignment, arrival_row, sent_row, transit_row};
pub use customer::customer_text;
pub use fields::{Field, number_text, object_of, object_text};
pub use film::film_text;
pub use lists::{
    ListedRow, actor_info, customer_list, film_list, overdue, sales_by_film_category,
    sales_by_store, staff_list,
};
pub use names::PersonName;
pub use numbers::counted_text;
pub use office::office_text;
pub use page::ListPage;
pub use payment::{balance_text, rewards_text};
pub use places::custody_text;
pub use rental::{copies_text, holder_text, in_stock_text};
