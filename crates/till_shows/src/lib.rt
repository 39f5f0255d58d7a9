//! The texts that a cashier sees: money, moments, tables, what a refusal means and what to do about it, and what
//! replies say.
#![tactic(auto)]

mod bodies;
mod cents;
mod drawers;
mod entries;
mod lists;
mod looks;
mod moments;
mod numbers;
mod parts;
mod questions;
mod refusals;
mod refused;
mod replies;
mod sheets;
mod slips;
mod tables;

pub use bodies::NotShown;
pub use cents::money;
pub use drawers::{all_line, came_line, closing_line, not_closed_line, taken_line};
pub use entries::asks_for;
pub use lists::{
    arrivals, customer_named, customers_with, film_named, films_with, overdue,
    sales_by_film_category, sales_by_store, sent,
};
pub use looks::{
    balance_line, film_in_stock_line, film_not_in_stock_line, holder, holder_line, in_stock_line,
    rewards_line,
};
pub use moments::{age_words, day_words, moment_words};
pub use questions::{is_covered, is_grave, owed_cents, question_on};
pub use refusals::{Sentences, refusal_sentences, sentences_on};
pub use refused::refusal_in;
pub use replies::reply_line;
pub use sheets::{customer_sheet, film_sheet};
pub use slips::{Slip, SlipKind, last_slip, rental_in, slip_text};
pub use tables::{Column, Row, Side, Table};
