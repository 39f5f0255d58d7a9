//! The values of the shop as plain data (moments, texts, keys, tokens, numbers of rows, limits, money), and what callers
//! ask and get: commands, readings, refusals and replies, each with its meaning in the definitions.
#![tactic(auto)]

mod audit;
mod bounded;
mod catalogue;
mod change;
mod command;
mod custody;
mod digits;
mod film;
mod found;
mod key;
mod limits;
mod line;
mod moment;
mod money;
mod no_memory;
mod numbers;
mod office;
mod parcel;
mod payment;
mod person;
mod refusal;
mod rental;
mod reply;
mod request;
mod row_number;
mod rule;
mod stock_file;
mod text;
mod token;
mod words;

pub use audit::Audit;
pub use bounded::{Amount, Bounded, Minutes, Period, Rate};
pub use catalogue::{Actor, Branch, City, Staff};
pub use change::Change;
pub use command::{Act, Command};
pub use custody::{CopyState, LineState, Mark, Place, is_here};
pub use digits::decimal;
pub use film::{Features, Film, Rating};
pub use found::{KeptFound, StaffFound};
pub use key::{Key, LotName, Name};
pub use limits::Limits;
pub use line::{Line, LineAct, Usage};
pub use moment::{Moment, moment_texts_are_one_to_one};
pub use money::Cents;
pub use no_memory::NoMemory;
pub use numbers::{CopyNos, LineNos, Numbers};
pub use office::{OfficeAct, OfficeCommand};
pub use parcel::{ParcelLine, ParcelLines};
pub use payment::Payment;
pub use person::{Customer, NewCustomer, Person};
pub use refusal::{BadCsv, Refusal};
pub use rental::{Rental, Terms};
pub use reply::{Body, Reply};
pub use request::{Ask, Caller, OfficeAsk, Request, View};
pub use row_number::{
    ActorNo, BranchNo, CategoryNo, CityNo, ConsignmentNo, CopyNo, CountryNo, CustomerNo, FilmNo,
    LanguageNo, LineNo, PaymentNo, RentalNo, RowNumber, StaffNo,
};
pub use rule::Rule;
pub use stock_file::StockFile;
pub use text::{L45, L500, T45, T128, Text};
pub use token::Token;
pub use words::OfficeWords;
