//! Holds what was found of the rows that a command names.

ghost use Rattle.std.specs.Prelude.{◌≡◌, false, None};
ghost use Rattle.branch_core.specs.Agreed.{no_rows, nothing};

use crate::StockRows;
use shop_types::{
    BadCsv, CityNo, CopyNo, CustomerNo, FilmNo, KeptFound, Moment, ParcelLines, RentalNo,
    StaffFound, Terms,
};
use std::alloc::Global;

/// A row of the stock file, with what the catalogue says of its film.
#[derive(Clone, Copy)]
pub struct StockFound {
    pub film: FilmNo,
    /// How many copies of the film the row lists, 1 or more.
    pub copies: u16,
    /// Whether the catalogue has the film.
    pub is_there: bool,
    /// Whether the film is withdrawn. A film that isn't there isn't.
    pub is_withdrawn: bool,
}

/// A copy that a command names.
#[derive(Clone, Copy)]
pub struct CopyFound {
    /// Whether it is in the shop, neither sent nor scrapped.
    pub is_here: bool,
    /// Whether its film is withdrawn.
    pub is_withdrawn: bool,
    /// Whether a customer has the copy.
    pub is_out: bool,
    /// The terms of a rental of its film that begins now.
    pub terms: Terms,
}

/// A rental that a command names.
#[derive(Clone, Copy)]
pub struct RentalFound {
    pub customer: CustomerNo,
    pub copy: CopyNo,
    /// Whether the copy came back already.
    pub is_returned: bool,
}

/// What was found of the copies that a command lists for another branch.
#[derive(Drop)]
pub struct ListedFound {
    /// Whether the branch has no copy of one of the numbers.
    pub has_unknown: bool,
    /// Whether one of the copies is sent or scrapped. This is looked up only if the branch has all of them.
    pub has_away: bool,
    /// Whether a customer has one of the copies. This is looked up only if all of them are here.
    pub has_out: bool,
    /// The lines that the copies make, in their order. There are none if more than 100 copies are listed.
    pub lines: Option<ParcelLines>,
}

/// A consignment to the branch. A command names it by its sender and its number.
#[derive(Drop)]
pub struct ArrivalFound {
    /// Whether it was received already.
    pub is_received: bool,
    pub lines: ParcelLines,
}

/// All that a decision reads.
#[derive(Drop)]
pub struct Found<'a> {
    /// The branch's kept row of the command's key, if there is one.
    pub kept: Option<KeptFound<'a>>,
    /// How many kept rows the branch has.
    pub keys: u32,
    /// The moment of the branch's last accepted command.
    pub last: Option<Moment>,
    /// The member of staff with the command's number, if there is one.
    pub staff: Option<StaffFound>,
    pub rows: RowsFound,
}

/// The single rows that an act names, by their numbers, one field a kind.
#[derive(Clone, Copy)]
pub struct Named {
    pub city: Option<CityNo>,
    pub customer: Option<CustomerNo>,
    pub copy: Option<CopyNo>,
    pub rental: Option<RentalNo>,
}

/// The rows that a command's act names, one field a kind. The fields of kinds that it doesn't name are never read.
#[derive(Drop)]
pub struct RowsFound {
    /// Whether the catalogue has the city of a new customer.
    pub has_city: bool,
    /// Whether the customer may rent, if the branch has a customer of the number.
    pub customer: Option<bool>,
    /// The copy, if the branch has a copy of the number.
    pub copy: Option<CopyFound>,
    /// Whether the branch has a rental of the command's moment, copy and customer.
    pub has_same: bool,
    /// The rental, if the branch has a rental of the number.
    pub rental: Option<RentalFound>,
    /// How many copies the branch has, in whatever state, if the act may bring more.
    pub copies: u32,
    /// Whether the branch has a lot of the name.
    pub has_lot: bool,
    /// The rows of the stock file in their order, or its fault.
    pub stock: Result<StockRows, BadCsv>,
    /// Whether there is a branch of the addressee's number.
    pub has_branch: bool,
    /// The copies that are listed.
    pub listed: ListedFound,
    /// The consignment that is to be received, if there is one.
    pub arrival: Option<ArrivalFound>,
}

impl Named {
    pub fn nothing() -> Named
        ensures { result ≡ nothing }
    {
        Named {
            city: None,
            customer: None,
            copy: None,
            rental: None,
        }
    }
}

impl ListedFound {
    /// Returns a value in which no test holds of a copy, and no line was made.
    pub fn none() -> ListedFound
        ensures { result ≡ record { has_unknown = false; has_away = false; has_out = false; lines = None } }
    {
        ListedFound {
            has_unknown: false,
            has_away: false,
            has_out: false,
            lines: None,
        }
    }
}

impl RowsFound {
    /// Returns a value in which nothing was found of any row.
    pub fn none(alloc: Global) -> RowsFound
        ensures { result ≡ no_rows }
    {
        RowsFound {
            has_city: false,
            customer: None,
            copy: None,
            has_same: false,
            rental: None,
            copies: 0,
            has_lot: false,
            stock: Ok(StockRows::none(alloc)),
            has_branch: false,
            listed: ListedFound::none(),
            arrival: None,
        }
    }
}
