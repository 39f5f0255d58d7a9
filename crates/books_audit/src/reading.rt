//! The tables read into rows in order.

ghost use Rattle.std.specs.Prelude.{◌≡◌, IfOk, IfErr};
ghost use Rattle.books_audit.specs.ReadInOrder.{AreReadInOrder, CanBeRead};

use crate::kept::{Keys, read_kept};
use crate::lists::{Unread, read_keyed, read_one, read_shared};
use crate::shared::{ChainRow, RuleRow, SharedRow};
use crate::tables::{
    ACTORS, BRANCHES, CASTS, CATEGORIES, CHAIN, CITIES, CONSIGNMENTS, COPIES, COUNTRIES, CUSTOMERS,
    FILMS, LANGUAGES, LINES, LOTS, PAYMENTS, RENTALS, RULE, STAFF, TERMS, TableRows,
};
use audit_rows::{CheckedBranch, CheckedCity, CheckedFilm, CheckedStaff, OrderedBooks, are_joined};
use shop_types::T45;
use std::alloc::Global;

/// Reads the rows of all tables, except the tables of counts, in order. There are no books if a row isn't one of its
/// table's, numbers have gaps, or a table has a key twice.
pub(crate) fn read_ordered(alloc: Global, tables: &TableRows) -> Result<OrderedBooks, Unread>
    ensures read { IfOk result (AreReadInOrder tables.now) }
    ensures none { IfErr result (λ e. e ≡ Unread.NoBooks → ¬ CanBeRead tables.now) }
{
    let chain = read_one::<ChainRow>(alloc, tables, CHAIN)?;
    read_one::<RuleRow>(alloc, tables, RULE)?;
    let Keys { office, kept } = read_kept(alloc, tables)?;
    let rows = OrderedBooks {
        office_token: chain.office_token,
        office_keys: office,
        countries: read_shared::<SharedRow<T45>>(alloc, tables, COUNTRIES)?,
        languages: read_shared::<SharedRow<T45>>(alloc, tables, LANGUAGES)?,
        categories: read_shared::<SharedRow<T45>>(alloc, tables, CATEGORIES)?,
        cities: read_shared::<SharedRow<CheckedCity>>(alloc, tables, CITIES)?,
        actors: read_shared::<SharedRow<()>>(alloc, tables, ACTORS)?.len(),
        films: read_shared::<SharedRow<CheckedFilm>>(alloc, tables, FILMS)?,
        casts: read_keyed(alloc, tables, CASTS)?,
        branches: read_shared::<SharedRow<CheckedBranch>>(alloc, tables, BRANCHES)?,
        staff: read_shared::<SharedRow<CheckedStaff>>(alloc, tables, STAFF)?,
        customers: read_keyed(alloc, tables, CUSTOMERS)?,
        copies: read_keyed(alloc, tables, COPIES)?,
        rentals: read_keyed(alloc, tables, RENTALS)?,
        terms: read_keyed(alloc, tables, TERMS)?,
        payments: read_keyed(alloc, tables, PAYMENTS)?,
        lots: read_keyed(alloc, tables, LOTS)?,
        kept,
        headers: read_keyed(alloc, tables, CONSIGNMENTS)?,
        lines: read_keyed(alloc, tables, LINES)?,
    };
    if !are_joined(rows.headers.as_slice(), rows.lines.as_slice()) {
        return Err(Unread::NoBooks);
    }
    Ok(rows)
}
