//! The columns that the rows of customers' and of staff's joins share.

ghost use Rattle.std.specs.Prelude.{◌≡◌, ◌++◌, ℕ, Some, IfOk};
ghost use Rattle.sqlite.specs.declared.types.Value.TheVariants.{Text as SqlText};
ghost use Rattle.sqlite_value.specs.Order.{Row as SqlRow, column};
ghost use Rattle.shop_model.specs.Values.{Person};
ghost use Rattle.shop_model.specs.Shop.{Catalogue};
ghost use Rattle.shop_model.specs.Views.{person_row};
ghost use Rattle.shop_views.specs.People.{seen_person};
ghost use Rattle.view_texts.specs.Shown.{text_or_empty, IsNameIn, shown_person};

use shop_schema::text_at;
use shop_types::{BranchNo, L45, T128};
use shop_views::PersonName;
use shop_views::people::ListedPerson;
use sql_rows::{StoreFault, words_or_null_at};
use sqlite::Row;
use std::alloc::Global;

/// Reads the name in the column. The name is empty if the column is NULL.
pub(crate) fn name_at(alloc: Global, row: &Row, at: usize) -> Result<L45, StoreFault>
    ensures { IfOk result (λ name. name ≡ text_or_empty (column row.now at)) }
{
    let text = match words_or_null_at(row, at)? {
        Some(words) => words.into_string(),
        None => String::new(alloc),
    };
    match L45::read(text) {
        Some(name) => Ok(name),
        None => Err(StoreFault::Failed),
    }
}

/// Reads the names of a city and of its country. A name is empty if its column is NULL.
pub(crate) fn city_at(
    alloc: Global,
    row: &Row,
    city: usize,
    country: usize,
) -> Result<(L45, L45), StoreFault>
    ensures { IfOk result (λ it. (it.0 ≡ text_or_empty (column row.now city))
        × (it.1 ≡ text_or_empty (column row.now country))) }
{
    Ok((name_at(alloc, row, city)?, name_at(alloc, row, country)?))
}

/// Reads a person's names in the two columns.
pub(crate) fn person_name_at(row: &Row, first: usize, last: usize) -> Result<PersonName, StoreFault>
    ensures { IfOk result (λ name. IsNameIn (column row.now first) (column row.now last) (Some name)) }
{
    Ok(PersonName {
        first: text_at(row, first)?,
        last: text_at(row, last)?,
    })
}

/// Reads a person's names in the two columns, or none if the first column is NULL.
pub(crate) fn person_name_or_null_at(
    row: &Row,
    first: usize,
    last: usize,
) -> Result<Option<PersonName>, StoreFault>
    ensures { IfOk result (λ name. IsNameIn (column row.now first) (column row.now last) name) }
{
    if words_or_null_at(row, first)?.is_none() {
        return Ok(None);
    }
    Ok(Some(person_name_at(row, first, last)?))
}

/// Reads a person's address, postal code and telephone number.
fn address_at(row: &Row) -> Result<(T128, L45, L45), StoreFault>
    ensures { IfOk result (λ it. (column row.now 3 ≡ SqlText it.0) × (column row.now 4 ≡ SqlText it.1)
        × (column row.now 5 ≡ SqlText it.2)) }
{
    Ok((text_at(row, 3)?, text_at(row, 4)?, text_at(row, 5)?))
}

/// Reads the person of a row, with the names of city and country. The first column is the person's number.
pub(crate) fn person_at(
    alloc: Global,
    row: &Row,
    branch: BranchNo,
) -> Result<ListedPerson, StoreFault>
    ensures { IfOk result (λ it. (catalogue : Catalogue) (n : ℕ) (person : Person) (rest : SqlRow)
        → row.now ≡ shown_person catalogue n person ++ rest → seen_person n it ≡ person_row catalogue branch n person) }
{
    let name = person_name_at(row, 1, 2)?;
    let (city, country) = city_at(alloc, row, 6, 7)?;
    let (address, postal, phone) = address_at(row)?;
    Ok(ListedPerson {
        branch,
        name,
        address,
        postal,
        phone,
        city,
        country,
    })
}
