//! The rows of the two views of sales.

ghost use Rattle.std.specs.Prelude.{◌≡◌, refl, IfOk, string_bytes};
ghost use Rattle.serde_json.specs.View.{view};
ghost use Rattle.shop_model.specs.Views.{listed_store, listed_category};
ghost use Rattle.shop_views.specs.Sales.{manager_text, seen_store, seen_category, store_data, category_data};

use crate::lists::ListedRow;
use crate::names::{PersonName, full_name, with_between};
use crate::{Field, object_of};
use serde_json::Value;
use shop_types::{L45, T45};
use std::alloc::{AllocError, Global};

/// What a branch has taken for rentals.
#[derive(Drop)]
pub struct StoreRow {
    /// The name of the branch's city. It is empty if there is no such city.
    pub city: L45,
    /// The name of the city's country. It is empty if there is no such country.
    pub country: L45,
    /// The manager's names, if a manager is set.
    pub manager: Option<PersonName>,
    /// The sum of the payments that name a rental, in cents.
    pub total: u64,
}

/// What a branch has taken for rentals of a category's films.
#[derive(Drop)]
pub struct CategoryRow {
    /// The category's name.
    pub category: T45,
    /// The sum of the payments for rentals of the category's films, in cents.
    pub total: u64,
}

/// Returns the manager's whole name. It is empty if no manager is set.
fn manager_name(alloc: Global, manager: &Option<PersonName>) -> Result<String, AllocError>
    ensures { IfOk result (λ s. string_bytes s ≡ manager_text manager.now) }
{
    match manager {
        Some(name) => full_name(alloc, name.first.as_str(), name.last.as_str()),
        None => Ok(String::new(alloc)),
    }
}

/// Makes the branch's object, with the text of its place and the manager's whole name.
fn store_object<'a>(
    alloc: Global,
    store: &'a str,
    manager: &'a str,
    total: u64,
) -> Result<Value, AllocError>
    ensures { IfOk result (λ v. view v
        ≡ store_data (record { store = store.now; manager = manager.now; total = total })) }
{
    object_of(
        alloc,
        &[
            Field::Text("manager", manager),
            Field::Text("store", store),
            Field::Number("total", total),
        ],
    )
}

/// A row of `sales_by_store`, as an object.
impl ListedRow for StoreRow {
    ghost json = { λ row. store_data (seen_store row) };

    ghost written = { λ row. listed_store (seen_store row) };

    fn value(alloc: Global, row: &StoreRow) -> Result<Value, AllocError> {
        let store = with_between(alloc, row.city.as_str(), ",", row.country.as_str())?;
        let manager = manager_name(alloc, &row.manager)?;
        store_object(alloc, store.as_str(), manager.as_str(), row.total)
    }

    ghost as_written = { λ row. refl };

    ghost no_float = { λ row. refl };
}

/// A row of `sales_by_film_category`, as an object.
impl ListedRow for CategoryRow {
    ghost json = { λ row. category_data (seen_category row) };

    ghost written = { λ row. listed_category (seen_category row) };

    fn value(alloc: Global, row: &CategoryRow) -> Result<Value, AllocError> {
        object_of(
            alloc,
            &[
                Field::Text("category", row.category.as_str()),
                Field::Number("total", row.total),
            ],
        )
    }

    ghost as_written = { λ row. refl };

    ghost no_float = { λ row. refl };
}
