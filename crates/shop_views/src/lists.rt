//! The manual's views and the overdue rentals, as JSON values. Each row that a caller passes is made into its value by
//! a call of its own.

ghost use Rattle.std.specs.Prelude.{◌≡◌, [], false, map, IfOk};
ghost use Rattle.serde_json.specs.Data.{Data};
ghost use Rattle.serde_json.specs.View.{view};
ghost use Rattle.serde_json.specs.Written.{has_float};
ghost use Rattle.shop_model.specs.Json.{array};
ghost use Rattle.shop_model.specs.Values.{Text};
ghost use Rattle.shop_model.specs.Views.{overdue_text, listed_customer, person_text, listed_film, listed_actor, listed_store, listed_category};
ghost use Rattle.shop_views.specs.Overdue.{seen_overdue, overdue_data};
ghost use Rattle.shop_views.specs.People.{seen_customer, customer_data, seen_staff, staff_data};
ghost use Rattle.shop_views.specs.Films.{seen_film, film_data, seen_actor, actor_data};
ghost use Rattle.shop_views.specs.Sales.{seen_store, store_data, seen_category, category_data};
ghost use Rattle.shop_views.specs.Lists.{list_of, IsWritten};
ghost use Rattle.shop_views.specs.Texts.{json_text};

use crate::actors::ActorRow;
use crate::films::ListedFilm;
use crate::overdue_rows::OverdueRow;
use crate::people::{ListedCustomer, ListedStaff};
use crate::sales::{CategoryRow, StoreRow};
use serde_json::Value;
use std::alloc::{AllocError, Global};

/// A row of a list. It has a JSON value of its own.
pub trait ListedRow: Sized {
    // the row's value, and the value's text
    ghost json: { Self → Data };

    ghost written: { Self → Text };

    fn value(alloc: Global, row: &Self) -> Result<Value, AllocError>
        ensures { IfOk result (λ v. view v ≡ json row.now) };

    ghost as_written: { (row : Self) → json_text (json row) ≡ written row };

    ghost no_float: { (row : Self) → has_float (json row) ≡ false };
}

/// Makes the list of the rows' values, in the rows' order.
fn list_value<R: ListedRow>(alloc: Global, rows: &[R]) -> Result<Value, AllocError>
    ensures { IfOk result (λ v. IsWritten (list_of (map R.ListedRow.json rows.now))
        (array (map R.ListedRow.written rows.now)) (view v)) }
{
    let mut items = Vec::with_capacity(alloc, rows.len())?;
    for row in rows {
        items.push_reserved(R::value(alloc, row)?);
    }
    Ok(Value::Array(items))
}

/// Makes the list of overdue rentals, as objects in the order of the rows.
pub fn overdue(alloc: Global, rows: &[OverdueRow]) -> Result<Value, AllocError>
    ensures { IfOk result (λ v. IsWritten (list_of (map (λ row. overdue_data (seen_overdue row)) rows.now))
        (array (map (λ row. overdue_text (seen_overdue row)) rows.now)) (view v)) }
{
    list_value(alloc, rows)
}

/// Makes the manual's `customer_list`, as a list of objects in the order of the rows.
pub fn customer_list(alloc: Global, rows: &[ListedCustomer]) -> Result<Value, AllocError>
    ensures { IfOk result (λ v. IsWritten (list_of (map (λ row. customer_data (seen_customer row)) rows.now))
        (array (map (λ row. listed_customer (seen_customer row)) rows.now)) (view v)) }
{
    list_value(alloc, rows)
}

/// Makes the manual's `staff_list`, as a list of objects in the order of the rows.
pub fn staff_list(alloc: Global, rows: &[ListedStaff]) -> Result<Value, AllocError>
    ensures { IfOk result (λ v. IsWritten (list_of (map (λ row. staff_data (seen_staff row)) rows.now))
        (array (map (λ row. person_text [] (seen_staff row)) rows.now)) (view v)) }
{
    list_value(alloc, rows)
}

/// Makes the manual's `film_list`, as a list of objects in the order of the rows.
pub fn film_list(alloc: Global, rows: &[ListedFilm]) -> Result<Value, AllocError>
    ensures { IfOk result (λ v. IsWritten (list_of (map (λ row. film_data (seen_film row)) rows.now))
        (array (map (λ row. listed_film (seen_film row)) rows.now)) (view v)) }
{
    list_value(alloc, rows)
}

/// Makes the manual's `actor_info`, as a list of objects in the order of the rows.
pub fn actor_info(alloc: Global, rows: &[ActorRow]) -> Result<Value, AllocError>
    ensures { IfOk result (λ v. IsWritten (list_of (map (λ row. actor_data (seen_actor row)) rows.now))
        (array (map (λ row. listed_actor (seen_actor row)) rows.now)) (view v)) }
{
    list_value(alloc, rows)
}

/// Makes the manual's `sales_by_store`, as a list of objects in the order of the rows.
pub fn sales_by_store(alloc: Global, rows: &[StoreRow]) -> Result<Value, AllocError>
    ensures { IfOk result (λ v. IsWritten (list_of (map (λ row. store_data (seen_store row)) rows.now))
        (array (map (λ row. listed_store (seen_store row)) rows.now)) (view v)) }
{
    list_value(alloc, rows)
}

/// Makes the manual's `sales_by_film_category`, as a list of objects in the order of the rows. The caller puts the
/// rows in the view's order, the greatest total first.
pub fn sales_by_film_category(alloc: Global, rows: &[CategoryRow]) -> Result<Value, AllocError>
    ensures { IfOk result (λ v. IsWritten (list_of (map (λ row. category_data (seen_category row)) rows.now))
        (array (map (λ row. listed_category (seen_category row)) rows.now)) (view v)) }
{
    list_value(alloc, rows)
}
