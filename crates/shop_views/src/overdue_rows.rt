ghost use Rattle.std.specs.Prelude.{◌≡◌, refl, IfOk};
ghost use Rattle.serde_json.specs.View.{view};
ghost use Rattle.shop_model.specs.Views.{overdue_text};
ghost use Rattle.shop_views.specs.Overdue.{overdue_data, seen_overdue};

use crate::lists::ListedRow;
use crate::names::with_between;
use crate::{Field, object_of};
use serde_json::Value;
use shop_types::{L45, T45, T128};
use std::alloc::{AllocError, Global};

/// An overdue rental: the customer's names and telephone number, and the film's title.
#[derive(Drop)]
pub struct OverdueRow {
    pub first: T45,
    pub last: T45,
    /// The telephone number, which may be empty.
    pub phone: L45,
    pub title: T128,
}

/// Makes the rental's object, with the customer's name.
fn overdue_object<'a>(
    alloc: Global,
    row: &'a OverdueRow,
    customer: &'a str,
) -> Result<Value, AllocError>
    ensures { IfOk result (λ v. view v ≡ overdue_data (record (seen_overdue row.now) { customer = customer.now })) }
{
    object_of(
        alloc,
        &[
            Field::Text("customer", customer),
            Field::Text("phone", row.phone.as_str()),
            Field::Text("title", row.title.as_str()),
        ],
    )
}

/// An overdue rental, as an object.
impl ListedRow for OverdueRow {
    ghost json = { λ row. overdue_data (seen_overdue row) };

    ghost written = { λ row. overdue_text (seen_overdue row) };

    fn value(alloc: Global, row: &OverdueRow) -> Result<Value, AllocError> {
        let customer = with_between(alloc, row.last.as_str(), ", ", row.first.as_str())?;
        overdue_object(alloc, row, customer.as_str())
    }

    ghost as_written = { λ row. refl };

    ghost no_float = { λ row. refl };
}
