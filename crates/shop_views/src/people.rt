//! Customers and staff in the lists of people.

ghost use Rattle.std.specs.Prelude.{◌≡◌, [], codes, refl, if◌then◌else◌, IfOk};
ghost use Rattle.serde_json.specs.View.{view};
ghost use Rattle.shop_model.specs.Views.{listed_customer, person_text};
ghost use Rattle.shop_views.specs.People.{person_as, seen_customer, seen_staff, customer_data, staff_data};

use crate::joins::Told;
use crate::lists::ListedRow;
use crate::names::PersonName;
use crate::{Field, object_of};
use serde_json::Value;
use shop_types::{BranchNo, CustomerNo, L45, StaffNo, T128};
use std::alloc::{AllocError, Global};

/// A person of a branch, with the names of the person's city and of the city's country.
#[derive(Drop)]
pub struct ListedPerson {
    pub branch: BranchNo,
    pub name: PersonName,
    pub address: T128,
    /// The postal code, which may be empty.
    pub postal: L45,
    /// The telephone number, which may be empty.
    pub phone: L45,
    /// The city's name. It is empty if there is no such city.
    pub city: L45,
    /// The name of the city's country. It is empty if there is no such country.
    pub country: L45,
}

/// A customer, with the customer's number.
#[derive(Drop)]
pub struct ListedCustomer {
    pub number: CustomerNo,
    pub person: ListedPerson,
    /// Whether the customer may rent.
    pub active: bool,
}

/// A member of staff, with the member's number.
#[derive(Drop)]
pub struct ListedStaff {
    pub number: StaffNo,
    pub person: ListedPerson,
}

/// Returns the list's note on a customer.
fn note_of(active: bool) -> &'static str
    ensures { result.now ≡ (if active then codes "active" else []) }
{
    if active { "active" } else { "" }
}

/// Makes the customer's object, with the customer's whole name.
fn customer_object<'a>(
    alloc: Global,
    row: &'a ListedCustomer,
    name: &'a str,
) -> Result<Value, AllocError>
    ensures { IfOk result (λ v. view v
        ≡ customer_data (person_as row.now.number name.now row.now.person, row.now.active)) }
{
    let person = &row.person;
    let note = note_of(row.active);
    object_of(
        alloc,
        &[
            Field::Text("address", person.address.as_str()),
            Field::Number("branch", person.branch.get() as u64),
            Field::Text("city", person.city.as_str()),
            Field::Text("country", person.country.as_str()),
            Field::Number("id", row.number.get() as u64),
            Field::Text("name", name),
            Field::Text("note", note),
            Field::Text("phone", person.phone.as_str()),
            Field::Text("postal", person.postal.as_str()),
        ],
    )
}

/// A customer of `customer_list`, as an object. `id` is the customer's number. If the customer may not rent, the note
/// is empty.
impl ListedRow for ListedCustomer {
    ghost json = { λ row. customer_data (seen_customer row) };

    ghost written = { λ row. listed_customer (seen_customer row) };

    fn value(alloc: Global, row: &ListedCustomer) -> Result<Value, AllocError> {
        let name = PersonName::text(alloc, &row.person.name)?;
        customer_object(alloc, row, name.as_str())
    }

    ghost as_written = { λ row. refl };

    ghost no_float = { λ row. refl };
}

/// Makes the object of the member of staff, with the member's whole name.
fn staff_object<'a>(alloc: Global, row: &'a ListedStaff, name: &'a str) -> Result<Value, AllocError>
    ensures { IfOk result (λ v. view v ≡ staff_data (person_as row.now.number name.now row.now.person)) }
{
    let person = &row.person;
    object_of(
        alloc,
        &[
            Field::Text("address", person.address.as_str()),
            Field::Number("branch", person.branch.get() as u64),
            Field::Text("city", person.city.as_str()),
            Field::Text("country", person.country.as_str()),
            Field::Number("id", row.number.get() as u64),
            Field::Text("name", name),
            Field::Text("phone", person.phone.as_str()),
            Field::Text("postal", person.postal.as_str()),
        ],
    )
}

/// A member of staff of `staff_list`, as an object. `id` is the member's number.
impl ListedRow for ListedStaff {
    ghost json = { λ row. staff_data (seen_staff row) };

    ghost written = { λ row. person_text [] (seen_staff row) };

    fn value(alloc: Global, row: &ListedStaff) -> Result<Value, AllocError> {
        let name = PersonName::text(alloc, &row.person.name)?;
        staff_object(alloc, row, name.as_str())
    }

    ghost as_written = { λ row. refl };

    ghost no_float = { λ row. refl };
}
