use crate::{CityNo, L45, Moment, T45, T128};

/// Who a customer or a member of staff is.
#[derive(Clone, Drop)]
pub struct Person {
    pub first: T45,
    pub last: T45,
    pub address: T128,
    /// The postal code, which may be empty.
    pub postal: L45,
    /// The telephone number, which may be empty.
    pub phone: L45,
    pub city: CityNo,
}

/// The data of a customer who is added.
#[derive(Drop)]
pub struct NewCustomer {
    pub person: Person,
}

/// A customer of a branch. Its number is that of its row.
#[derive(Drop)]
pub struct Customer {
    pub person: Person,
    /// Whether the customer may rent.
    pub active: bool,
    /// The moment of the command that added the customer.
    pub created: Moment,
}
