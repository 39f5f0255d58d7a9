use crate::{BranchNo, CityNo, CountryNo, L45, Person, T45, T128, Token};

/// A city of a country.
#[derive(Drop)]
pub struct City {
    pub name: T45,
    pub country: CountryNo,
}

/// Who plays in films.
#[derive(Drop)]
pub struct Actor {
    pub first: T45,
    pub last: T45,
}

/// A branch that head office adds. It has no manager.
#[derive(Drop)]
pub struct Branch {
    /// By which its counter is known.
    pub token: Token,
    pub address: T128,
    /// The postal code, which may be empty.
    pub postal: L45,
    /// The telephone number, which may be empty.
    pub phone: L45,
    pub city: CityNo,
}

/// A member of staff whom head office adds. Who is new hasn't left.
#[derive(Drop)]
pub struct Staff {
    pub branch: BranchNo,
    pub person: Person,
}
