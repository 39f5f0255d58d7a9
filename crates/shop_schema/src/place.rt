//! Where a consignment stands in the order of dispatch.

ghost use Rattle.std.specs.Prelude.{◌≡◌, ◌<◌, ◌^◌, ◌&&◌, nat_lt, if◌then◌else◌, Some, None};
ghost use Rattle.sqlite_value.specs.Value.{owned};
ghost use Rattle.sql_rows.specs.Rows.{number_value};
ghost use Rattle.shop_schema.specs.RowValues.{IsPlace};

use sqlite::types::ValueRef;
use std::marker::Model;

/// The place of a consignment in the order of dispatch over the whole chain, from 1 on.
#[derive(Clone, Copy, PartialEq, Eq)]
pub struct DispatchPlace(u64);

impl Model for DispatchPlace {
    ghost use Rattle.std.specs.Prelude.{ℕ, ◌≤◌, ◌<◌, ◌^◌};

    ghost Value = { ℕ };

    ghost view = { λ a. a.0 };

    ghost invariant = { λ a. (1 ≤ a.0) × (a.0 < 2 ^ 63) };

    ghost inverse = { λ n. record { 0 = n } };
}

impl DispatchPlace {
    /// Returns the place, if it is from 1 on and a column can hold it.
    pub fn new(place: u64) -> Option<DispatchPlace>
        ensures { result ≡ (if nat_lt 0 place && nat_lt place (2 ^ 63) then Some place else None) }
    {
        if place > 0 && place < 9_223_372_036_854_775_808 {
            Some(DispatchPlace(place))
        } else {
            None
        }
    }

    pub fn get(self) -> u64
        ensures value { result ≡ self }
        ensures bound { IsPlace result }
    {
        self.0
    }

    /// Returns the place as a parameter.
    pub fn value(self) -> ValueRef<'static>
        ensures { owned result ≡ number_value self }
    {
        ValueRef::Int(self.0 as i64)
    }
}
