ghost use Rattle.std.specs.Prelude.{◌≡◌, ℕ, ◌≤◌, ◌<◌, ◌^◌, ◌==◌, Some, None, if◌then◌else◌};
ghost use Rattle.shop_types.specs.Numbers.{row_number_of};

use crate::digits::decimal;
use std::marker::Model;

/// The number of a row, from 1 to 4,294,967,295. KIND names the table, so that the numbers of two tables don't mix.
#[derive(Clone, Copy, PartialEq, Eq, PartialOrd, Ord)]
pub struct RowNumber<const KIND: u8>(u32);

pub type BranchNo = RowNumber<1>;

pub type StaffNo = RowNumber<2>;

pub type CustomerNo = RowNumber<3>;

pub type CopyNo = RowNumber<4>;

pub type RentalNo = RowNumber<5>;

pub type PaymentNo = RowNumber<6>;

pub type FilmNo = RowNumber<7>;

pub type CityNo = RowNumber<8>;

pub type CountryNo = RowNumber<9>;

pub type LanguageNo = RowNumber<10>;

pub type CategoryNo = RowNumber<11>;

pub type ActorNo = RowNumber<12>;

pub type ConsignmentNo = RowNumber<13>;

pub type LineNo = RowNumber<14>;

impl<const KIND: u8> Model for RowNumber<KIND> {
    ghost use Rattle.std.specs.Prelude.{ℕ, ◌≤◌};

    ghost Value = { ℕ };

    ghost view = { λ a. a.0 };

    ghost invariant = { λ a. 1 ≤ a.0 };

    ghost inverse = { λ n. record { 0 = n } };
}

impl<const KIND: u8> RowNumber<KIND> {
    /// Returns the number, or none if it is 0.
    pub fn new(number: u32) -> Option<RowNumber<KIND>>
        ensures { result ≡ (if number == 0 then None else Some number) }
    {
        if number == 0 {
            None
        } else {
            Some(RowNumber(number))
        }
    }

    pub fn get(self) -> u32
        ensures value { result ≡ self.entry }
        ensures bound { 1 ≤ result }
    {
        self.0
    }

    /// Returns the number that the bytes write in decimal: 1 to 10 ASCII digits, no leading zero, no sign.
    pub fn read(digits: &[u8]) -> Option<RowNumber<KIND>>
        ensures { result ≡ row_number_of digits.now }
    {
        if digits.len() > 10 {
            return None;
        }
        let number = decimal(digits)?;
        if digits[0] == b'0' || number > 4_294_967_295 {
            return None;
        }
        RowNumber::new(number as u32)
    }
}
