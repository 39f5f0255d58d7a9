ghost use Rattle.std.specs.Prelude.{◌≡◌, ◌≤◌, ℕ, List, Some, None, length, if◌then◌else◌};
ghost use Rattle.shop_types.specs.NumberLists.{is_number_list};

use crate::RowNumber;
use std::marker::Model;

/// A list of numbers of rows, in any order and whatever stands in it twice: at most 65,536, which is more than the
/// body of a request can hold.
#[derive(Drop)]
pub struct Numbers<const KIND: u8> {
    numbers: Vec<RowNumber<KIND>>,
}

/// Copies of a branch by their numbers.
pub type CopyNos = Numbers<4>;

/// Lines of a consignment by their places. The first place is 1.
pub type LineNos = Numbers<14>;

impl<const KIND: u8> Model for Numbers<KIND> {
    ghost use Rattle.std.specs.Prelude.{◌≡◌, ℕ, List, true};
    ghost use Rattle.shop_types.specs.NumberLists.{is_number_list};

    ghost Value = { List ℕ };

    ghost view = { λ a. a.numbers.items };

    ghost invariant = { λ a. is_number_list a.numbers.items ≡ true };
}

impl<const KIND: u8> Numbers<KIND> {
    /// Returns the list, if it has no more than 65,536 numbers. It takes the `Vec`, and so no memory.
    pub fn new(numbers: Vec<RowNumber<KIND>>) -> Option<Numbers<KIND>>
        ensures { result ≡ (if is_number_list numbers.entry.items then Some numbers.entry.items else None) }
    {
        if numbers.len() <= 65_536 {
            Some(Numbers { numbers })
        } else {
            None
        }
    }

    pub fn as_slice(&self) -> &[RowNumber<KIND>]
        ensures value { result.now ≡ self.now }
        ensures bound { length result.now ≤ 65_536 }
    {
        self.numbers.as_slice()
    }
}
