ghost use Rattle.std.specs.Prelude.{◌≡◌};
ghost use Rattle.shop_model.specs.Calendar.{moment_text};

use shop_types::Moment;
use std::marker::Model;

/// The text of a moment, as it is in a column.
#[derive(Drop)]
pub struct MomentText {
    bytes: [u8; 19],
}

impl Model for MomentText {
    ghost use Rattle.std.specs.Prelude.{ℕ, List, IsUtf8};

    ghost Value = { List ℕ };

    ghost view = { λ a. a.bytes };

    ghost invariant = { λ a. IsUtf8 a.bytes };
}

impl MomentText {
    /// Returns the text of the moment. It takes no memory.
    pub fn of(moment: Moment) -> MomentText
        ensures { result ≡ moment_text moment }
    {
        MomentText {
            bytes: moment.text(),
        }
    }

    /// Returns the 19 bytes, as a text.
    pub fn as_str(&self) -> &str
        ensures { result.now ≡ self.now }
    {
        std::str::from_utf8(self.bytes.as_slice()).unwrap()
    }
}
