ghost use Rattle.std.specs.Prelude.{◌≡◌, ◌≤◌, ℕ, List, Some, None, length, if◌then◌else◌};
ghost use Rattle.shop_types.specs.StockFiles.{is_stock_file};

use std::marker::Model;

/// A stock file, as it came and whatever it says: at most 65,536 bytes, which is what the body of a request can have.
#[derive(Drop)]
pub struct StockFile {
    bytes: Vec<u8>,
}

impl Model for StockFile {
    ghost use Rattle.std.specs.Prelude.{◌≡◌, ℕ, List, true};
    ghost use Rattle.shop_types.specs.StockFiles.{is_stock_file};

    ghost Value = { List ℕ };

    ghost view = { λ a. a.bytes.items };

    ghost invariant = { λ a. is_stock_file a.bytes.items ≡ true };
}

impl StockFile {
    /// Returns the file, if it has no more than 65,536 bytes. It takes the `Vec`, and so no memory.
    pub fn new(bytes: Vec<u8>) -> Option<StockFile>
        ensures { result ≡ (if is_stock_file bytes.items then Some bytes.items else None) }
    {
        if bytes.len() <= 65_536 {
            Some(StockFile { bytes })
        } else {
            None
        }
    }

    pub fn as_slice(&self) -> &[u8]
        ensures value { result.now ≡ self.now }
        ensures bound { length result.now ≤ 65_536 }
    {
        self.bytes.as_slice()
    }
}
