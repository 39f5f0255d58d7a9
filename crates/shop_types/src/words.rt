ghost use Rattle.std.specs.Prelude.{◌≡◌, ℕ, List, Option, Some, None, IfOk, IfErr, map, string_bytes};
ghost use Rattle.shop_types.specs.Lines.{LineValue, seen_line};

use crate::{Line, Usage};

/// Reads head office's words. What it reads is a function of the words, except when out of memory.
pub trait OfficeWords {
    // what the words say, where they are a line
    ghost meaning: { Self → List (List ℕ) → Option LineValue };

    /// Returns the line that the words are, without the program's name.
    fn read(&self, words: &[String]) -> Result<Line, Usage>
        ensures ok { IfOk result (λ line. meaning self.now (map string_bytes words.now) ≡ Some (seen_line line)) }
        ensures refused { IfErr result (λ e. ¬ (e ≡ Usage.Memory)
            → meaning self.now (map string_bytes words.now) ≡ None) };
}
