ghost use Rattle.std.specs.Prelude.{◌≡◌, ℕ, List, true, Some, None, if◌then◌else◌};
ghost use Rattle.std.specs.String.{string_bytes};
ghost use Rattle.std.specs.Str.{bytes_eq};
ghost use Rattle.std.specs.List.{list_all};
ghost use Rattle.std.specs.Cmp.Rules.{comparing};
ghost use Rattle.std.proofs.Common.{rules};
ghost use Rattle.shop_types.specs.Texts.{is_text, is_printed};

use std::marker::Model;

/// A text of LOW to HIGH bytes of UTF-8 with no control byte, which is one below 32, or 127.
#[derive(Clone, Drop)]
pub struct Text<const LOW: usize, const HIGH: usize> {
    text: String,
}

/// A name or another short text that must be there.
pub type T45 = Text<1, 45>;

/// A title or an address.
pub type T128 = Text<1, 128>;

/// A short text that may be empty.
pub type L45 = Text<0, 45>;

/// A long text that may be empty.
pub type L500 = Text<0, 500>;

impl<const LOW: usize, const HIGH: usize> Model for Text<LOW, HIGH> {
    ghost use Rattle.std.specs.Prelude.{◌≡◌, ℕ, List, true};
    ghost use Rattle.std.specs.String.{string_bytes};
    ghost use Rattle.shop_types.specs.Texts.{is_text};

    ghost Value = { List ℕ };

    ghost view = { λ a. string_bytes a.text };

    ghost invariant = { λ a. is_text LOW HIGH (string_bytes a.text) ≡ true };
}

fn is_printed_byte(b: u8) -> bool
    ensures { result ≡ is_printed b }
{
    b >= 32 && b != 127
}

fn all_printed(bytes: &[u8]) -> bool
    ensures { result ≡ list_all is_printed bytes.now }
{
    bytes.iter().all(|b| is_printed_byte(*b))
}

fn fits(text: &str, low: usize, high: usize) -> bool
    ensures { result ≡ is_text low high text.now }
{
    let bytes = text.as_bytes();
    low <= bytes.len() && bytes.len() <= high && all_printed(bytes)
}

impl<const LOW: usize, const HIGH: usize> Text<LOW, HIGH> {
    /// Returns the text, if it is one of the kind. It takes the `String`, and so no memory.
    pub fn read(text: String) -> Option<Text<LOW, HIGH>>
        ensures { result ≡ (if is_text LOW HIGH (string_bytes text) then Some (string_bytes text) else None) }
    {
        if fits(text.as_str(), LOW, HIGH) {
            Some(Text { text })
        } else {
            None
        }
    }

    pub fn as_str(&self) -> &str
        ensures value { result.now ≡ self.now }
        ensures kind { is_text LOW HIGH self.now ≡ true }
    {
        self.text.as_str()
    }
}

impl<const LOW: usize, const HIGH: usize> PartialEq for Text<LOW, HIGH> {
    ghost eq = { bytes_eq };

    ghost laws = { Prim.search (comparing, rules) };

    fn eq(&self, other: &Text<LOW, HIGH>) -> bool {
        self.text == other.text
    }
}

impl<const LOW: usize, const HIGH: usize> Eq for Text<LOW, HIGH> {
    ghost laws = { Prim.search (comparing, rules) };
}
