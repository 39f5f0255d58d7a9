ghost use Rattle.std.specs.Prelude.{◌≡◌, ℕ, List, true, Some, None, if◌then◌else◌};
ghost use Rattle.std.specs.String.{string_bytes};
ghost use Rattle.std.specs.Str.{bytes_eq};
ghost use Rattle.std.specs.List.{list_all};
ghost use Rattle.std.specs.Cmp.Rules.{comparing};
ghost use Rattle.std.proofs.Common.{rules};
ghost use Rattle.shop_types.specs.Texts.{is_key, is_key_byte};

use std::marker::Model;

/// A name that a counter chooses: 1 to 40 ASCII letters, digits or hyphens. KIND says of what, so that two kinds
/// don't mix.
#[derive(Drop)]
pub struct Name<const KIND: u8> {
    text: String,
}

/// The key of a command, by which a command that is sent again is known.
pub type Key = Name<1>;

/// The name of a lot of copies that came in together.
pub type LotName = Name<2>;

impl<const KIND: u8> Model for Name<KIND> {
    ghost use Rattle.std.specs.Prelude.{◌≡◌, ℕ, List, true};
    ghost use Rattle.std.specs.String.{string_bytes};
    ghost use Rattle.shop_types.specs.Texts.{is_key};

    ghost Value = { List ℕ };

    ghost view = { λ a. string_bytes a.text };

    ghost invariant = { λ a. is_key (string_bytes a.text) ≡ true };
}

fn is_byte_of_key(b: u8) -> bool
    ensures { result ≡ is_key_byte b }
{
    b.is_ascii_alphanumeric() || b == b'-'
}

fn all_of_key(bytes: &[u8]) -> bool
    ensures { result ≡ list_all is_key_byte bytes.now }
{
    bytes.iter().all(|b| is_byte_of_key(*b))
}

fn fits(text: &str) -> bool
    ensures { result ≡ is_key text.now }
{
    let bytes = text.as_bytes();
    1 <= bytes.len() && bytes.len() <= 40 && all_of_key(bytes)
}

impl<const KIND: u8> Name<KIND> {
    /// Returns the name, if the text is one. It takes the `String`, and so no memory.
    pub fn read(text: String) -> Option<Name<KIND>>
        ensures { result ≡ (if is_key (string_bytes text) then Some (string_bytes text) else None) }
    {
        if fits(text.as_str()) {
            Some(Name { text })
        } else {
            None
        }
    }

    pub fn as_str(&self) -> &str
        ensures value { result.now ≡ self.now }
        ensures kind { is_key self.now ≡ true }
    {
        self.text.as_str()
    }
}

impl<const KIND: u8> PartialEq for Name<KIND> {
    ghost eq = { bytes_eq };

    ghost laws = { Prim.search (comparing, rules) };

    fn eq(&self, other: &Name<KIND>) -> bool {
        self.text == other.text
    }
}

impl<const KIND: u8> Eq for Name<KIND> {
    ghost laws = { Prim.search (comparing, rules) };
}
