ghost use Rattle.std.specs.Prelude.{◌≡◌, ℕ, List, true, Some, None, if◌then◌else◌};
ghost use Rattle.std.specs.List.{list_all};
ghost use Rattle.shop_types.specs.Texts.{is_token, is_hex_byte};

use std::marker::Model;

/// The token by which a counter shows which branch it stands in: 32 digits of lower-case hexadecimal.
#[derive(Clone, Copy, PartialEq, Eq)]
pub struct Token {
    digits: [u8; 32],
}

impl Model for Token {
    ghost use Rattle.std.specs.Prelude.{◌≡◌, ℕ, List, true};
    ghost use Rattle.shop_types.specs.Texts.{is_token};

    ghost Value = { List ℕ };

    ghost view = { λ a. a.digits };

    ghost invariant = { λ a. is_token a.digits ≡ true };

    ghost inverse = { λ digits. record { digits = digits } };
}

fn is_digit_of_token(b: u8) -> bool
    ensures { result ≡ is_hex_byte b }
{
    b.is_ascii_digit() || (b >= b'a' && b <= b'f')
}

fn all_hex(bytes: &[u8]) -> bool
    ensures { result ≡ list_all is_hex_byte bytes.now }
{
    bytes.iter().all(|b| is_digit_of_token(*b))
}

impl Token {
    /// Returns the token that the bytes write.
    pub fn read(bytes: &[u8]) -> Option<Token>
        ensures { result ≡ (if is_token bytes.now then Some bytes.now else None) }
    {
        match <[u8; 32]>::try_from(bytes) {
            Ok(digits) => {
                if all_hex(bytes) {
                    Some(Token { digits })
                } else {
                    None
                }
            }
            Err(_) => None,
        }
    }

    pub fn as_bytes(&self) -> &[u8; 32]
        ensures value { result.now ≡ self.now }
        ensures kind { is_token self.now ≡ true }
    {
        &self.digits
    }
}
