//! The secret that a desk shares with its windows.

ghost use Rattle.std.specs.Prelude.{◌≡◌, true, Some, None, IfOk, if◌then◌else◌};
ghost use Rattle.shop_types.specs.Texts.{is_token};
ghost use Rattle.till_program.specs.Secrets.{IsDrawnSecret};

use shop_types::Token;
use std::io;
use std::marker::Model;
use till_requests::Dice;

/// A desk's secret: 32 digits of lower-case hexadecimal.
#[derive(Clone, Copy)]
pub struct Secret {
    digits: Token,
}

impl Model for Secret {
    ghost use Rattle.std.specs.Prelude.{◌≡◌, ℕ, List, true};
    ghost use Rattle.shop_types.specs.Texts.{is_token};

    ghost Value = { List ℕ };

    ghost view = { λ a. a.digits };

    ghost invariant = { λ a. is_token a.digits ≡ true };

    ghost inverse = { λ digits. record { digits = digits } };
}

impl Secret {
    /// Returns the secret that the bytes write.
    pub fn read(bytes: &[u8]) -> Option<Secret>
        ensures { result ≡ (if is_token bytes.now then Some bytes.now else None) }
    {
        match Token::read(bytes) {
            Some(digits) => Some(Secret { digits }),
            None => None,
        }
    }

    pub fn as_bytes(&self) -> &[u8; 32]
        ensures value { result.now ≡ self.now }
        ensures kind { is_token self.now ≡ true }
    {
        self.digits.as_bytes()
    }

    /// Draws a new secret, one of 2^128.
    pub fn draw<D: Dice>(dice: &D) -> io::Result<Secret>
        ensures { IfOk result (λ secret. IsDrawnSecret (D.draws dice.now) secret) }
    {
        let (a, b) = (dice.draw()?, dice.draw()?);
        let bytes = [
            a[0], a[1], a[2], a[3], a[4], a[5], a[6], a[7], a[8], a[9], b[0], b[1], b[2], b[3],
            b[4], b[5],
        ];
        let mut digits = [0u8; 32];
        if hex::encode_to_slice(bytes, &mut digits).is_err() {
            return Err(io::Error::from(io::ErrorKind::Other));
        }
        match Secret::read(digits.as_slice()) {
            Some(secret) => Ok(secret),
            None => Err(io::Error::from(io::ErrorKind::Other)),
        }
    }
}

/// Tests whether two secrets are equal. It looks at each byte of both, wherever they differ.
pub fn is_same(one: &[u8; 32], two: &[u8; 32]) -> bool
    ensures same { one.now ≡ two.now → result ≡ true }
    ensures differs { result ≡ true → one.now ≡ two.now }
{
    let mut differences = 0u8;
    for at in 0..32 {
        differences |= one[at] ^ two[at];
    }
    differences == 0
}
