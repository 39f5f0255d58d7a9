//! A till's mark. It makes the keys of the till's commands its own.

ghost use Rattle.std.specs.Prelude.{◌≡◌, ⊤, ℕ, List, true, Some, None, IfOk, if◌then◌else◌};
ghost use Rattle.std.specs.List.{list_all};
ghost use Rattle.till_requests.specs.Marks.{is_mark, is_mark_letter, letter_of, IsDrawnMark};

use std::io;
use std::marker::Model;
use std::random::RandomSource;

/// A till's mark: `t` and ten letters from `a` to `p`. A key is the mark, a hyphen and an entry's number.
#[derive(Clone, Copy, PartialEq, Eq)]
pub struct TillMark {
    letters: [u8; 11],
}

impl Model for TillMark {
    ghost use Rattle.std.specs.Prelude.{◌≡◌, ℕ, List, true};
    ghost use Rattle.till_requests.specs.Marks.{is_mark};

    ghost Value = { List ℕ };

    ghost view = { λ a. a.letters };

    ghost invariant = { λ a. is_mark a.letters ≡ true };

    ghost inverse = { λ letters. record { letters = letters } };
}

fn is_letter_of_mark(b: u8) -> bool
    ensures { result ≡ is_mark_letter b }
{
    b >= b'a' && b <= b'p'
}

fn all_of_mark(bytes: &[u8]) -> bool
    ensures { result ≡ list_all is_mark_letter bytes.now }
{
    bytes.iter().all(|b| is_letter_of_mark(*b))
}

impl TillMark {
    /// Reads a mark from the bytes.
    pub fn read(bytes: &[u8]) -> Option<TillMark>
        ensures { result ≡ (if is_mark bytes.now then Some bytes.now else None) }
    {
        match <[u8; 11]>::try_from(bytes) {
            Ok(letters) => {
                if bytes[0] == b't' && all_of_mark(&bytes[1..]) {
                    Some(TillMark { letters })
                } else {
                    None
                }
            }
            Err(_) => None,
        }
    }

    pub fn as_str(&self) -> &str
        ensures value { result.now ≡ self.now }
        ensures kind { is_mark self.now ≡ true }
    {
        std::str::from_utf8(self.letters.as_slice()).unwrap()
    }

    pub fn as_bytes(&self) -> &[u8; 11]
        ensures value { result.now ≡ self.now }
        ensures kind { is_mark self.now ≡ true }
    {
        &self.letters
    }
}

/// A source of random bytes. What it draws is its own: no other bytes can be said to be drawn.
pub trait Dice {
    // these bytes were drawn
    ghost draws: { Self → List ℕ → Type 0 };

    /// Draws ten bytes.
    fn draw(&self) -> io::Result<[u8; 10]>
        ensures { IfOk result (λ bytes. draws self.now bytes) };
}

impl Dice for HostRuntime {
    // nothing is known of the system's randomness
    ghost draws = { λ _ _. ⊤ };

    fn draw(&self) -> io::Result<[u8; 10]> {
        let mut bytes = [0u8; 10];
        self.fill_bytes(&mut bytes)?;
        Ok(bytes)
    }
}

/// Returns a letter from `a` to `p`, by the byte's low four bits.
fn letter(byte: u8) -> u8
    ensures { result ≡ letter_of byte }
{
    b'a' + byte % 16
}

/// Draws a new mark, one of 2^40.
pub fn new_mark<D: Dice>(dice: &D) -> io::Result<TillMark>
    ensures { IfOk result (λ mark. IsDrawnMark (D.draws dice.now) mark) }
{
    let b = dice.draw()?;
    let (one, two, three, four, five) = (b[0], b[1], b[2], b[3], b[4]);
    let (six, seven, eight, nine, ten) = (b[5], b[6], b[7], b[8], b[9]);
    let letters = [
        b't',
        letter(one),
        letter(two),
        letter(three),
        letter(four),
        letter(five),
        letter(six),
        letter(seven),
        letter(eight),
        letter(nine),
        letter(ten),
    ];
    match TillMark::read(&letters) {
        Some(mark) => Ok(mark),
        None => Err(io::Error::from(io::ErrorKind::Other)),
    }
}
