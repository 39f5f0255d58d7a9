//! What a window sends to a desk.

ghost use Rattle.std.specs.Prelude.{◌≡◌, ◌≤◌, ◌++◌, ◌∷◌, ℕ, List, length, IfOk, IfErr, Ok, Err, map, string_bytes};
ghost use Rattle.till_program.specs.declared.fault.NoFrame.TheVariants.{Short};
ghost use Rattle.till_program.specs.Frames as spec;
ghost use Rattle.till_program.specs.Reading.{Is, IsHeadFault, body_at};

use crate::fault::{NoFrame, NoLine};
use crate::fields::{field_of, put_field};
use crate::lines::{MOST, line_of};
use crate::secret::{Secret, is_same};
use std::alloc::Global;

/// How each frame begins.
const BEGINNING: [u8; 12] = *b"till-desk 1\n";

/// How many bytes the beginning and a secret have.
const HEAD: usize = 44;

/// Returns what follows the beginning and the secret. Nothing after the secret is looked at before it is the desk's.
fn after_head<'b>(bytes: &'b [u8], secret: &Secret) -> Result<&'b [u8], NoFrame>
    ensures found { IfOk result (λ rest. bytes.entry.now ≡ spec.beginning ++ secret.now ++ rest.now) }
    ensures why { IfErr result (IsHeadFault secret.now bytes.entry.now) }
    ensures size { length secret.now ≡ 32 }
{
    let wanted = secret.as_bytes();
    if bytes.len() < HEAD {
        return Err(NoFrame::Short);
    }
    let (beginning, rest) = bytes.split_at(12);
    if beginning != BEGINNING.as_slice() {
        return Err(NoFrame::Foreign);
    }
    let (given, rest) = rest.split_at(32);
    let Ok(given) = <[u8; 32]>::try_from(given) else {
        return Err(NoFrame::Denied);
    };
    if !is_same(&given, wanted) {
        return Err(NoFrame::Denied);
    }
    Ok(rest)
}

/// Returns the line and the file.
#[tactic(auto, unfolding(crate::specs::Reading::body_at))]
fn body_of(bytes: &[u8]) -> Result<(&[u8], &[u8]), NoFrame>
    ensures { Is (λ x. (x.0.now, x.1.now)) result (body_at bytes.now) }
{
    let (line, rest) = field_of(bytes, MOST)?;
    let (file, rest) = field_of(rest, MOST)?;
    if !rest.is_empty() {
        return Err(NoFrame::Trailing);
    }
    Ok((line, file))
}

/// Reads a frame with that secret, all of the bytes. Returns its line and its file, and fails with `Short` at a front of
/// a frame. Without that secret nothing is read: `Denied`, `Foreign`, or `Short` if the bytes end before it.
pub fn read_frame<'b>(bytes: &'b [u8], secret: &Secret) -> Result<(&'b [u8], &'b [u8]), NoFrame>
    ensures found { IfOk result (λ f. bytes.entry.now ≡ spec.frame secret.now f.0.now f.1.now) }
    ensures only { (line file : List ℕ) → length line ≤ 65_536 → length file ≤ 65_536
        → bytes.entry.now ≡ spec.frame secret.now line file → Is {Y = List ℕ × List ℕ} (λ f. (f.0.now, f.1.now)) result (Ok (line, file)) }
    ensures front { (line file more : List ℕ) (next : ℕ) → length line ≤ 65_536 → length file ≤ 65_536
        → bytes.entry.now ++ next ∷ more ≡ spec.frame secret.now line file → result ≡ Err Short }
{
    let rest = after_head(bytes, secret)?;
    body_of(rest)
}

/// Returns the frame that has the words and the file. Fails with `Form` if a word, the line or the file is too long.
pub fn frame(
    alloc: Global,
    secret: &Secret,
    words: &[String],
    file: &[u8],
) -> Result<Vec<u8>, NoLine>
    ensures written { IfOk result (λ v. v.items
        ≡ spec.frame secret.now (spec.line (map string_bytes words.now)) file.now) }
    ensures words { IfOk result (λ _. spec.AreWords (map string_bytes words.now)) }
    ensures line { IfOk result (λ _. length (spec.line (map string_bytes words.now)) ≤ 65_536) }
    ensures file { IfOk result (λ _. length file.now ≤ 65_536) }
{
    if file.len() > MOST as usize {
        return Err(NoLine::Form(NoFrame::Long));
    }
    let line = line_of(alloc, words)?;
    let mut out = Vec::from_slice(alloc, BEGINNING.as_slice())?;
    out.extend_from_slice(secret.as_bytes().as_slice())?;
    put_field(&mut out, line.as_slice())?;
    put_field(&mut out, file)?;
    Ok(out)
}
