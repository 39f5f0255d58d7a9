//! Reads the refusal in a reply.

ghost use Rattle.std.specs.Prelude.{◌≡◌, ◌↔◌, ℕ, ◌<◌, ◌^◌, ◌++◌, List, true, IsTrue, IfSome, IfNone, decimal};
ghost use Rattle.shop_types.specs.Replies.{has_fixed_body};
ghost use Rattle.shop_types.specs.declared.refusal.Refusal.{Refusal as Problem};
ghost use Rattle.till_shows.specs.Refused.{refusal_of, HasRefusal, line_start, line_end, line_body, has_short_line};

use shop_types::{BadCsv, LineNo, Refusal, Reply};

/// Returns the refusal with this number. A stock file's refusal, which names a line, has no number here.
fn refusal_of(number: u8) -> Option<Refusal>
    ensures value { result ≡ refusal_of number }
    ensures fixed { IfSome result (λ it. has_fixed_body it ≡ true) }
{
    let refusal = match number {
        1 => Refusal::BadHead,
        2 => Refusal::TooLong,
        3 => Refusal::NoCounter,
        4 => Refusal::NoRoute,
        5 => Refusal::BadBody,
        6 => Refusal::KeyUsed,
        7 => Refusal::Full,
        8 => Refusal::MomentBack,
        9 => Refusal::NoStaff,
        10 => Refusal::NoCustomer,
        11 => Refusal::CustomerInactive,
        12 => Refusal::NoCopy,
        13 => Refusal::CopyNotHere,
        14 => Refusal::CopyOut,
        15 => Refusal::FilmWithdrawn,
        16 => Refusal::SameMoment,
        17 => Refusal::NoRental,
        18 => Refusal::RentalReturned,
        19 => Refusal::WrongCustomer,
        20 => Refusal::NoFilm,
        21 => Refusal::LotIn,
        23 => Refusal::NoBranch,
        24 => Refusal::OwnBranch,
        25 => Refusal::NoArrival,
        26 => Refusal::ArrivalReceived,
        27 => Refusal::BadLines,
        28 => Refusal::BadThreshold,
        29 => Refusal::TokenTaken,
        30 => Refusal::NoSharedRow,
        31 => Refusal::Already,
        32 => Refusal::Usage,
        40 => Refusal::Memory,
        41 => Refusal::Size,
        42 => Refusal::StoreFailed,
        _ => return None,
    };
    Some(refusal)
}

fn tells(status: u16, body: &[u8], refusal: Refusal) -> bool
    requires { has_fixed_body refusal ≡ true }
    ensures { IsTrue result ↔ HasRefusal status body.now refusal }
{
    let reply = Reply::refused(refusal);
    status == reply.status && body == reply.body_bytes()
}

/// Returns the refusal in a reply that says no more than the refusal's name.
fn named(status: u16, body: &[u8]) -> Option<Refusal>
    ensures some { IfSome result (λ it. HasRefusal status body.now it) }
    ensures none { IfNone result ((it : Problem) → has_fixed_body it ≡ true → ¬ HasRefusal status body.now it) }
{
    for number in 0..43 {
        if let Some(refusal) = refusal_of(number) {
            if tells(status, body, refusal) {
                return Some(refusal);
            }
        }
    }
    None
}

/// Returns the number that the digits write, if they have no leading zero.
fn number_in(digits: &[u8]) -> Option<u32>
    ensures some { IfSome result (λ n. digits.now ≡ decimal n) }
    ensures none { IfNone result ((n : ℕ) → n < 2 ^ 32 → ¬ (digits.now ≡ decimal n)) }
{
    if digits == b"0".as_slice() {
        return Some(0);
    }
    match LineNo::read(digits) {
        Some(number) => Some(number.get()),
        None => None,
    }
}

/// Returns the body's text between the start and the end that the reply to a stock file at fault has.
fn digits_in(body: &[u8]) -> Option<&[u8]>
    ensures some { IfSome result (λ digits. body.now ≡ line_start ++ (digits.now ++ line_end)) }
    ensures none { IfNone result ((digits : List ℕ) → ¬ (body.now ≡ line_start ++ (digits ++ line_end))) }
{
    let rest = body.strip_prefix(b"{\"line\":".as_slice())?;
    rest.strip_suffix(b",\"refused\":\"bad_csv\"}".as_slice())
}

/// Returns the line that the body names, if it is the body of the reply to a stock file at fault.
fn line_in(body: &[u8]) -> Option<u32>
    ensures some { IfSome result (λ line. body.now ≡ line_body line) }
    ensures none { IfNone result ((line : ℕ) → line < 2 ^ 32 → ¬ (body.now ≡ line_body line)) }
{
    match digits_in(body) {
        Some(digits) => number_in(digits),
        None => None,
    }
}

/// Returns the refusal in a reply. Finds one exactly if the status and the body are, byte for byte, what the server
/// sends for that refusal. A stock file's line is found if it is below 2 ^ 32.
pub fn refusal_in(status: u16, body: &[u8]) -> Option<Refusal>
    ensures some { IfSome result (λ it. HasRefusal status body.now it) }
    ensures none { IfNone result ((it : Problem) → has_short_line it ≡ true → ¬ HasRefusal status body.now it) }
{
    if let Some(refusal) = named(status, body) {
        return Some(refusal);
    }
    match line_in(body) {
        Some(line) if status == 409 => Some(Refusal::BadCsv(BadCsv { line })),
        _ => None,
    }
}
