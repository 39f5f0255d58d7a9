//! What a refusal means to somebody at a counter, and what to do about it.

ghost use Rattle.std.specs.Prelude.{◌≡◌, ◌++◌, codes, decimal, IfOk, string_bytes};
ghost use Rattle.till_shows.specs.Refusals.{fact_text, advice_text, refusal_text};

use shop_types::Refusal;
use std::alloc::{AllocError, Global};

/// Two plain sentences on a refusal.
#[derive(Clone, Copy)]
pub struct Sentences {
    /// What happened.
    pub fact: &'static str,
    /// What to do about it.
    pub advice: &'static str,
}

fn fact(refusal: Refusal) -> &'static str
    ensures { result.now ≡ fact_text refusal }
{
    match refusal {
        Refusal::BadHead => "The server didn't understand this till.",
        Refusal::TooLong => "What was entered is too long.",
        Refusal::NoCounter => "The server doesn't know this till.",
        Refusal::NoRoute => "The server has nothing like that for this till.",
        Refusal::BadBody => "Something in this entry isn't of the right form.",
        Refusal::KeyUsed => "Another command has this entry's number. This one wasn't done.",
        Refusal::Full => "The branch's books can take in no more.",
        Refusal::MomentBack => {
            "The branch's last command was given later than this till's clock says."
        }
        Refusal::NoStaff => "No such member of staff works at this branch.",
        Refusal::NoCustomer => "The branch has no such customer.",
        Refusal::CustomerInactive => "That customer may not rent.",
        Refusal::NoCopy => "The branch has no such copy.",
        Refusal::CopyNotHere => "That copy was sent to another branch or scrapped.",
        Refusal::CopyOut => "A customer has that copy.",
        Refusal::FilmWithdrawn => "That film is withdrawn.",
        Refusal::SameMoment => "The customer rented that copy at this very moment before.",
        Refusal::NoRental => "The branch has no such rental.",
        Refusal::RentalReturned => "That rental was returned before.",
        Refusal::WrongCustomer => "That rental is another customer's.",
        Refusal::NoFilm => "There is no such film.",
        Refusal::LotIn => "The branch has a lot of that name.",
        Refusal::BadCsv(_) => "The stock file is at fault.",
        Refusal::NoBranch => "There is no such branch.",
        Refusal::OwnBranch => "A branch sends nothing to itself.",
        Refusal::NoArrival => "No such consignment was sent to this branch.",
        Refusal::ArrivalReceived => "That consignment was received before.",
        Refusal::BadLines => "The copies or the lines that were named don't fit.",
        Refusal::BadThreshold => "A threshold is nothing.",
        Refusal::TokenTaken => "Somebody else has that token.",
        Refusal::NoSharedRow => "There is no such country, city, language, category or actor.",
        Refusal::Already => "What was asked for is so already.",
        Refusal::Usage => "Those words are no command.",
        Refusal::Memory => "The server had no room for this just now.",
        Refusal::Size => "The server can't keep anything of that size.",
        Refusal::StoreFailed => "The server can't get at its books.",
    }
}

fn advice(refusal: Refusal) -> &'static str
    ensures { result.now ≡ advice_text refusal }
{
    match refusal {
        Refusal::BadHead | Refusal::TooLong | Refusal::NoRoute | Refusal::Size => {
            "Stop, and call whoever keeps the program."
        }
        Refusal::NoCounter => "Stop, and have the till's token and the server's file looked at.",
        Refusal::BadBody => "Look at it, and enter it anew in the right form.",
        Refusal::KeyUsed =>
            "Enter it again, and tell the manager that the book may be an old copy.",
        Refusal::Full => "Tell the manager.",
        Refusal::MomentBack => "Check the clock, and enter it anew.",
        Refusal::NoStaff => "Look at the number of the member of staff.",
        Refusal::NoCustomer => "Look the customer up in the list of customers.",
        Refusal::CustomerInactive => "Ask the manager.",
        Refusal::NoCopy => "Look at the number on the copy.",
        Refusal::CopyNotHere => "Put it aside, and tell the manager.",
        Refusal::CopyOut => "See who: held-by COPY.",
        Refusal::FilmWithdrawn => "Neither rent it out nor take copies of it in.",
        Refusal::SameMoment => "Wait a second, and enter it anew.",
        Refusal::NoRental => "Look at the number of the rental.",
        Refusal::RentalReturned => {
            "Ask held-by COPY before you put it away: another till may have rented it out again."
        }
        Refusal::WrongCustomer => "Look at the numbers of the customer and the rental.",
        Refusal::NoFilm => "Look the film up in the list of films.",
        Refusal::LotIn => "Give another name only where this is another box.",
        Refusal::BadCsv(_) => "Mend that line and import it again.",
        Refusal::NoBranch | Refusal::OwnBranch => "Look at the number of the branch.",
        Refusal::NoArrival => "Look at the list of arrivals.",
        Refusal::ArrivalReceived => "There is nothing to do: it is in.",
        Refusal::BadLines => {
            "Name each copy once and a hundred at most, and missing lines in rising order."
        }
        Refusal::BadThreshold => "Give thresholds above nothing.",
        Refusal::TokenTaken => "Draw another token.",
        Refusal::NoSharedRow => "Look at its number.",
        Refusal::Already => "There is nothing to do.",
        Refusal::Usage => "Look at how the command is written.",
        Refusal::Memory => "Wait a little; the till tries again by itself.",
        Refusal::StoreFailed => "Call whoever keeps the program; the till tries again by itself.",
    }
}

/// Returns what a refusal says, and what somebody at the counter does about it. Only `refusal_sentences` names a stock
/// file's line.
pub fn sentences_on(refusal: Refusal) -> Sentences
    ensures fact { result.fact.now ≡ fact_text refusal }
    ensures advice { result.advice.now ≡ advice_text refusal }
{
    Sentences {
        fact: fact(refusal),
        advice: advice(refusal),
    }
}

/// Returns both sentences. For a stock file at fault, the text names the line.
pub fn refusal_sentences(alloc: Global, refusal: Refusal) -> Result<String, AllocError>
    ensures { IfOk result (λ s. string_bytes s ≡ refusal_text refusal) }
{
    let Sentences { fact, advice } = sentences_on(refusal);
    let told = match refusal {
        Refusal::BadCsv(fault) => {
            let line = fault.line;
            format!(in alloc; "The stock file is at fault in line {line}. {advice}")?
        }
        _ => format!(in alloc; "{fact} {advice}")?,
    };
    Ok(told)
}
