ghost use Rattle.std.specs.Prelude.{◌≡◌, true, IfOk, string_bytes};
ghost use Rattle.shop_model.specs.Answers.{problem_answer, accepted_answer, problem_text};
ghost use Rattle.shop_types.specs.Seen.{seen_refusal};
ghost use Rattle.shop_types.specs.Replies.{body_bytes, seen_reply, has_fixed_body};

use crate::{BadCsv, NoMemory, Refusal};
use std::alloc::Global;

/// The body of a reply: a JSON text (RFC 8259).
#[derive(Drop)]
pub enum Body {
    Text(String),
    /// A text that is in the program, and so takes no memory.
    Fixed(&'static str),
}

/// The reply to a caller.
#[derive(Drop)]
pub struct Reply {
    /// A status of RFC 9110.
    pub status: u16,
    pub body: Body,
}

impl Reply {
    /// Returns the bytes of the body.
    pub fn body_bytes(&self) -> &[u8]
        ensures { result.now ≡ body_bytes self.now.body }
    {
        match &self.body {
            Body::Text(text) => text.as_bytes(),
            Body::Fixed(text) => text.as_bytes(),
        }
    }

    /// Returns the reply to what was done or read, with its body.
    pub fn accepted(body: String) -> Reply
        ensures { seen_reply result ≡ accepted_answer (string_bytes body) }
    {
        Reply {
            status: 200,
            body: Body::Text(body),
        }
    }

    /// Returns the reply to what is refused. It takes no memory. If a stock file is at fault, `bad_csv` makes the
    /// reply.
    pub fn refused(refusal: Refusal) -> Reply
        requires { has_fixed_body refusal ≡ true }
        ensures { seen_reply result ≡ problem_answer (seen_refusal refusal) }
    {
        Reply {
            status: refusal.status(),
            body: Body::Fixed(fixed_body(refusal)),
        }
    }

    /// Returns the reply to a stock file that is at fault, with the line in its body.
    #[tactic(auto, unfolding(shop_model::specs::Json::escape_byte))]
    pub fn bad_csv(alloc: Global, fault: BadCsv) -> Result<Reply, NoMemory>
        ensures { IfOk result (λ reply. seen_reply reply ≡ problem_answer (seen_refusal (Refusal.BadCsv fault))) }
    {
        let body = format!(in alloc; "{{\"line\":{},\"refused\":\"bad_csv\"}}", fault.line)?;
        Ok(Reply {
            status: Refusal::BadCsv(fault).status(),
            body: Body::Text(body),
        })
    }
}

/// Returns the body of a refusal's reply.
#[tactic(auto, using(crate::proofs::ReplyLemmas::fixed_text))]
fn fixed_body(refusal: Refusal) -> &'static str
    requires { has_fixed_body refusal ≡ true }
    ensures { result.now ≡ problem_text (seen_refusal refusal) }
{
    match refusal {
        Refusal::BadHead => "{\"refused\":\"bad_head\"}",
        Refusal::TooLong => "{\"refused\":\"too_long\"}",
        Refusal::NoCounter => "{\"refused\":\"no_counter\"}",
        Refusal::NoRoute => "{\"refused\":\"no_route\"}",
        Refusal::BadBody => "{\"refused\":\"bad_body\"}",
        Refusal::KeyUsed => "{\"refused\":\"key_used\"}",
        Refusal::Full => "{\"refused\":\"full\"}",
        Refusal::MomentBack => "{\"refused\":\"moment_back\"}",
        Refusal::NoStaff => "{\"refused\":\"no_staff\"}",
        Refusal::NoCustomer => "{\"refused\":\"no_customer\"}",
        Refusal::CustomerInactive => "{\"refused\":\"customer_inactive\"}",
        Refusal::NoCopy => "{\"refused\":\"no_copy\"}",
        Refusal::CopyNotHere => "{\"refused\":\"copy_not_here\"}",
        Refusal::CopyOut => "{\"refused\":\"copy_out\"}",
        Refusal::FilmWithdrawn => "{\"refused\":\"film_withdrawn\"}",
        Refusal::SameMoment => "{\"refused\":\"same_moment\"}",
        Refusal::NoRental => "{\"refused\":\"no_rental\"}",
        Refusal::RentalReturned => "{\"refused\":\"rental_returned\"}",
        Refusal::WrongCustomer => "{\"refused\":\"wrong_customer\"}",
        Refusal::NoFilm => "{\"refused\":\"no_film\"}",
        Refusal::LotIn => "{\"refused\":\"lot_in\"}",
        Refusal::BadCsv(_) => unreachable!(),
        Refusal::NoBranch => "{\"refused\":\"no_branch\"}",
        Refusal::OwnBranch => "{\"refused\":\"own_branch\"}",
        Refusal::NoArrival => "{\"refused\":\"no_arrival\"}",
        Refusal::ArrivalReceived => "{\"refused\":\"arrival_received\"}",
        Refusal::BadLines => "{\"refused\":\"bad_lines\"}",
        Refusal::BadThreshold => "{\"refused\":\"bad_threshold\"}",
        Refusal::TokenTaken => "{\"refused\":\"token_taken\"}",
        Refusal::NoSharedRow => "{\"refused\":\"no_shared_row\"}",
        Refusal::Already => "{\"refused\":\"already\"}",
        Refusal::Usage => "{\"refused\":\"usage\"}",
        Refusal::Memory => "{\"refused\":\"memory\"}",
        Refusal::Size => "{\"refused\":\"size\"}",
        Refusal::StoreFailed => "{\"refused\":\"store_failed\"}",
    }
}
