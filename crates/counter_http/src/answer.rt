//! One message and its answer.
ghost use Rattle.std.specs.Prelude.{◌≡◌, true, false};
ghost use Rattle.http_messages.specs.Shown.{message_of};
ghost use Rattle.shop_types.specs.Replies.{seen_reply};
ghost use Rattle.shop_model.specs.Books.{Books};
ghost use Rattle.shop_model.specs.Histories.{is_store_failure};
ghost use Rattle.chain_requests.specs.Holding.{holding};
ghost use Rattle.chain_requests.specs.Chains.{Takes};
ghost use Rattle.branch_reports.specs.Told.{IsTold};
ghost use Rattle.shop_types.specs.Seen.{seen_caller};
ghost use Rattle.counter_http.specs.Events.{known_token, AnswersNobody, AnswersMessage};
ghost use Rattle.counter_http.specs.Reads.{HasFixedBody, IsDecided, AnswersRead};

use chain_engine::Chain;
use counter_routes::{Reading, Routes};
use http_messages::Request;
use shop_types::{Caller, NoMemory, OfficeWords, Refusal, Reply, Token};
use sqlite::Alter;
use std::alloc::Global;

/// Returns the token that came with the message, if it is a well-formed token.
fn token_of(message: &Request<'_>) -> Option<Token>
    ensures { result ≡ known_token (message_of message.now).token }
{
    match message.token {
        Some(digits) => Token::read(digits),
        None => None,
    }
}

/// Returns the chain's reply to somebody who sent no token, whatever is asked.
fn answer_nobody<S: Alter>(chain: &Chain<S>) -> Reply
    ensures answered { (books besides : Books)
        → AnswersNobody (seen_reply result) (holding chain.now books besides) (holding chain.now books besides) }
    ensures told { IsTold (seen_reply result) }
    ensures fails { chain.now.is_failed ≡ is_store_failure (seen_reply result) }
{
    if chain.is_failed() {
        Reply::refused(Refusal::StoreFailed)
    } else {
        Reply::refused(Refusal::NoCounter)
    }
}

/// Returns the chain's reply to a caller's message, as it was read.
fn answer_read<S: Alter>(
    chain: &mut Chain<S>,
    caller: &Caller,
    read: &Result<Reading, NoMemory>,
) -> Reply
    requires fine { chain.old.is_failed ≡ false }
    requires fixed { HasFixedBody read.now }
    requires decided { IsDecided read.now }
    ensures taken { Takes S.Store chain.old chain.new
        (AnswersRead (seen_caller caller.now) read.now (seen_reply result)) }
    ensures told { IsTold (seen_reply result) }
    ensures fails { chain.new.is_failed ≡ is_store_failure (seen_reply result) }
{
    match read {
        Ok(Reading::Asked(request)) => chain.answer(caller, request),
        Ok(Reading::Refused(refusal)) => Reply::refused(*refusal),
        Err(_) => Reply::refused(Refusal::Memory),
    }
}

/// Returns the chain's reply to a message. Looks for the caller before it reads what the message asks. If the store
/// can't do its part, the reply is its refusal. A chain that has failed stays as it is: its store isn't asked.
pub fn answer<O: OfficeWords, S: Alter>(
    alloc: Global,
    chain: &mut Chain<S>,
    routes: &Routes,
    words: &O,
    message: &Request<'_>,
) -> Reply
    ensures taken { Takes S.Store chain.old chain.new
        (AnswersMessage (O.meaning words.now) (message_of message.now) (seen_reply result)) }
    ensures told { IsTold (seen_reply result) }
    ensures fails { chain.new.is_failed ≡ is_store_failure (seen_reply result) }
    ensures failed { chain.old.is_failed ≡ true → chain.new ≡ chain.old }
{
    let Some(token) = token_of(message) else {
        return answer_nobody(chain);
    };
    match chain.caller(&token) {
        Ok(caller) => {
            let read = routes.read(alloc, words, message, caller);
            let reply = answer_read(chain, &caller, &read);
            drop(read);
            reply
        }
        Err(refusal) => Reply::refused(refusal),
    }
}
