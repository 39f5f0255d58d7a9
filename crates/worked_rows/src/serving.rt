//! Serves a connection alone or by turns, serves tills side by side, and puts requests to a chain as values. Works over
//! any store, since a call costs a fraction if the store isn't named.
use crate::values::Values;
use chain_engine::Chain;
use counter_http::{
    Connection, End, Phase, ServeFault, Switchboard, TurnFault, reply_bytes, serve,
};
use office_words::ClapWords;
use row_player::{Come, How, Pieces, Texts, Tills};
use sakila_office::{serve_listener, serve_port};
use shop_types::{BranchNo, Caller, Reply, Request, Token};
use sqlite::Alter;
use std::alloc::Global;
use std::net::TcpListener;
use std::time::Duration;

/// Returns the word for an end.
fn word_of(end: End) -> &'static str {
    match end {
        End::Closed => "closed",
        End::Cut => "cut",
        End::Asked => "asked",
        End::Limit => "limit",
        End::Refused => "refused",
        End::StoreFailed => "store_failed",
    }
}

/// Serves a connection by turns that answer so many requests each, until no turn is left.
fn serve_by_turns<S: Alter>(
    alloc: Global,
    input: &[u8],
    how: &How,
    turns: u32,
    told: &mut Texts,
    chain: &mut Chain<S>,
) {
    let Ok(board) = Switchboard::new(alloc) else {
        return told.needs(false, "no memory");
    };
    let Ok(mut connection) = Connection::new(alloc, how.most) else {
        return told.needs(false, "no memory");
    };
    let words = ClapWords { alloc };
    let mut pieces = Pieces::new(input, how);
    let mut last = Ok(Phase::Ready);
    // (a turn answers at least one request, or is the last)
    for _ in 0..=how.most {
        last = connection.advance(alloc, &mut pieces, told, chain, &board, &words, turns);
        let Ok(Phase::Ready) = last else {
            break;
        };
    }
    let answered = connection.replies();
    let (word, replies) = match last {
        // (the reply to a text that is no message counts too)
        Ok(Phase::Ended(End::Refused)) => ("refused", answered.saturating_add(1)),
        Ok(Phase::Ended(end)) => (word_of(end), answered),
        Err(TurnFault::Read) => ("read", answered),
        // (the reply to the last request isn't wholly written)
        Err(TurnFault::Write) => ("write", answered.saturating_sub(1)),
        Ok(_) => ("waits", answered),
    };
    told.ends(word, replies);
}

/// Serves a connection alone, to its end.
fn serve_alone<S: Alter>(
    alloc: Global,
    input: &[u8],
    how: &How,
    told: &mut Texts,
    chain: &mut Chain<S>,
) {
    let words = ClapWords { alloc };
    let mut pieces = Pieces::new(input, how);
    let (word, replies) = match serve(alloc, &mut pieces, told, chain, &words, how.most) {
        Ok(served) => (word_of(served.end), served.replies),
        Err(ServeFault::Read { replies }) => ("read", replies),
        Err(ServeFault::Write { replies }) => ("write", replies),
        Err(ServeFault::Memory) => ("memory", 0),
    };
    told.ends(word, replies);
}

/// Adds the bytes of replies, one after the other.
pub fn put_replies(alloc: Global, out: &mut Vec<u8>, replies: &[Reply]) -> bool {
    let mut is_put = true;
    for reply in replies {
        is_put = is_put && put_reply(alloc, out, reply);
    }
    is_put
}

fn put_reply(alloc: Global, out: &mut Vec<u8>, reply: &Reply) -> bool {
    match reply_bytes(alloc, reply) {
        Ok(bytes) => out.extend_from_slice(bytes.as_slice()).is_ok(),
        Err(_) => false,
    }
}

/// Answers the requests as requests of a branch, whatever their tokens are.
fn answer_each<S: Alter>(
    alloc: Global,
    chain: &mut Chain<S>,
    asked: &[(Token, Request)],
    branch: u32,
    out: &mut Vec<u8>,
) -> bool {
    let Some(branch) = BranchNo::new(branch) else {
        return false;
    };
    let caller = Caller::Branch(branch);
    let mut is_put = true;
    for (_, request) in asked {
        let reply = chain.answer(&caller, request);
        is_put = is_put && put_reply(alloc, out, &reply);
    }
    is_put
}

/// Reads the requests and answers them as values, with their tokens or as requests of this branch. Puts the replies and
/// their number into `told`.
fn answer<S: Alter>(
    alloc: Global,
    input: &[u8],
    branch: Option<u32>,
    told: &mut Texts,
    chain: &mut Chain<S>,
) {
    let asked = Values::read(alloc, input, told);
    let asked = asked.list();
    told.ends("closed", u32::try_from(asked.len()).unwrap_or(0));
    let is_put = match branch {
        Some(branch) => answer_each(alloc, chain, asked, branch, &mut told.out),
        None => match chain.replay(asked) {
            Ok(replies) => put_replies(alloc, &mut told.out, replies.as_slice()),
            Err(_) => false,
        },
    };
    told.needs(is_put, "the requests aren't answered");
}

/// Serves a connection that gets these bytes as `how` says, or answers their requests as values.
pub fn serve_as<S: Alter>(
    alloc: Global,
    input: &[u8],
    how: &How,
    told: &mut Texts,
    chain: &mut Chain<S>,
) {
    match how.come {
        Come::Alone => serve_alone(alloc, input, how, told, chain),
        Come::ByTurns(turns) => serve_by_turns(alloc, input, how, turns, told, chain),
        Come::AsValues(branch) => answer(alloc, input, branch, told, chain),
    }
}

/// Serves tills side by side, and waits so many milliseconds for each. Without milliseconds, serves them at a port.
/// Returns the status.
pub fn listen<S: Alter>(
    alloc: Global,
    tills: &Tills<'_>,
    comers: u32,
    millis: Option<u32>,
    chain: &mut Chain<S>,
) -> u8 {
    let Some(millis) = millis else {
        return serve_port(tills, chain, 0, comers);
    };
    let Ok(listener) = TcpListener::bind(tills, "127.0.0.1:0") else {
        return 3;
    };
    let _ = tills.play();
    let words = ClapWords { alloc };
    let patience = Duration::from_millis(u64::from(millis));
    serve_listener(tills, &listener, chain, &words, comers, patience)
}
