//! A connection that goes on as far as its bytes reach, so that one that waits holds no other.
ghost use Rattle.std.specs.Prelude.{◌≡◌, ◌↔◌, ◌⊎◌, ℕ, ◌+◌, ◌<◌, ◌≤◌, IsTrue, true, false, List, [], ◌∷◌, length, Option, None, Some, IfOk, IfErr, OnErr};
ghost use Rattle.std.specs.Io.KnownBytes.{IsAtEnd};
ghost use Rattle.http_messages.specs.Shown.{message_of};
ghost use Rattle.http_messages.specs.Input.{IsCut};
ghost use Rattle.shop_model.specs.Answers.{Answer};
ghost use Rattle.shop_model.specs.Histories.{is_store_failure};
ghost use Rattle.shop_types.specs.Replies.{seen_reply};
ghost use Rattle.counter_http.specs.declared.inbox.TheConstants.{ROOM};
ghost use Rattle.counter_http.specs.Exchanges.{Exchange, text_of, RunsOver};
ghost use Rattle.counter_http.specs.Served.{IsAfter, fault_text};
ghost use Rattle.counter_http.specs.Phases.{ConnectionState, opened, told_of, GoesOrEnds, IsTurn, IsPhase, IsTurnFault};

use crate::answer::answer;
use crate::connection::End;
use crate::inbox::{Inbox, ROOM};
use crate::unsent::Unsent;
use chain_engine::Chain;
use counter_routes::Routes;
use http_messages::{MessageFault, MessageReading, Request, read_request};
use shop_types::{OfficeWords, Refusal, Reply};
use sqlite::Alter;
use std::alloc::{AllocError, Global};
use std::io::{self, ErrorKind, Read, Write};
use std::marker::Model;

/// What a connection waits for after a turn.
#[derive(Clone, Copy)]
pub enum Phase {
    /// More bytes: there is no whole request, each reply is written, and the reader would wait.
    Reads,
    /// Its peer: the writer would wait with bytes of a reply left. No further request is answered before.
    Writes,
    /// Its next turn: as many requests were answered as one turn may, and each reply is written.
    Ready,
    /// Nothing: it has ended, and each reply is written.
    Ended(End),
}

/// What went wrong in a turn. `Connection::advance` promises the same of what was read, answered and written until
/// then. The connection is of no more use.
#[derive(Clone, Copy, Debug)]
pub enum TurnFault {
    /// The reader failed, or was interrupted without an end, or there was no memory for a long request. Each whole
    /// request that was read is answered, and its reply written.
    Read,
    /// The writer failed, or took nothing, with bytes of a reply left. The request whose reply failed has acted.
    Write,
}

/// What all connections share: the routes.
#[derive(Drop)]
pub struct Switchboard {
    routes: Routes,
}

impl Switchboard {
    /// Takes the memory for the routes.
    pub fn new(alloc: Global) -> Result<Switchboard, AllocError> {
        match Routes::new(alloc) {
            Ok(routes) => Ok(Switchboard { routes }),
            Err(_) => Err(AllocError),
        }
    }
}

/// A connection between two turns.
#[derive(Drop)]
pub struct Connection {
    inbox: Inbox,
    unsent: Unsent,
    replies: u32,
    most: u32,
    ending: Option<End>,
}

impl Model for Connection {
    ghost Value = { ConnectionState };

    ghost view = { λ c. record { inbox = c.inbox; unsent = c.unsent; replies = c.replies; most = c.most; ending = c.ending } };

    ghost invariant = { λ c. (c.ending ≡ None → c.replies < c.most) × (length c.inbox ≤ ROOM) };
}

/// What a reply means for the connection.
#[derive(Clone, Copy)]
pub(crate) enum After {
    Goes,
    Asks,
    Fails,
}

/// Returns what the reply to the request means for the connection. `has_failed` says whether the chain has failed by
/// then.
fn after_reply(has_failed: bool, request: &Request<'_>) -> After
    ensures { (answer : Answer) → is_store_failure answer ≡ has_failed
        → IsAfter result (record { message = message_of request.now; answer = answer }) }
{
    if has_failed {
        After::Fails
    } else if request.closes {
        After::Asks
    } else {
        After::Goes
    }
}

/// Returns the reply to a text that is no message.
fn fault_reply(fault: MessageFault) -> Reply
    ensures { text_of (seen_reply result) ≡ fault_text fault }
{
    match fault {
        MessageFault::BadHead => Reply::refused(Refusal::BadHead),
        MessageFault::TooLong => Reply::refused(Refusal::TooLong),
    }
}

/// Returns why a connection ends after its next reply, or `None` if it goes on. `left` is how many requests may still
/// be answered, this one included.
fn ending_of(after: After, left: u32) -> Option<End>
    requires { 0 < left }
    ensures { (e : Exchange) (input : Option (List ℕ)) (rest : List ℕ) → IsAfter after e
        → GoesOrEnds result left (e ∷ []) input rest [] }
{
    match after {
        After::Fails => Some(End::StoreFailed),
        After::Asks => Some(End::Asked),
        After::Goes if left == 1 => Some(End::Limit),
        After::Goes => None,
    }
}

/// Returns why a connection ends at the end of its input. `rest` is the part of the input that isn't answered.
fn end_at(rest: &[u8]) -> End
    requires { IsCut rest.now }
    ensures { (most : ℕ) (left : Option (List ℕ)) → 0 < most → IsAtEnd left
        → GoesOrEnds (Some result) most [] left rest.now [] }
{
    if rest.is_empty() {
        End::Closed
    } else {
        End::Cut
    }
}

impl Connection {
    /// Makes a connection that has read nothing, and may have `most` requests answered. With 0 it ends before the
    /// first. Takes the memory for small requests.
    pub fn new(alloc: Global, most: u32) -> Result<Connection, AllocError>
        ensures { IfOk result (λ connection. connection ≡ opened most) }
    {
        Ok(Connection {
            inbox: Inbox::new(alloc)?,
            unsent: Unsent::new(),
            replies: 0,
            most,
            ending: if most == 0 { Some(End::Limit) } else { None },
        })
    }

    /// Returns how many requests were answered. The reply to a text that is no message doesn't count.
    pub fn replies(&self) -> u32
        ensures { result ≡ self.now.replies }
    {
        self.replies
    }

    /// Reports whether each byte that was read is part of an answered request.
    pub fn is_between(&self) -> bool
        ensures { IsTrue result ↔ (self.now.inbox ≡ []) }
    {
        self.inbox.bytes().is_empty()
    }

    /// Returns how many requests have their whole reply, if something is left to write.
    pub(crate) fn told(&self) -> u32
        ensures { result ≡ told_of self.now.ending self.now.replies }
    {
        match self.ending {
            // What is left is part of the reply to a text that is no message.
            Some(End::Refused) => self.replies,
            Some(_) | None => self.replies.saturating_sub(1),
        }
    }

    /// Writes what is left of a reply, as far as the writer takes it. Reports whether nothing is left.
    fn send<W: Write>(&mut self, writer: &mut W) -> io::Result<bool>
        ensures turn { (input : Option (List ℕ))
            → IsTurn self.old self.new (λ es. es ≡ []) input input (W.contents writer.old) (W.contents writer.new) }
        ensures same { self.new.replies ≡ self.old.replies }
        ensures still { (self.new.inbox ≡ self.old.inbox) × (self.new.ending ≡ self.old.ending) }
        ensures all { IfOk result (λ all. all ≡ true → self.new.unsent ≡ []) }
        ensures part { IfOk result (λ all. all ≡ false → 0 < length self.new.unsent) }
        ensures err { OnErr result (0 < length self.new.unsent) }
    {
        self.unsent.flush(writer)
    }

    /// Answers the next request, if it has come whole, or a text that is no message. Reports whether it answered.
    fn answer_next<O: OfficeWords, S: Alter>(
        &mut self,
        alloc: Global,
        chain: &mut Chain<S>,
        board: &Switchboard,
        words: &O,
    ) -> bool
        requires empty { self.old.unsent ≡ [] }
        requires goes { self.old.ending ≡ None }
        ensures turn { (input output : Option (List ℕ))
            → IsTurn self.old self.new (RunsOver S.Store (O.meaning words.now) chain.old chain.new) input input output
            output }
        ensures one { self.new.replies ≤ self.old.replies + 1 }
        ensures onward { result ≡ true
            → (self.new.replies ≡ self.old.replies + 1)
            ⊎ ((self.new.replies ≡ self.old.replies) × (self.new.inbox ≡ self.old.inbox)
            × (self.new.ending ≡ Some End.Refused)) }
        ensures waits { result ≡ false → (self.new ≡ self.old) × (length self.new.inbox < ROOM) × IsCut self.new.inbox }
    {
        match read_request(self.inbox.bytes()) {
            MessageReading::Whole(request, len) => {
                let reply = answer(alloc, chain, &board.routes, words, &request);
                let after = after_reply(chain.is_failed(), &request);
                self.inbox.consume(len);
                self.unsent.put(reply);
                self.ending = ending_of(after, self.most - self.replies);
                self.replies += 1;
                true
            }
            MessageReading::More => false,
            MessageReading::Refused(fault) => {
                self.unsent.put(fault_reply(fault));
                self.ending = Some(End::Refused);
                true
            }
        }
    }

    /// Reads more bytes. If there are none, the input is at its end, which ends the connection. Returns false if the
    /// reader would wait.
    fn read_more<R: Read>(&mut self, reader: &mut R) -> io::Result<bool>
        requires room { length self.old.inbox < ROOM }
        requires cut { IsCut self.old.inbox }
        requires goes { self.old.ending ≡ None }
        ensures turn { (output : Option (List ℕ))
            → IsTurn self.old self.new (λ es. es ≡ []) (R.remaining reader.old) (R.remaining reader.new) output output }
        ensures same { (self.new.unsent ≡ self.old.unsent) × (self.new.replies ≡ self.old.replies) }
        ensures waits { IfOk result (λ more. more ≡ false → self.new ≡ self.old) }
        ensures onward { IfOk result (λ more. more ≡ true → (length self.old.inbox < length self.new.inbox)
            ⊎ ((self.new.inbox ≡ self.old.inbox) × ((end : End) × (self.new.ending ≡ Some end)))) }
        ensures err { OnErr result (self.new ≡ self.old) }
    {
        match self.inbox.fill(reader) {
            Ok(0) => {
                self.ending = Some(end_at(self.inbox.bytes()));
                Ok(true)
            }
            Ok(_) => Ok(true),
            Err(e) => match e.kind() {
                ErrorKind::WouldBlock => Ok(false),
                _ => Err(e),
            },
        }
    }

    /// Takes one turn: goes on as far as the bytes reach. Writes what is left of a reply, answers at most `most` whole
    /// requests, and reads. The turn ends if the reader or the writer would wait (`ErrorKind::WouldBlock`), or with the
    /// connection. While a reply isn't wholly written, no further request is answered. `words` reads the words that
    /// head office sends. Other connections may have their turns between two of this one. A chain that has failed
    /// stays as it is.
    pub fn advance<R: Read, W: Write, O: OfficeWords, S: Alter>(
        &mut self,
        alloc: Global,
        reader: &mut R,
        writer: &mut W,
        chain: &mut Chain<S>,
        board: &Switchboard,
        words: &O,
        most: u32,
    ) -> Result<Phase, TurnFault>
        ensures turn { IsTurn self.old self.new (RunsOver S.Store (O.meaning words.now) chain.old chain.new)
            (R.remaining reader.old) (R.remaining reader.new) (W.contents writer.old) (W.contents writer.new) }
        ensures few { self.new.replies ≤ self.old.replies + most }
        ensures phase { IfOk result (λ phase. IsPhase phase most self.old self.new) }
        ensures fault { IfErr result (λ fault. IsTurnFault fault self.new) }
    {
        let first = self.replies;
        'turn: loop {
            let Ok(all) = self.send(writer) else {
                return Err(TurnFault::Write);
            };
            if !all {
                return Ok(Phase::Writes);
            }
            if let Some(end) = self.ending {
                return Ok(Phase::Ended(end));
            }
            if self.replies - first >= most {
                return Ok(Phase::Ready);
            }
            if !self.answer_next(alloc, chain, board, words) {
                let Ok(more) = self.read_more(reader) else {
                    return Err(TurnFault::Read);
                };
                if !more {
                    return Ok(Phase::Reads);
                }
            }
        }
    }
}
