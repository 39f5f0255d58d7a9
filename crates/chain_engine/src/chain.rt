//! The chain of shops over a store.

ghost use Rattle.std.specs.Prelude.{◌≡◌, ◌≢◌, ◌≤◌, ◌||◌, [], true, false, Err, Some, All, IfOk, IfErr, IfSome, IsTrue, OnErr, length, map};
ghost use Rattle.sqlite.specs.Held.{state};
ghost use Rattle.sqlite.specs.State.{HasCleanDisk};
ghost use Rattle.sqlite.specs.Steps.{over_memory};
ghost use Rattle.shop_model.specs.Opening.{opening_books};
ghost use Rattle.shop_schema.specs.Shop.{first_books};
ghost use Rattle.shop_model.specs.Machine.{OfficeLook};
ghost use Rattle.shop_model.specs.Shop.{Catalogue};
ghost use Rattle.shop_model.specs.Books.{HeadOffice, caller_of};
ghost use Rattle.shop_types.specs.Seen.{seen_caller, seen_office_ask, seen_request};
ghost use Rattle.shop_types.specs.Replies.{seen_reply};
ghost use Rattle.chain_caches.specs.Callers.{AreCallers};
ghost use Rattle.chain_requests.specs.Chains.{IsAt, Takes, Answers, AnswersEvent, Runs, event_of};
ghost use Rattle.chain_requests.specs.Wells.{IsWell, StaysWell, is_row_look};
ghost use Rattle.chain_engine.specs.Failing.{is_failure};
ghost use Rattle.chain_engine.specs.Leaving.{LeavesNoMore};
ghost use Rattle.chain_requests.specs.Steps.{IsKnownFor, asker, asked_of};
ghost use Rattle.branch_reports.specs.Told.{IsTold};
ghost use Rattle.chain_requests.specs.Audits.{AuditsState};
ghost use Rattle.chain_requests.specs.Decisions.{FindsAudit, FindsCaller, IsOfStore, refusal_for, is_final};
ghost use Rattle.shop_model.specs.Answers.{problem_answer};
ghost use Rattle.shop_model.specs.Histories.{has_failed, is_store_failure};
ghost use Rattle.shop_model.specs.Refusals.{StoreFailed};

use chain_caches::{CallerCache, FilmCache};
use chain_files::{FirstRows, OpenFault, first_values, in_memory};
use chain_requests::{
    Asked, asked_values, audit_unless_failed, caller_unless_failed, read_office, step,
};
use shop_types::{Audit, Caller, Limits, NoMemory, OfficeAsk, Refusal, Reply, Request, Token};
use sql_rows::StoreFault;
use sqlite::{Alter, Connection, MemStore};
use std::alloc::Global;
use std::marker::Model;

/// A chain of shops: its limits, and the books of all branches in the tables of a store. It caches what it has read of
/// films, for all branches, and of callers.
#[derive(Drop)]
pub struct Chain<S: Alter> {
    pub(crate) limits: Limits,
    pub(crate) is_failed: bool,
    pub(crate) films: FilmCache,
    pub(crate) callers: CallerCache,
    pub(crate) conn: Connection<S>,
    pub(crate) alloc: Global,
}

impl<S: Alter> Model for Chain<S> {
    ghost use Rattle.std.specs.Prelude.{◌≡◌, false};
    ghost use Rattle.chain_requests.specs.Holding.{Chained, chained_code};

    ghost Value = { Chained S };

    ghost coded = { chained_code S.code };

    ghost view = { λ c. record { limits = c.limits; is_failed = c.is_failed; films = c.films; callers = c.callers; conn = c.conn } };

    ghost invariant = { λ c. c.conn.in_transaction ≡ false };
}

impl Chain<MemStore> {
    /// Makes a chain in memory with head office's token and no shared row. Fails if there isn't enough memory or room,
    /// or if the store has failed.
    pub fn memory(
        alloc: Global,
        limits: Limits,
        office: &Token,
    ) -> Result<Chain<MemStore>, OpenFault>
        ensures made { IfOk result (λ chain. (chain.limits ≡ limits) × (chain.is_failed ≡ false)
            × IsAt over_memory chain (first_books office.now) (first_books office.now)) }
        ensures well { IfOk result (IsWell over_memory) }
        ensures fault { IfErr result (λ e. (e ≢ OpenFault.NotAChain) × (e ≢ OpenFault.OtherVersion)
            × (e ≢ OpenFault.Damaged) × (e ≢ OpenFault.Already)) }
    {
        let first = FirstRows::OfOffice(office);
        first_values(&first);
        match in_memory(alloc, &first) {
            Ok(conn) => Ok(Chain::over(alloc, conn, limits)),
            Err(fault) => Err(fault),
        }
    }

    /// Makes a chain in memory with the opening rows, in which no branch has asked anything. Fails if there isn't
    /// enough memory or room, or if the store has failed.
    pub fn demo(alloc: Global, limits: Limits) -> Result<Chain<MemStore>, OpenFault>
        ensures made { IfOk result (λ chain. (chain.limits ≡ limits) × (chain.is_failed ≡ false)
            × IsAt over_memory chain opening_books opening_books) }
        ensures well { IfOk result (IsWell over_memory) }
        ensures fault { IfErr result (λ e. (e ≢ OpenFault.NotAChain) × (e ≢ OpenFault.OtherVersion)
            × (e ≢ OpenFault.Damaged) × (e ≢ OpenFault.Already)) }
    {
        let first = FirstRows::OfOpening;
        first_values(&first);
        match in_memory(alloc, &first) {
            Ok(conn) => Ok(Chain::over(alloc, conn, limits)),
            Err(fault) => Err(fault),
        }
    }
}

impl<S: Alter> Chain<S> {
    /// Returns the chain whose tables are the connection's. Its caches are empty.
    pub(crate) fn over(alloc: Global, conn: Connection<S>, limits: Limits) -> Chain<S>
        requires { conn.in_transaction ≡ false }
        ensures { result ≡ record { limits = limits; is_failed = false; films = []; callers = []; conn = conn } }
    {
        Chain {
            limits,
            is_failed: false,
            films: FilmCache::new(alloc),
            callers: CallerCache::new(alloc),
            conn,
            alloc,
        }
    }

    /// Reports whether the store has failed. If it has, every request is answered `StoreFailed`.
    pub fn is_failed(&self) -> bool
        ensures { result ≡ self.now.is_failed }
    {
        self.is_failed
    }

    /// Returns the number of cached films, which needn't be read again. Takes no memory.
    pub fn cached_films(&self) -> usize
        ensures value { result ≡ length self.now.films }
        ensures most { result ≤ 256 }
    {
        self.films.len()
    }

    /// Returns the caller whose token it is, or the store's refusal: `Memory`, `Size` or `StoreFailed`. It is
    /// `StoreFailed` exactly if the chain has failed after the call. A chain that is well fails only if the disk meets
    /// a fault in the call. Whatever the tables are, what a crash may find stays as it was.
    pub fn caller(&mut self, token: &Token) -> Result<Caller, Refusal>
        ensures taken { Takes S.Store self.old self.new (FindsCaller token.now result) }
        ensures refused { IfErr result IsOfStore }
        ensures left { LeavesNoMore (state S.Store self.old.conn) (state S.Store self.new.conn) }
        ensures fails { self.new.is_failed ≡ is_failure result }
        ensures well { StaysWell S.Store self.old self.new }
        ensures failed { self.old.is_failed ≡ true → (self.new ≡ self.old) × (result ≡ Err Refusal.StoreFailed) }
    {
        if let Some(caller) = self.remembered(token) {
            return Ok(caller);
        }
        match caller_unless_failed(self.is_failed, &mut self.conn, token) {
            Ok(caller) => {
                self.callers.put(token, &caller);
                Ok(caller)
            }
            Err(fault) => Err(self.refusal(fault)),
        }
    }

    /// Returns the caller whose token it is, if the chain hasn't failed and has found this caller before. Doesn't ask
    /// the store.
    fn remembered(&self, token: &Token) -> Option<Caller>
        ensures { IfSome result (λ caller. (self.now.is_failed ≡ false)
            × ((catalogue : Catalogue) → AreCallers self.now.callers catalogue → seen_caller caller ≡ caller_of
            (Some token.now) catalogue)) }
    {
        if self.is_failed {
            return None;
        }
        self.callers.known(token)
    }

    /// Audits the tables, whatever they hold, or returns the store's refusal: `Memory`, `Size` or `StoreFailed`. It is
    /// `StoreFailed` exactly if the chain has failed after the call. A chain that is well fails only if the disk meets
    /// a fault in the call. What a crash may find stays as it was. The audit reads all tables: it takes the time to
    /// sort their rows, and the memory to keep them.
    pub fn audit(&mut self) -> Result<Audit, Refusal>
        ensures told { HasCleanDisk (state S.Store self.new.conn)
            → IfOk result (AuditsState (state S.Store self.old.conn)) }
        ensures taken { Takes S.Store self.old self.new (FindsAudit result) }
        ensures refused { IfErr result IsOfStore }
        ensures left { LeavesNoMore (state S.Store self.old.conn) (state S.Store self.new.conn) }
        ensures fails { self.new.is_failed ≡ is_failure result }
        ensures well { StaysWell S.Store self.old self.new }
        ensures failed { self.old.is_failed ≡ true → (self.new ≡ self.old) × (result ≡ Err Refusal.StoreFailed) }
    {
        match audit_unless_failed(self.alloc, self.is_failed, &mut self.conn) {
            Ok(audit) => Ok(audit),
            Err(fault) => Err(self.refusal(fault)),
        }
    }

    /// Answers one request of a caller. A request that is refused has changed nothing. If the refusal is `Memory` or
    /// `Size`, the request may be sent again as it was. After one `StoreFailed` every further answer is `StoreFailed`:
    /// close the chain and open it again.
    pub fn answer(&mut self, caller: &Caller, request: &Request) -> Reply
        ensures taken { Takes S.Store self.old self.new
            (Answers (seen_caller caller.now) (seen_request request.now) (seen_reply result)) }
        ensures told { IsTold (seen_reply result) }
        ensures fails { self.new.is_failed ≡ is_store_failure (seen_reply result) }
        ensures well { IsTrue (is_row_look (seen_request request.now)) → StaysWell S.Store self.old self.new }
        ensures failed { self.old.is_failed ≡ true
            → (self.new ≡ self.old) × (seen_reply result ≡ problem_answer StoreFailed) }
    {
        if self.is_failed {
            return Reply::refused(Refusal::StoreFailed);
        }
        match caller {
            Caller::Branch(branch) => {
                let is_known = self.callers.has_branch(*branch);
                self.answer_asked(&Asked::OfBranch {
                    branch: *branch,
                    is_known,
                    request,
                })
            }
            Caller::Nobody => Reply::refused(Refusal::NoCounter),
            Caller::Office => match request {
                Request::Office(command) => self.answer_asked(&Asked::OfOffice(command)),
                Request::OfficeLook(ask) => self.answer_office(*ask),
                Request::Do(_) | Request::Look(_) | Request::View(_) => {
                    Reply::refused(Refusal::NoRoute)
                }
            },
        }
    }

    /// Answers requests one after another, each as if it had come alone. A call that returns `Err` has answered none
    /// and changed nothing.
    pub fn replay(&mut self, requests: &[(Token, Request)]) -> Result<Vec<Reply>, NoMemory>
        ensures ran { IfOk result (λ replies. Takes S.Store self.old self.new
            (Runs (map event_of requests.now) (map seen_reply replies.items))) }
        ensures told { IfOk result (λ replies. All IsTold (map seen_reply replies.items)) }
        ensures fails { IfOk result (λ replies. self.new.is_failed
            ≡ (self.old.is_failed || has_failed (map seen_reply replies.items))) }
        ensures failed { self.old.is_failed ≡ true
            → (self.new ≡ self.old) × IfOk result
            (λ replies. map seen_reply replies.items ≡ map (λ _. problem_answer StoreFailed) requests.now) }
        ensures nothing { OnErr result (self.new ≡ self.old) }
    {
        let mut replies = Vec::with_capacity(self.alloc, requests.len())?;
        for (token, request) in requests {
            let reply = self.answer_with(token, request);
            replies.push_reserved(reply);
        }
        Ok(replies)
    }

    /// Answers a request that comes with a token.
    fn answer_with(&mut self, token: &Token, request: &Request) -> Reply
        ensures taken { Takes S.Store self.old self.new
            (AnswersEvent (event_of (token.now, request.now)) (seen_reply result)) }
        ensures told { IsTold (seen_reply result) }
        ensures fails { self.new.is_failed ≡ is_store_failure (seen_reply result) }
        ensures well { IsTrue (is_row_look (seen_request request.now)) → StaysWell S.Store self.old self.new }
        ensures failed { self.old.is_failed ≡ true
            → (self.new ≡ self.old) × (seen_reply result ≡ problem_answer StoreFailed) }
    {
        match self.caller(token) {
            Ok(caller) => self.answer(&caller, request),
            Err(refusal) => Reply::refused(refusal),
        }
    }

    /// Answers from the tables. The store must not have failed.
    fn answer_asked(&mut self, asked: &Asked<'_>) -> Reply
        requires fine { self.old.is_failed ≡ false }
        requires known { (catalogue : Catalogue) → AreCallers self.old.callers catalogue
            → IsKnownFor asked.now catalogue }
        ensures taken { Takes S.Store self.old self.new
            (Answers (asker asked.now) (asked_of asked.now) (seen_reply result)) }
        ensures told { IsTold (seen_reply result) }
        ensures fails { self.new.is_failed ≡ is_store_failure (seen_reply result) }
        ensures well { IsTrue (is_row_look (asked_of asked.now)) → StaysWell S.Store self.old self.new }
    {
        asked_values(asked);
        limits_fit(self.limits);
        match step(
            self.alloc,
            &mut self.conn,
            &mut self.films,
            self.limits,
            asked,
        ) {
            Ok(reply) => reply,
            Err(fault) => {
                // What was read before the fault is read again.
                self.films.clear();
                Reply::refused(self.refusal(fault))
            }
        }
    }

    /// Answers a reading of head office. The store must not have failed.
    fn answer_office(&mut self, ask: OfficeAsk) -> Reply
        requires { self.old.is_failed ≡ false }
        ensures taken { Takes S.Store self.old self.new
            (Answers HeadOffice (OfficeLook (seen_office_ask ask)) (seen_reply result)) }
        ensures told { IsTold (seen_reply result) }
        ensures fails { self.new.is_failed ≡ is_store_failure (seen_reply result) }
    {
        limits_fit(self.limits);
        match read_office(self.alloc, &mut self.conn, ask) {
            Ok(reply) => reply,
            Err(fault) => Reply::refused(self.refusal(fault)),
        }
    }

    /// Returns the refusal for a fault of the store. Once the store has failed, the chain is failed permanently.
    fn refusal(&mut self, fault: StoreFault) -> Refusal
        ensures told { result ≡ refusal_for fault }
        ensures failed { self.new ≡ record self.old { is_failed = self.old.is_failed || is_final fault } }
    {
        match fault {
            StoreFault::Memory => Refusal::Memory,
            StoreFault::Size => Refusal::Size,
            StoreFault::Failed => {
                self.is_failed = true;
                Refusal::StoreFailed
            }
        }
    }
}

/// Shows that the limits are a million at most. This is a law: it does nothing.
fn limits_fit(limits: Limits)
    ensures commands { limits.commands ≤ 1_000_000 }
    ensures copies { limits.copies ≤ 1_000_000 }
{
    let _commands = limits.commands();
    let _copies = limits.copies();
}
