//! A request of a branch, or a command of head office, in one transaction.

ghost use Rattle.sql_rows.specs.Causes.{FailsAtRest};
ghost use Rattle.std.specs.Prelude.{◌≡◌, ◌≢◌, false, IfOk, IfErr, IsTrue};
ghost use Rattle.sqlite.specs.Held.{state};
ghost use Rattle.sqlite.specs.State.{HasCleanDisk, Survives};
ghost use Rattle.shop_types.specs.Replies.{seen_reply};
ghost use Rattle.branch_reports.specs.Told.{IsDecision};
ghost use Rattle.chain_requests.specs.Steps.{IsHeldBy, IsKnownFor, IsMade, IsUndone, LeavesAfter, LeavesEitherOf, asker, asked_of};
ghost use Rattle.chain_requests.specs.Wells.{RestsOnBooks, is_row_look};

use crate::answering::answer_inside;
use crate::asked::Asked;
use crate::opened::is_open;
use crate::reports::show;
use branch_finds::Work;
use chain_caches::FilmCache;
use shop_types::{Limits, Reply};
use sql_rows::{StoreFault, fault_of};
use sqlite::{Alter, Connection};
use std::alloc::Global;

/// Answers the request in one transaction. If the request changes anything, the commit is the last call to the store.
pub fn step<S: Alter>(
    alloc: Global,
    conn: &mut Connection<S>,
    films: &mut FilmCache,
    limits: Limits,
    asked: &Asked<'_>,
) -> Result<Reply, StoreFault>
    requires { conn.old.in_transaction ≡ false }
    ensures ended { conn.new.in_transaction ≡ false }
    ensures made { HasCleanDisk (state S.Store conn.new)
        → IfOk result (λ reply. IsMade limits (asker asked.now) (asked_of asked.now) (seen_reply reply)
        (IsHeldBy (IsKnownFor asked.now) films.old) films.new (state S.Store conn.old) (state S.Store conn.new)) }
    ensures decided { IfOk result (λ reply. IsDecision (seen_reply reply)) }
    ensures undone { HasCleanDisk (state S.Store conn.new)
        → IfErr result (λ fault. (fault ≢ StoreFault.Failed → IsUndone (state S.Store conn.old)
        (state S.Store conn.new)) × LeavesEitherOf limits (asker asked.now) (asked_of asked.now) (IsHeldBy
        (IsKnownFor asked.now) films.old) (state S.Store conn.old) (state S.Store conn.new)) }
    ensures fails { IsTrue (is_row_look (asked_of asked.now))
        → FailsAtRest S.Store conn.old conn.new result RestsOnBooks }
    ensures crash { Survives (state S.Store conn.old) (state S.Store conn.new)
        (LeavesAfter limits (asker asked.now) (asked_of asked.now) (IsHeldBy (IsKnownFor asked.now) films.old)
        (state S.Store conn.old)) }
{
    let mut tx = conn.transaction();
    let fault = match answer_inside(alloc, &mut tx, films, limits, asked) {
        Ok(Work::Answered(done)) => {
            if !done.is_changed {
                tx.rollback();
                return Ok(done.reply);
            }
            match tx.commit() {
                Ok(()) => return Ok(done.reply),
                Err(error) => fault_of(error),
            }
        }
        Ok(Work::Shows(report)) => {
            tx.rollback();
            return show(alloc, conn, report);
        }
        Err(fault) => {
            tx.rollback();
            return Err(fault);
        }
    };
    // If a failed commit has shut the store, a crash may leave the books before or after the request.
    if is_open(conn) {
        Err(fault)
    } else {
        Err(StoreFault::Failed)
    }
}
