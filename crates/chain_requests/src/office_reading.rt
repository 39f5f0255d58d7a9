//! Head office's readings. Lists are read row by row outside any transaction. The place of a mark's copy and an audit
//! are each read inside a transaction.

ghost use Rattle.std.specs.Prelude.{◌≡◌, nat_lt, false, IfOk};
ghost use Rattle.sqlite.specs.Held.{state};
ghost use Rattle.sqlite.specs.State.{HasCleanDisk, Survives};
ghost use Rattle.sql_rows.specs.Calls.{DoesInside};
ghost use Rattle.shop_model.specs.Sound.{HasCustody, is_mark, made};
ghost use Rattle.shop_types.specs.Seen.{seen_mark};
ghost use Rattle.shop_types.specs.Replies.{seen_reply};
ghost use Rattle.shop_ledger.specs.Calls.{Finds};
ghost use Rattle.branch_reports.specs.Told.{IsDecision};
ghost use Rattle.chain_requests.specs.Steps.{IsUndone};
ghost use Rattle.chain_requests.specs.OfficeReads.{custody_told, TellsAudit, TellsCustody, TellsOffice};

use crate::auditing::read_audit;
use crate::reports::{Report, show};
use consign_store::place_of;
use shop_store::branches::branch_manager;
use shop_store::copies::copy_at;
use shop_types::{Mark, OfficeAsk, Refusal, Reply};
use shop_views::{audit_text, custody_text};
use sql_rows::StoreFault;
use sqlite::{Alter, Connection, Transaction};
use std::alloc::Global;

/// Makes the reply to a reading of head office. The database stays as it was.
pub fn read_office<S: Alter>(
    alloc: Global,
    conn: &mut Connection<S>,
    ask: OfficeAsk,
) -> Result<Reply, StoreFault>
    requires { conn.old.in_transaction ≡ false }
    ensures ended { conn.new.in_transaction ≡ false }
    ensures told { HasCleanDisk (state S.Store conn.new)
        → IfOk result (λ reply. TellsOffice ask (seen_reply reply) (state S.Store conn.old)) }
    ensures same { HasCleanDisk (state S.Store conn.new) → IsUndone (state S.Store conn.old) (state S.Store conn.new) }
    ensures crash { Survives (state S.Store conn.old) (state S.Store conn.new) (λ _. ⊥) }
    ensures decided { IfOk result (λ reply. IsDecision (seen_reply reply)) }
{
    match ask {
        OfficeAsk::Sales => show(alloc, conn, Report::Sales),
        OfficeAsk::Transit => show(alloc, conn, Report::Transit),
        OfficeAsk::Custody(mark) => find_place(alloc, conn, &mark),
        OfficeAsk::Audit => tell_audit(alloc, conn),
    }
}

/// Makes the reply to head office's request for an audit.
fn tell_audit<S: Alter>(alloc: Global, conn: &mut Connection<S>) -> Result<Reply, StoreFault>
    requires { conn.old.in_transaction ≡ false }
    ensures ended { conn.new.in_transaction ≡ false }
    ensures told { HasCleanDisk (state S.Store conn.new)
        → IfOk result (λ reply. TellsAudit (seen_reply reply) (state S.Store conn.old)) }
    ensures same { HasCleanDisk (state S.Store conn.new) → IsUndone (state S.Store conn.old) (state S.Store conn.new) }
    ensures crash { Survives (state S.Store conn.old) (state S.Store conn.new) (λ _. ⊥) }
    ensures decided { IfOk result (λ reply. IsDecision (seen_reply reply)) }
{
    let audit = read_audit(alloc, conn)?;
    match audit_text(alloc, audit) {
        Ok(text) => Ok(Reply::accepted(text)),
        Err(_) => Err(StoreFault::Memory),
    }
}

/// Finds where the copy of the mark is, in a transaction that changes nothing.
fn find_place<S: Alter>(
    alloc: Global,
    conn: &mut Connection<S>,
    mark: &Mark,
) -> Result<Reply, StoreFault>
    requires { conn.old.in_transaction ≡ false }
    ensures ended { conn.new.in_transaction ≡ false }
    ensures told { HasCleanDisk (state S.Store conn.new)
        → IfOk result (λ reply. TellsCustody (seen_mark mark.now) (seen_reply reply) (state S.Store conn.old)) }
    ensures same { HasCleanDisk (state S.Store conn.new) → IsUndone (state S.Store conn.old) (state S.Store conn.new) }
    ensures crash { Survives (state S.Store conn.old) (state S.Store conn.new) (λ _. ⊥) }
    ensures decided { IfOk result (λ reply. IsDecision (seen_reply reply)) }
{
    let mut tx = conn.transaction();
    let told = place_in(alloc, &mut tx, mark);
    tx.rollback();
    told
}

/// Finds where the copy of the mark is, inside a transaction. It looks for the mark's branch first, and then for the
/// copy under the mark's number.
fn place_in<S: Alter>(
    alloc: Global,
    tx: &mut Transaction<'_, S>,
    mark: &Mark,
) -> Result<Reply, StoreFault>
    ensures does { DoesInside S.Store tx.old.conn tx.new.conn result (λ reply. Finds (λ books.
        HasCustody books → seen_reply reply ≡ custody_told (seen_mark mark.now) books)) }
    ensures decided { IfOk result (λ reply. IsDecision (seen_reply reply)) }
{
    let Some(_) = branch_manager(tx, mark.branch)? else {
        return Ok(Reply::refused(Refusal::NoBranch));
    };
    if !is_made(tx, mark)? {
        return Ok(Reply::refused(Refusal::NoCopy));
    }
    let place = place_of(alloc, tx, mark)?;
    match custody_text(alloc, place) {
        Ok(text) => Ok(Reply::accepted(text)),
        Err(_) => Err(StoreFault::Memory),
    }
}

/// Returns whether the mark was made: the mark's branch has a copy with the mark's number, and the copy has this mark.
/// A copy that came from another branch has another mark.
fn is_made<S: Alter>(tx: &mut Transaction<'_, S>, mark: &Mark) -> Result<bool, StoreFault>
    ensures { DoesInside S.Store tx.old.conn tx.new.conn result
        (λ is. Finds (λ books. is ≡ nat_lt 0 (made (is_mark (seen_mark mark.now)) books))) }
{
    match copy_at(tx, mark.branch, mark.copy)? {
        Some(row) => Ok(row.mark == *mark),
        None => Ok(false),
    }
}
