//! The tables in a chain's files: makes them, runs statements on them and audits them, over a connection of its own
//! beside the chain.
use books_audit::audit_custody;
use chain_files::{FirstRows, create};
use chain_requests::read_audit;
use row_player::{Deed, Texts};
use shop_schema::create_first;
use shop_types::{Audit, Token};
use shop_views::audit_text;
use sqlite::{Alter, Connection};
use std::alloc::Global;

/// Head office's token.
const OFFICE: &[u8] = b"00000000000000000000000000000000";

/// Runs a statement in a transaction. Reports whether it succeeded.
fn change<S: Alter>(conn: &mut Connection<S>, text: &str) -> bool {
    if !conn.is_autocommit() {
        return false;
    }
    let mut tx = conn.transaction();
    if tx.execute(text, &[]).is_err() {
        return false;
    }
    tx.commit().is_ok()
}

/// Audits only custody in the tables, which stay as they are.
fn custody<S: Alter>(alloc: Global, conn: &mut Connection<S>) -> Option<Audit> {
    if !conn.is_autocommit() {
        return None;
    }
    let mut tx = conn.transaction();
    let audit = audit_custody(alloc, &mut tx);
    tx.rollback();
    audit.ok()
}

/// Puts the text of an audit into `told`.
fn tell(alloc: Global, audit: Option<Audit>, told: &mut Texts) {
    let Some(audit) = audit else {
        return told.needs(false, "the tables aren't audited");
    };
    match audit_text(alloc, audit) {
        Ok(text) => told.puts("out", text.as_bytes()),
        Err(_) => told.needs(false, "no memory"),
    }
}

/// Does the deed with the tables: makes them, runs a statement, or audits them. The tables of this version get the
/// opening rows, and the tables of version 1 get head office's token.
pub fn work<S: Alter>(alloc: Global, deed: Deed<'_>, conn: &mut Connection<S>, told: &mut Texts) {
    if !conn.is_autocommit() {
        return told.needs(false, "a transaction is open");
    }
    match (deed, Token::read(OFFICE)) {
        (Deed::Fill, _) => {
            let is_made = create(conn, &FirstRows::OfOpening).is_ok();
            told.needs(is_made, "no new tables");
        }
        (Deed::First, Some(office)) => {
            let is_made = create_first(conn, &office).is_ok();
            told.needs(is_made, "no new tables");
        }
        (Deed::Statement(text), _) => {
            let is_done = change(conn, text);
            told.needs(is_done, "the statement isn't done");
        }
        (Deed::Audit, _) => tell(alloc, read_audit(alloc, conn).ok(), told),
        (Deed::Custody, _) => tell(alloc, custody(alloc, conn), told),
        _ => {}
    }
}
