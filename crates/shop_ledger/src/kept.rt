ghost use Rattle.std.specs.Prelude.{◌≡◌, IfOk, option_map};
ghost use Rattle.sqlite.specs.declared.types.Value.TheVariants.{Text, Blob};
ghost use Rattle.sqlite_value.specs.Order.{column};
ghost use Rattle.sql_rows.specs.Calls.{DoesInside};
ghost use Rattle.shop_model.specs.Books.{head};
ghost use Rattle.shop_types.specs.Verdicts.{seen_kept as told};
ghost use Rattle.shop_ledger.specs.Calls.{Finds};
ghost use Rattle.shop_ledger.specs.Seen.{seen_kept, by_form, owner_number, IsOwner, kept_under, Keeps};

use shop_schema::query_first;
use shop_types::{BranchNo, KeptFound, Key};
use sql_rows::{Bytes, StoreFault, Words, bytes_at, execute, words_at};
use sqlite::types::ToSql;
use sqlite::{Alter, Row, Transaction};

/// The owner of a kept command.
#[derive(Clone, Copy)]
pub enum Owner {
    Office,
    Branch(BranchNo),
}

impl Owner {
    /// Returns the owner's number in the table: a branch's number, or 0 for head office.
    fn number(self) -> u32
        ensures value { result ≡ owner_number self }
        ensures real { IsOwner self }
    {
        match self {
            Owner::Office => 0,
            Owner::Branch(branch) => branch.get(),
        }
    }
}

/// An accepted command in its stored form, and the body of its reply.
#[derive(Drop)]
pub struct KeptRow {
    pub form: Bytes,
    pub reply: Words,
}

/// Returns the kept row as it compares with a command of that stored form.
pub fn kept_found<'a>(kept: Option<&'a KeptRow>, form: &Bytes) -> Option<KeptFound<'a>>
    ensures { option_map told result ≡ option_map (λ row. by_form form.now (seen_kept row.now)) kept.entry }
{
    match kept {
        Some(row) => Some(KeptFound {
            is_same: row.form.as_slice() == form.as_slice(),
            reply: row.reply.as_str(),
        }),
        None => None,
    }
}

/// Returns the stored form and the reply in the row.
fn kept_in(row: &Row) -> Result<KeptRow, StoreFault>
    ensures { IfOk result (λ kept. (column row.now 0 ≡ Blob kept.form) × (column row.now 1 ≡ Text kept.reply)) }
{
    Ok(KeptRow {
        form: bytes_at(row, 0)?,
        reply: words_at(row, 1)?,
    })
}

const SELECT_KEPT: &str = "SELECT command, reply FROM kept WHERE caller = ?1 AND \"key\" = ?2";

/// Returns what the owner has kept under the key.
pub fn kept_at<S: Alter>(
    tx: &mut Transaction<'_, S>,
    owner: Owner,
    key: &Key,
) -> Result<Option<KeptRow>, StoreFault>
    ensures { DoesInside S.Store tx.old.conn tx.new.conn result
        (λ kept. Finds (λ books. option_map seen_kept kept ≡ head (kept_under owner key.now books))) }
{
    query_first(
        tx,
        SELECT_KEPT,
        &[owner.number().to_sql(), key.as_str().to_sql()],
        kept_in,
    )
}

const INSERT_KEPT: &str =
    "INSERT INTO kept (caller, \"key\", command, reply) VALUES (?1, ?2, ?3, ?4)";

/// Keeps a command of the owner, by its key and its stored form, with the body of its reply. After a fault the
/// transaction may be rolled back.
pub fn put_kept<S: Alter>(
    tx: &mut Transaction<'_, S>,
    owner: Owner,
    key: &Key,
    form: &Bytes,
    reply: &str,
) -> Result<(), StoreFault>
    ensures { DoesInside S.Store tx.old.conn tx.new.conn result
        (λ _. Keeps owner key.now form.now reply.now) }
{
    execute(
        tx,
        INSERT_KEPT,
        &[
            owner.number().to_sql(),
            key.as_str().to_sql(),
            form.as_slice().to_sql(),
            reply.to_sql(),
        ],
    )
}
