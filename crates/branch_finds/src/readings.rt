//! Answers a branch's reading inside a transaction, or by a list.

ghost use Rattle.std.specs.Prelude.{◌≡◌};
ghost use Rattle.sql_rows.specs.Causes.{FailsByFaults};
ghost use Rattle.shop_types.specs.Seen.{seen_ask};
ghost use Rattle.branch_finds.specs.Looks.{reads_row, HoldsFor, LooksAt, told_of};

use crate::looks::{look_customer, look_film, look_film_copies, look_holder, look_in_stock};
use crate::work::{Listing, Work};
use branch_reports::{look_balance, look_rewards};
use shop_ledger::Answered;
use shop_types::{Ask, BranchNo, Reply};
use sql_rows::StoreFault;
use sqlite::{Alter, Transaction};
use std::alloc::Global;

/// Returns whether the reading's answer always reads a row. A list reads no row inside a transaction. Rewards read no
/// row if a threshold is 0, or if there is no month before the moment's.
pub(crate) fn reads_row(ask: Ask) -> bool
    ensures { result ≡ reads_row (seen_ask ask) }
{
    match ask {
        Ask::Customer(_)
        | Ask::Film(_)
        | Ask::InStock(_)
        | Ask::HeldBy(_)
        | Ask::FilmInStock(_)
        | Ask::FilmNotInStock(_)
        | Ask::Balance { .. } => true,
        Ask::Overdue(_) | Ask::Rewards { .. } | Ask::Arrivals | Ask::Sent => false,
    }
}

/// Answers a reading of a branch, or returns which list it asks for. If the reading reads a row, an answer shows that
/// the transaction was open.
pub(crate) fn look<S: Alter>(
    alloc: Global,
    tx: &mut Transaction<'_, S>,
    branch: BranchNo,
    ask: Ask,
) -> Result<Work<Listing>, StoreFault>
    ensures looks { LooksAt S.Store branch (seen_ask ask) tx.old.conn tx.new.conn result }
    ensures fails { FailsByFaults S.Store tx.old.conn tx.new.conn result (HoldsFor branch (seen_ask ask)) }
{
    match ask {
        Ask::Customer(number) => told(look_customer(alloc, tx, branch, number)),
        Ask::Film(number) => told(look_film(alloc, tx, branch, number)),
        Ask::InStock(copy) => told(look_in_stock(alloc, tx, branch, copy)),
        Ask::HeldBy(copy) => told(look_holder(alloc, tx, branch, copy)),
        Ask::FilmInStock(film) => told(look_film_copies(alloc, tx, branch, film, true)),
        Ask::FilmNotInStock(film) => told(look_film_copies(alloc, tx, branch, film, false)),
        Ask::Balance { customer, at } => told(look_balance(alloc, tx, branch, customer, at)),
        Ask::Rewards {
            at,
            purchases,
            cents,
        } => told(look_rewards(alloc, tx, branch, at, purchases, cents)),
        Ask::Overdue(at) => Ok(Work::Shows(Listing::Overdue(at))),
        Ask::Arrivals => Ok(Work::Shows(Listing::Arrivals)),
        Ask::Sent => Ok(Work::Shows(Listing::Sent)),
    }
}

/// Returns the work with the reply to a reading, which changes nothing.
fn told(reply: Result<Reply, StoreFault>) -> Result<Work<Listing>, StoreFault>
    ensures { result ≡ told_of reply }
{
    match reply {
        Ok(reply) => Ok(Work::Answered(Answered {
            reply,
            is_changed: false,
        })),
        Err(fault) => Err(fault),
    }
}
