//! The tables of a shop, each at its place among them, and read whole by a text of its own.

ghost use Rattle.std.specs.Prelude.{◌≡◌, List, ◌∷◌, drop, map};
ghost use Rattle.sqlite.specs.Table.{Table};
ghost use Rattle.sql_rows.specs.Calls.{DoesInside, DoesWithin};
ghost use Rattle.sql_rows.specs.Causes.{FailsByFaults};
ghost use Rattle.shop_schema.specs.Shop.{IsShop, HaveRows};
ghost use Rattle.books_audit.specs.Tables.{rows_in, SelectsWhole, AreRowsOf, SelectEach, ReadsWhole, ReadEach};
ghost use Rattle.books_audit.specs.Shops.{HaveTables};

use sql_rows::{StoreFault, query};
use sqlite::{Alter, Row, Transaction};
use std::alloc::Global;

// ---- their places, in the order in which they are made

pub(crate) const CHAIN: usize = 0;

pub(crate) const COUNTRIES: usize = 1;

pub(crate) const LANGUAGES: usize = 2;

pub(crate) const CATEGORIES: usize = 3;

pub(crate) const CITIES: usize = 4;

pub(crate) const ACTORS: usize = 5;

pub(crate) const FILMS: usize = 6;

pub(crate) const CASTS: usize = 7;

pub(crate) const BRANCHES: usize = 8;

pub(crate) const STAFF: usize = 9;

pub(crate) const CUSTOMERS: usize = 10;

pub(crate) const COPIES: usize = 11;

pub(crate) const RENTALS: usize = 12;

pub(crate) const PAYMENTS: usize = 13;

pub(crate) const LOTS: usize = 14;

pub(crate) const CONSIGNMENTS: usize = 15;

pub(crate) const LINES: usize = 16;

pub(crate) const KEPT: usize = 17;

pub(crate) const COUNTERS: usize = 18;

pub(crate) const OUTS: usize = 19;

pub(crate) const PAIRS: usize = 20;

pub(crate) const TERMS: usize = 21;

pub(crate) const RULE: usize = 22;

// ---- the texts that read them

const CHAIN_TEXT: &str = "SELECT * FROM chain";

pub(crate) const COPIES_TEXT: &str = "SELECT * FROM copy";

pub(crate) const LINES_TEXT: &str = "SELECT * FROM consignment_line";

/// The texts that read the tables after the first one.
const OTHER_TEXTS: [&str; 22] = [
    "SELECT * FROM country",
    "SELECT * FROM language",
    "SELECT * FROM category",
    "SELECT * FROM city",
    "SELECT * FROM actor",
    "SELECT * FROM film",
    "SELECT * FROM film_actor",
    "SELECT * FROM branch",
    "SELECT * FROM staff",
    "SELECT * FROM customer",
    COPIES_TEXT,
    "SELECT * FROM rental",
    "SELECT * FROM payment",
    "SELECT * FROM lot",
    "SELECT * FROM consignment",
    LINES_TEXT,
    "SELECT * FROM kept",
    "SELECT * FROM counter",
    "SELECT * FROM out_copy",
    "SELECT * FROM pair_count",
    "SELECT * FROM rental_terms",
    "SELECT * FROM chain_rule",
];

// ---- what was read

/// The rows of the tables as they were read, in whatever order.
#[derive(Drop)]
pub struct TableRows {
    /// The rows of each table, at the table's place.
    pub all: Vec<Vec<Row>>,
}

impl TableRows {
    /// Returns the rows of the table at the place. If there is no table at the place, there are none.
    pub(crate) fn of(&self, place: usize) -> &[Row]
        ensures { result.now ≡ rows_in self.now place }
    {
        match self.all.get(place) {
            Some(rows) => rows.as_slice(),
            None => &[],
        }
    }
}

/// Reads the rows of the table that the text selects.
pub(crate) fn read_whole<S: Alter>(
    tx: &mut Transaction<'_, S>,
    text: &str,
) -> Result<Vec<Row>, StoreFault>
    ensures does { DoesInside S.Store tx.old.conn tx.new.conn result
        (λ rows old new. IsShop old → (t : Table) → SelectsWhole t text.now
        → AreRowsOf t old.now.trees rows.items × (new.now ≡ old.now)) }
    ensures fails { (t : Table) → ReadsWhole t text.now
        → FailsByFaults S.Store tx.old.conn tx.new.conn result IsShop }
{
    query(tx, text, &[])
}

/// Reads the rows of each table that the texts select.
fn read_each<S: Alter>(
    alloc: Global,
    tx: &mut Transaction<'_, S>,
    texts: &[&str],
) -> Result<Vec<Vec<Row>>, StoreFault>
    ensures does { DoesWithin S.Store tx.old.conn tx.new.conn result
        (λ all old new. IsShop old → (tables : List Table) → SelectEach tables (map (λ t. t.now) texts.now)
        → HaveRows tables old.now.trees (map (λ rows. rows.items) all.items) × (new.now ≡ old.now)) }
    ensures fails { (tables : List Table) → ReadEach tables (map (λ t. t.now) texts.now)
        → FailsByFaults S.Store tx.old.conn tx.new.conn result IsShop }
{
    let mut all = Vec::new(alloc);
    for text in texts {
        let rows = read_whole(tx, text)?;
        all.push(rows)?;
    }
    Ok(all)
}

/// Reads the rows of all tables, and changes no table.
pub(crate) fn read_tables<S: Alter>(
    alloc: Global,
    tx: &mut Transaction<'_, S>,
) -> Result<TableRows, StoreFault>
    ensures does { DoesInside S.Store tx.old.conn tx.new.conn result
        (λ tables old new. IsShop old → HaveTables old.now.trees tables × (new.now ≡ old.now)) }
    ensures fails { FailsByFaults S.Store tx.old.conn tx.new.conn result IsShop }
{
    let chain = read_whole(tx, CHAIN_TEXT)?;
    let mut all = read_each(alloc, tx, &OTHER_TEXTS)?;
    all.insert(0, chain)?;
    Ok(TableRows { all })
}
