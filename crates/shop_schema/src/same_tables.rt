//! Whether two tables, and two schemas, are the same.

ghost use Rattle.std.specs.Prelude.{◌≡◌, ◌↔◌, ◌≤◌, IsTrue, [], true, length};
ghost use Rattle.std.specs.List.{list_all};
ghost use Rattle.shop_schema.specs.Bare.{is_bare, IsPlain, HaveFirst, begun};

use crate::same_parts::{Same, same_slices};
use sqlite_schema::code::Terms;
use sqlite_schema::schema::{Schema, Stamps, Table};

/// Compares the terms of two tables. An expected table has no CHECK and no computed default.
fn same_terms(first: &Terms, second: &Terms) -> bool
    ensures { IsTrue result ↔ ((first.now ≡ second.now) × (second.now ≡ [])) }
{
    first.roots.is_empty() && second.roots.is_empty()
}

fn same_stamps(first: &Stamps, second: &Stamps) -> bool
    ensures { IsTrue result
        ↔ ((first.now ≡ second.now) × (second.now ≡ record { places = []; terms = []; formats = [] })) }
{
    same_terms(&first.terms, &second.terms)
        && first.places.is_empty()
        && second.places.is_empty()
        && first.formats.is_empty()
        && second.formats.is_empty()
}

fn same_key(first: Option<usize>, second: Option<usize>) -> bool
    ensures { IsTrue result ↔ (first ≡ second) }
{
    first == second
}

/// Returns whether the two have the same columns and the same primary key.
fn same_columns(first: &Table, second: &Table) -> bool
    ensures { IsTrue result
        ↔ ((first.now.columns ≡ second.now.columns)
        × ((first.now.key ≡ second.now.key) × (first.now.primary ≡ second.now.primary))) }
{
    first.columns.same(&second.columns)
        && same_key(first.key, second.key)
        && first.primary.same(&second.primary)
}

/// Returns whether the two have the same other keys.
fn same_keys(first: &Table, second: &Table) -> bool
    ensures { IsTrue result ↔ ((first.now.uniques ≡ second.now.uniques)
        × ((first.now.orders ≡ second.now.orders) × (first.now.references ≡ second.now.references))) }
{
    first.uniques.same(&second.uniques)
        && first.orders.same(&second.orders)
        && first.references.same(&second.references)
}

fn same_names(first: &Table, second: &Table) -> bool
    ensures { IsTrue result
        ↔ ((first.now.name ≡ second.now.name)
        × ((first.now.tree ≡ second.now.tree) × (first.now.is_counted ≡ second.now.is_counted))) }
{
    first.name.same(&second.name)
        && first.tree == second.tree
        && first.is_counted == second.is_counted
}

fn same_rest(first: &Table, second: &Table) -> bool
    ensures { IsTrue result
        ↔ (((first.now.checks ≡ second.now.checks)
        × ((first.now.computed ≡ second.now.computed) × (first.now.stamps ≡ second.now.stamps))) × IsTrue (is_bare
        second.now)) }
{
    same_terms(&first.checks, &second.checks)
        && first.computed.same(&second.computed)
        && same_stamps(&first.stamps, &second.stamps)
}

fn same_table(first: &Table, second: &Table) -> bool
    ensures { IsTrue result ↔ ((first.now ≡ second.now) × IsTrue (is_bare second.now)) }
{
    same_names(first, second)
        && same_columns(first, second)
        && same_keys(first, second)
        && same_rest(first, second)
}

fn same_tables(first: &[Table], second: &[Table]) -> bool
    ensures { IsTrue result ↔ ((first.now ≡ second.now) × IsTrue (list_all is_bare second.now)) }
{
    let [a, more @ ..] = first else {
        return second.is_empty();
    };
    let [b, others @ ..] = second else {
        return false;
    };
    same_table(a, b) && same_tables(more, others)
}

/// Returns whether the first schema is the second, and the second has no view, no CHECK and no default that is
/// computed.
pub fn same_schema(first: &Schema, second: &Schema) -> bool
    ensures { IsTrue result ↔ ((first.now ≡ second.now) × IsPlain second.now) }
{
    same_tables(first.tables.as_slice(), second.tables.as_slice())
        && first.indexes.same(&second.indexes)
        && first.views.is_empty()
        && second.views.is_empty()
}

/// Returns whether the first schema has exactly the first `tables` tables and `indexes` indexes of the second. In that
/// part no table may have a CHECK or a default that is computed.
pub(crate) fn same_begun(first: &Schema, second: &Schema, tables: usize, indexes: usize) -> bool
    requires tables { tables ≤ length second.now.tables }
    requires indexes { indexes ≤ length second.now.indexes }
    ensures { IsTrue result
        ↔ ((first.now ≡ begun tables indexes second.now) × IsPlain (begun tables indexes second.now)) }
{
    same_tables(first.tables.as_slice(), &second.tables.as_slice()[..tables])
        && same_slices(
            first.indexes.as_slice(),
            &second.indexes.as_slice()[..indexes],
        )
        && first.views.is_empty()
}

/// Returns whether the first tables of the two are the same, whatever else the schemas have, and no term stands in
/// that table.
pub(crate) fn same_first(first: &Schema, second: &Schema) -> bool
    ensures { IsTrue result ↔ HaveFirst first.now.tables second.now.tables }
{
    let [begun, ..] = first.tables.as_slice() else {
        return false;
    };
    let [wanted, ..] = second.tables.as_slice() else {
        return false;
    };
    same_table(begun, wanted)
}
