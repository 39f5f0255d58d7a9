//! Whether two parts of a schema are the same.

ghost use Rattle.std.specs.Prelude.{◌≡◌, ◌↔◌, IsTrue};

use sqlite_items::Items;
use sqlite_schema::code::lend_value;
use sqlite_schema::schema::{Action, Column, Index, Reference};
use sqlite_value::keys::Order;
use sqlite_value::order::is_same;
use sqlite_value::value::Bytes;

/// Values that can be compared: the comparison decides whether two are the same.
pub(crate) trait Same: Sized {
    /// Returns whether the two are the same value.
    fn same(&self, other: &Self) -> bool
        ensures { IsTrue result ↔ (self.now ≡ other.now) };
}

impl Same for usize {
    fn same(&self, other: &usize) -> bool {
        *self == *other
    }
}

impl Same for Order {
    fn same(&self, other: &Order) -> bool {
        self.digits == other.digits
    }
}

impl Same for Bytes {
    fn same(&self, other: &Bytes) -> bool {
        self.as_slice() == other.as_slice()
    }
}

pub(crate) fn same_slices<T: Same>(first: &[T], second: &[T]) -> bool
    ensures { IsTrue result ↔ (first.now ≡ second.now) }
{
    let [a, more @ ..] = first else {
        return second.is_empty();
    };
    let [b, others @ ..] = second else {
        return false;
    };
    a.same(b) && same_slices(more, others)
}

impl<T: Same> Same for Items<T> {
    fn same(&self, other: &Items<T>) -> bool {
        same_slices(self.as_slice(), other.as_slice())
    }
}

impl Same for Column {
    fn same(&self, other: &Column) -> bool {
        self.name.same(&other.name)
            && self.kind == other.kind
            && self.is_strict == other.is_strict
            && self.not_null == other.not_null
            && is_same(lend_value(&self.default), lend_value(&other.default))
            && self.collation == other.collation
    }
}

fn same_action(first: Action, second: Action) -> bool
    ensures { IsTrue result ↔ (first ≡ second) }
{
    first == second
}

fn same_ends(first: &Reference, second: &Reference) -> bool
    ensures { IsTrue result ↔ ((first.now.columns ≡ second.now.columns)
        × ((first.now.parent ≡ second.now.parent) × (first.now.parent_columns ≡ second.now.parent_columns))) }
{
    first.columns.same(&second.columns)
        && first.parent.same(&second.parent)
        && first.parent_columns.same(&second.parent_columns)
}

fn same_actions(first: &Reference, second: &Reference) -> bool
    ensures { IsTrue result ↔ ((first.now.on_delete ≡ second.now.on_delete)
        × ((first.now.on_update ≡ second.now.on_update) × (first.now.is_deferred ≡ second.now.is_deferred))) }
{
    same_action(first.on_delete, second.on_delete)
        && same_action(first.on_update, second.on_update)
        && first.is_deferred == second.is_deferred
}

impl Same for Reference {
    fn same(&self, other: &Reference) -> bool {
        same_ends(self, other) && same_actions(self, other)
    }
}

/// Returns whether the two have the same name, the same tree, and the same tree of their table.
fn same_tree(first: &Index, second: &Index) -> bool
    ensures { IsTrue result
        ↔ ((first.now.name ≡ second.now.name)
        × ((first.now.tree ≡ second.now.tree) × (first.now.table ≡ second.now.table))) }
{
    first.name.same(&second.name) && first.tree == second.tree && first.table == second.table
}

/// Returns whether the two have the same columns, sorted in the same way, and are both unique or both not.
fn same_order(first: &Index, second: &Index) -> bool
    ensures { IsTrue result ↔ ((first.now.columns ≡ second.now.columns)
        × ((first.now.order ≡ second.now.order) × (first.now.is_unique ≡ second.now.is_unique))) }
{
    first.columns.same(&second.columns)
        && first.order.same(&second.order)
        && first.is_unique == second.is_unique
}

impl Same for Index {
    fn same(&self, other: &Index) -> bool {
        same_tree(self, other) && same_order(self, other)
    }
}
