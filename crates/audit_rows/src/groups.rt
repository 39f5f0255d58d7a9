//! Rows of one branch or of one group. If rows are in order, the rows of a branch or group are neighbours.

ghost use Rattle.std.specs.Prelude.{◌≡◌, ◌==◌, ℕ, List};
ghost use Rattle.std.specs.List.{list_all};
ghost use Rattle.std.specs.Str.{bytes_eq};
ghost use Rattle.audit_rows.specs.Lists.{front_of, back_of};
ghost use Rattle.audit_rows.specs.Shops.{is_among};

/// A row of a branch.
pub trait Owned: Sized + Drop {
    ghost owner: { Self → ℕ };

    /// Returns the row's branch.
    fn owner(&self) -> u32
        ensures { result ≡ owner self.now };
}

/// Returns whether one of so many rows has the number.
pub fn is_among(count: usize, number: u32) -> bool
    ensures { result ≡ is_among count number }
{
    1 <= number && number as usize <= count
}

/// Returns whether every row is of one of so many branches.
pub fn have_owners<T: Owned>(rows: &[T], branches: usize) -> bool
    ensures { result ≡ list_all (λ row. is_among branches (T.owner row)) rows.now }
{
    for row in rows {
        if !is_among(branches, row.owner()) {
            return false;
        }
    }
    true
}

/// Splits off the leading rows of the branch. Returns them, and all rows after them.
pub fn split_branch<T: Owned>(rows: &[T], branch: u32) -> (&[T], &[T])
    ensures front { result.0.now ≡ front_of (λ row. T.owner row == branch) rows.now }
    ensures back { result.1.now ≡ back_of (λ row. T.owner row == branch) rows.now }
{
    for (i, row) in rows.iter().enumerate() {
        if row.owner() != branch {
            return rows.split_at(i);
        }
    }
    rows.split_at(rows.len())
}

/// A row of a group. The group is given by the first columns of the row's key.
pub trait Grouped: Sized + Drop {
    ghost columns: { Self → List ℕ };

    /// Returns whether the row is of the group.
    fn is_of(&self, group: &[u32]) -> bool
        ensures { result ≡ bytes_eq (columns self.now) group.now };
}

/// Splits off the leading rows of the group. Returns them, and all rows after them.
pub fn split_group<'a, T: Grouped>(rows: &'a [T], group: &[u32]) -> (&'a [T], &'a [T])
    ensures front { result.0.now ≡ front_of (λ row. bytes_eq (T.columns row) group.now) rows.now }
    ensures back { result.1.now ≡ back_of (λ row. bytes_eq (T.columns row) group.now) rows.now }
{
    for (i, row) in rows.iter().enumerate() {
        if !row.is_of(group) {
            return rows.split_at(i);
        }
    }
    rows.split_at(rows.len())
}
