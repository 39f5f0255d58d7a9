//! Consignments from the rows of their two tables, in the order of the keys.

ghost use Rattle.std.specs.Prelude.{◌≡◌, [], ◌∷◌, map, is_some};
ghost use Rattle.audit_rows.specs.Joins.{join};
ghost use Rattle.audit_rows.specs.Seen.{seen_header, seen_placed};

use crate::groups::{Grouped, split_group};
use crate::order::are_counted;
use crate::rows::{CheckedHeader, CheckedLine};

impl Grouped for CheckedLine {
    ghost columns = { λ row. row.source ∷ row.addressee ∷ row.number ∷ [] };

    fn is_of(&self, group: &[u32]) -> bool {
        [self.source.get(), self.addressee.get(), self.number].as_slice() == group
    }
}

/// Returns whether the rows of the two tables, in the order of their keys, can be joined into consignments.
pub fn are_joined(headers: &[CheckedHeader], lines: &[CheckedLine]) -> bool
    ensures { result ≡ is_some (join (map seen_header headers.now) (map seen_placed lines.now)) }
{
    let mut rest = lines;
    for header in headers {
        let key = [header.source.get(), header.addressee.get(), header.number];
        let (own, more) = split_group(rest, key.as_slice());
        if !are_counted(own) {
            return false;
        }
        rest = more;
    }
    rest.is_empty()
}
