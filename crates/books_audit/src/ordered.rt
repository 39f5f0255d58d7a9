//! The audit of rows that were read and put in order.

ghost use Rattle.std.specs.Prelude.{IfOk};
ghost use Rattle.audit_rows.specs.Ordered.{AreOrdered};
ghost use Rattle.books_audit.specs.Read.{AuditsOrdered};

use crate::custody::counted;
use audit_rows::{OrderedBooks, is_sound};
use shop_types::{Audit, NoMemory};
use std::alloc::Global;

/// Audits books by their rows in order.
pub(crate) fn audit_ordered(alloc: Global, rows: &OrderedBooks) -> Result<Audit, NoMemory>
    requires { AreOrdered rows.now }
    ensures { IfOk result (AuditsOrdered rows.now) }
{
    let copies = rows.copies.as_slice();
    let lines = rows.lines.as_slice();
    let sound = is_sound(alloc, rows)?;
    Ok(counted(sound, copies, lines))
}
