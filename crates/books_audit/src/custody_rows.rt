//! Copies and consignments, as they are kept of their tables' rows.

ghost use Rattle.std.specs.Prelude.{refl};
ghost use Rattle.shop_model.specs.Books.{CopyRows};
ghost use Rattle.audit_rows.specs.Tables.{checked_row};
ghost use Rattle.books_audit.specs.BranchTables.{IsKeptRow};
ghost use Rattle.books_audit.specs.TableRows.{full_row, only_row, copy_of, copy_kept, line_of, line_kept};
ghost use Rattle.books_audit.specs.Rows.{header_row, IsHeaderRow, placed_row, IsLineRow};
ghost use Rattle.shop_schema.proofs.ShopTables as table;
ghost use Rattle.books_audit.specs.AuditTables as audited;

use crate::listed::Kept;
use audit_rows::books::CheckedCopy;
use audit_rows::{CheckedHeader, CheckedLine, CheckedRow};
use shop_schema::tables::{CopyCells, HeaderCells, LineCells};
use shop_types::Mark;

impl Kept for CheckedRow<CheckedCopy> {
    type Cells = CopyCells;

    ghost kept = { IsKeptRow CopyRows };

    ghost keeps = { copy_of };

    fn keep(cells: CopyCells) -> CheckedRow<CheckedCopy> {
        let (branch, (number, (film, (state, (origin, (copy, ())))))) = cells;
        let mark = Mark {
            branch: origin,
            copy,
        };
        CheckedRow {
            branch,
            number: number.get(),
            it: CheckedCopy { film, state, mark },
        }
    }

    ghost rows = { λ p fits. full_row table.copies (checked_row CopyRows) p fits (copy_kept p) };

    ghost only = { only_row table.copies };
}

impl Kept for CheckedHeader {
    type Cells = HeaderCells;

    ghost kept = { IsHeaderRow };

    ghost keeps = { λ p. header_row (audited.headers.from p) };

    fn keep(cells: HeaderCells) -> CheckedHeader {
        let (source, (addressee, (number, (place, (received, ()))))) = cells;
        CheckedHeader {
            source,
            addressee,
            number: number.get(),
            place: place.get(),
            received,
        }
    }

    ghost rows = { λ p fits. full_row audited.headers header_row p fits refl };

    ghost only = { only_row audited.headers };
}

impl Kept for CheckedLine {
    type Cells = LineCells;

    ghost kept = { IsLineRow };

    ghost keeps = { line_of };

    fn keep(cells: LineCells) -> CheckedLine {
        let (source, (addressee, (number, (line, (film, (branch, (copy, (state, ())))))))) = cells;
        CheckedLine {
            source,
            addressee,
            number: number.get(),
            line: line.get(),
            film,
            mark: Mark { branch, copy },
            state,
        }
    }

    ghost rows = { λ p fits. full_row audited.lines placed_row p fits (line_kept p) };

    ghost only = { only_row audited.lines };
}
