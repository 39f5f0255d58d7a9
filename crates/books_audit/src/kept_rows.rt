//! Kept commands, each with its caller.

ghost use Rattle.std.specs.Prelude.{◌↔◌, IsTrue};
ghost use Rattle.books_audit.specs.Kept.{HasForm, IsCallerRow};

use crate::acts::is_command;
use crate::listed::Listed;
use crate::office::is_office_command;
use shop_schema::read_cells;
use shop_schema::tables::KeptCells;
use shop_types::Key;
use sql_rows::StoreFault;
use sqlite::Row;

/// The key of a kept command, with its caller; 0 is head office.
#[derive(Drop)]
pub struct CallerRow {
    pub caller: u32,
    pub key: Key,
}

/// Returns whether the bytes are the form of a command of the caller.
fn has_form(caller: u32, form: &[u8]) -> bool
    ensures { IsTrue result ↔ HasForm caller form.now }
{
    if caller == 0 {
        is_office_command(form)
    } else {
        is_command(form)
    }
}

impl Listed for CallerRow {
    ghost is_row = { IsCallerRow };

    fn read(row: &Row) -> Result<Option<CallerRow>, StoreFault> {
        let cells = match read_cells::<KeptCells>(row) {
            Ok(cells) => cells,
            Err(StoreFault::Failed) => return Ok(None),
            Err(fault) => return Err(fault),
        };
        let (caller, (key, (form, (_reply, ())))) = cells;
        if !has_form(caller, form.as_slice()) {
            return Ok(None);
        }
        Ok(Some(CallerRow { caller, key }))
    }
}
