//! The numbers that stand for states in columns.

ghost use Rattle.std.specs.Prelude.{◌≡◌};
ghost use Rattle.sql_rows.specs.Rows.{number_value};
ghost use Rattle.shop_types.specs.Seen.{seen_state, seen_line_state};
ghost use Rattle.shop_schema.specs.RowValues.{state_value, line_value};

use shop_types::{CopyState, LineState};

/// Returns the number that stands for where a copy is.
pub fn state_code(state: CopyState) -> u32
    ensures { number_value result ≡ state_value (seen_state state) }
{
    match state {
        CopyState::Here => 0,
        CopyState::Sent => 1,
        CopyState::Scrapped => 2,
    }
}

/// Returns the number that stands for a line's state.
pub fn line_state_code(state: LineState) -> u32
    ensures { number_value result ≡ line_value (seen_line_state state) }
{
    match state {
        LineState::UnderWay => 0,
        LineState::Arrived => 1,
        LineState::Missing => 2,
    }
}
