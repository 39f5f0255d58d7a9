//! Lists the lines of a consignment that arrived.

ghost use Rattle.std.specs.Prelude.{◌≡◌, ◌≤◌, ◌==◌, length, IfOk};
ghost use Rattle.std.specs.List.{list_any};
ghost use Rattle.shop_model.specs.Rows.{mem, arrived};

use shop_types::{LineNo, NoMemory, ParcelLine, ParcelLines};
use std::alloc::Global;

fn has_line(missing: &[LineNo], line: u32) -> bool
    ensures { result ≡ list_any (λ it. it == line) missing.now }
{
    missing.iter().any(|it| it.get() == line)
}

/// Returns whether the line at that place is missing. Places count from 1.
#[tactic(auto, using(crate::proofs::ConsignmentLemmas::any_mem))]
fn is_missing(missing: &[LineNo], line: u32) -> bool
    ensures { result ≡ mem line missing.now }
{
    has_line(missing, line)
}

/// Returns the lines that aren't missing, in their order.
pub fn arrived_lines(
    alloc: Global,
    lines: &ParcelLines,
    missing: &[LineNo],
) -> Result<Vec<ParcelLine>, NoMemory>
    ensures { IfOk result (λ come. come.items ≡ arrived missing.now lines.now) }
{
    let mut come = Vec::new(alloc);
    let mut place = 1;
    for line in lines.as_slice() {
        if !is_missing(missing, place) {
            let Ok(()) = come.push(*line) else {
                return Err(NoMemory);
            };
        }
        place += 1;
    }
    Ok(come)
}
