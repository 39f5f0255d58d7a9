//! Imports: commands whose parts stand in the path, with a stock file as the body.

ghost use Rattle.std.specs.Prelude.{◌≡◌, ◌≤◌, IfOk, IfErr, Some, None, length};
ghost use Rattle.shop_types.specs.Seen.{seen_command};
ghost use Rattle.counter_routes.specs.Imports.{name_in, staff_in, moment_in, import_in};
ghost use Rattle.counter_routes.specs.declared.bodies.BodyFault.TheVariants.{BadBody};

use crate::bodies::BodyFault;
use http_messages::part;
use shop_types::{Act, Command, Moment, Name, StaffNo, StockFile};
use std::alloc::Global;

fn name<const KIND: u8>(alloc: Global, target: &[u8], n: usize) -> Result<Name<KIND>, BodyFault>
    ensures ok { IfOk result (λ name. name_in target.now n ≡ Some name) }
    ensures bad { IfErr result (λ fault. fault ≡ BadBody → name_in target.now n ≡ None) }
{
    let bytes = part(target, n).ok_or(BodyFault::BadBody)?;
    let Ok(text) = std::str::from_utf8(bytes) else {
        return Err(BodyFault::BadBody);
    };
    Name::read(String::from_str(alloc, text)?).ok_or(BodyFault::BadBody)
}

fn staff(target: &[u8]) -> Option<StaffNo>
    ensures { result ≡ staff_in target.now }
{
    StaffNo::read(part(target, 3)?)
}

/// Reads the moment from the path's part after its first `n` slashes.
pub(crate) fn moment(target: &[u8], n: usize) -> Option<Moment>
    ensures { result ≡ moment_in target.now n }
{
    let bytes = part(target, n)?;
    let Ok(text) = std::str::from_utf8(bytes) else {
        return None;
    };
    Moment::read(text)
}

/// Returns the import that a path writes, of the file that the body is.
#[tactic(auto, unfolding(crate::specs::Imports::import_in))]
pub(crate) fn import_command(
    alloc: Global,
    target: &[u8],
    body: &[u8],
) -> Result<Command, BodyFault>
    requires { length body.now ≤ 65_536 }
    ensures ok { IfOk result (λ command. import_in target.now body.now ≡ Some (seen_command command)) }
    ensures bad { IfErr result (λ fault. fault ≡ BadBody → import_in target.now body.now ≡ None) }
{
    Ok(Command {
        key: name(alloc, target, 2)?,
        staff: staff(target).ok_or(BodyFault::BadBody)?,
        at: moment(target, 4).ok_or(BodyFault::BadBody)?,
        act: Act::Import {
            lot: name(alloc, target, 5)?,
            file: StockFile::new(Vec::from_slice(alloc, body)?).unwrap(),
        },
    })
}
