//! Which rental the reply to an accepted rent names.

ghost use Rattle.std.specs.Prelude.{◌≡◌, IfOk};
ghost use Rattle.till_model.specs.Register.{rental_told};

use shop_types::RentalNo;
use std::alloc::{AllocError, Global};

/// Returns the rental that a reply with that status and body names, and `None` if it is no reply to an accepted rent.
#[tactic(auto, unfolding(shop_model::specs::Json::escape_byte))]
pub fn rental_in_reply(
    alloc: Global,
    status: u16,
    body: &[u8],
) -> Result<Option<RentalNo>, AllocError>
    ensures { IfOk result (λ it. it ≡ rental_told (record { status = status; body = body.now })) }
{
    if status != 200 || body.len() < 12 {
        return Ok(None);
    }
    let Some(rental) = RentalNo::read(&body[10..body.len() - 1]) else {
        return Ok(None);
    };
    let text = format!(in alloc; "{{\"rental\":{}}}", rental.get())?;
    if text.as_bytes() == body {
        Ok(Some(rental))
    } else {
        Ok(None)
    }
}
