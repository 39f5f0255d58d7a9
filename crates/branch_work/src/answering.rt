//! Answers commands that change nothing: repeats and refused commands.

ghost use Rattle.std.specs.Prelude.{◌≡◌, false, Some, IfOk};
ghost use Rattle.shop_model.specs.Refusals as named;
ghost use Rattle.shop_model.specs.Verdict.{Verdict, Refused};
ghost use Rattle.shop_model.specs.Machine.{Sorry};
ghost use Rattle.shop_model.specs.Answers.{answer_of, accepted_answer};
ghost use Rattle.shop_types.specs.Replies.{seen_reply};
ghost use Rattle.shop_types.specs.Verdicts.{verdict_by};
ghost use Rattle.branch_reports.specs.Told.{IsDecision};

use shop_ledger::Answered;
use shop_types::{Refusal, Reply};
use sql_rows::StoreFault;
use std::alloc::Global;

/// Returns the reply to a command that comes again.
pub fn again(alloc: Global, reply: &str) -> Result<Answered, StoreFault>
    ensures { IfOk result (λ done. (seen_reply done.reply ≡ accepted_answer reply.now) × (done.is_changed ≡ false)) }
{
    let text = String::from_str(alloc, reply)?;
    Ok(Answered {
        reply: Reply::accepted(text),
        is_changed: false,
    })
}

/// Returns the reply to a command that is refused. A decision never gives a refusal of the store, so with such a
/// refusal this fails as the store does.
pub fn refuse(alloc: Global, refusal: Refusal) -> Result<Answered, StoreFault>
    ensures told { IfOk result (λ done. (done.is_changed ≡ false)
        × ((verdict : Verdict) → Some verdict ≡ verdict_by (Some refusal) → (d : named.Refusal)
        × (verdict ≡ Refused d) × (seen_reply done.reply ≡ answer_of (Sorry d)))) }
    ensures decided { IfOk result (λ done. IsDecision (seen_reply done.reply)) }
{
    if refusal.status() == 503 {
        return Err(StoreFault::Failed);
    }
    match refusal {
        Refusal::BadCsv(fault) => match Reply::bad_csv(alloc, fault) {
            Ok(reply) => Ok(Answered {
                reply,
                is_changed: false,
            }),
            Err(_) => Err(StoreFault::Memory),
        },
        other => Ok(Answered {
            reply: Reply::refused(other),
            is_changed: false,
        }),
    }
}
