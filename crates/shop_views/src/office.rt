ghost use Rattle.std.specs.Prelude.{◌≡◌, ◌∷◌, option_to_list, IfOk, string_bytes};
ghost use Rattle.shop_model.specs.Json.{object};
ghost use Rattle.shop_model.specs.OfficeActs.{rule_name};
ghost use Rattle.shop_types.specs.Seen.{seen_office_act, seen_rule};
ghost use Rattle.shop_views.specs.Fields.{fields_text};
ghost use Rattle.shop_views.specs.Bodies.{office_members};

use crate::fields::{Field, object_text};
use shop_types::{OfficeAct, Rule};
use std::alloc::{AllocError, Global};

fn rule_name(rule: Rule) -> &'static str
    ensures { result.now ≡ rule_name (seen_rule rule) }
{
    match rule {
        Rule::ByCode => "code",
        Rule::ByComment => "comment",
    }
}

/// Returns the one or two members of the body. A new row's number is the next one of its kind.
fn office_fields(act: &OfficeAct, next: u32) -> (Field<'static>, Option<Field<'static>>)
    ensures { fields_text (result.0 ∷ option_to_list result.1)
        ≡ object (office_members (seen_office_act act.now) next) }
{
    let next = next as u64;
    match act {
        OfficeAct::Country(_) => (Field::Number("country", next), None),
        OfficeAct::City(_) => (Field::Number("city", next), None),
        OfficeAct::Language(_) => (Field::Number("language", next), None),
        OfficeAct::Category(_) => (Field::Number("category", next), None),
        OfficeAct::Actor(_) => (Field::Number("actor", next), None),
        OfficeAct::Film(_) => (Field::Number("film", next), None),
        OfficeAct::Price { film, rate } => (
            Field::Number("film", film.get() as u64),
            Some(Field::Number("rate", rate.get() as u64)),
        ),
        OfficeAct::Withdraw(film) => (Field::Number("film", film.get() as u64), None),
        OfficeAct::Cast { film, actor } => (
            Field::Number("actor", actor.get() as u64),
            Some(Field::Number("film", film.get() as u64)),
        ),
        OfficeAct::Branch(_) => (Field::Number("branch", next), None),
        OfficeAct::Staff(_) => (Field::Number("staff", next), None),
        OfficeAct::Leave(staff) => (Field::Number("staff", staff.get() as u64), None),
        OfficeAct::Manager { branch, staff } => (
            Field::Number("branch", branch.get() as u64),
            Some(Field::Number("staff", staff.get() as u64)),
        ),
        OfficeAct::Rule(rule) => (Field::Text("rule", rule_name(*rule)), None),
    }
}

/// Writes the body that reports to head office what its command did. A new row has the next number of its kind, and a
/// rule is given by its name.
pub fn office_text(alloc: Global, act: &OfficeAct, next: u32) -> Result<String, AllocError>
    ensures { IfOk result (λ s. string_bytes s ≡ object (office_members (seen_office_act act.now) next)) }
{
    match office_fields(act, next) {
        (only, None) => object_text(alloc, &[only]),
        (first, Some(second)) => object_text(alloc, &[first, second]),
    }
}
