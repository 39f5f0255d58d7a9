//! Laws, each on a function with nothing to do.

ghost use Rattle.shop_schema.specs.Forms.{FormsAreOneToOne, OfficeFormsAreOneToOne};

/// Commands of a branch under one key have one stored form exactly where they are one command.
#[tactic(auto, using(crate::proofs::OneToOne::forms_are_one_to_one))]
pub fn forms_are_one_to_one()
    ensures { FormsAreOneToOne }
{}

/// Commands of head office under one key have one stored form exactly where they are one command.
#[tactic(auto, using(crate::proofs::OfficeOneToOne::office_forms_are_one_to_one))]
pub fn office_forms_are_one_to_one()
    ensures { OfficeFormsAreOneToOne }
{}
