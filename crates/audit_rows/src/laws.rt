//! Laws, each on a function with nothing to do.

ghost use Rattle.std.specs.Prelude.{◌≡◌, ◌↔◌, true, List, Some, map, flat_map, IsPermutation};
ghost use Rattle.shop_model.specs.Values.{Rules};
ghost use Rattle.shop_model.specs.Books.{Books, Consignment};
ghost use Rattle.shop_model.specs.Sound.{IsSound, IsInCustody, all_lines};
ghost use Rattle.audit_rows.specs.Lists.{climbs};
ghost use Rattle.audit_rows.specs.Canons.{IsCanonOf};
ghost use Rattle.audit_rows.specs.Joins.{Header, Placed, header, placed, header_key, placed_key, join};
ghost use Rattle.audit_rows.specs.Marked.{AreInCustody};

/// Sound books are sound in the order of their keys, too.
#[tactic(auto, using(crate::proofs::Transfer::stays_sound))]
pub fn sound_books_stay_sound()
    ensures { (c b : Books) → IsCanonOf c b → (rules : Rules) → IsSound rules b → IsSound rules c }
{}

/// Joined consignments have the rows of the two tables, one by one. If any consignments have these rows, in whatever
/// order, the join finds them.
#[tactic(auto, using(crate::proofs::JoinLemmas::join_sound, crate::proofs::JoinLemmas::join_complete))]
pub fn join_is_exact()
    ensures sound { (hs : List Header) (ps : List Placed) (its : List Consignment) → join hs ps ≡ Some its
        → (map header its ≡ hs) × (flat_map placed its ≡ ps) }
    ensures complete { (others : List Consignment) (hs : List Header) (ps : List Placed)
        → IsPermutation (map header others) hs → IsPermutation (flat_map placed others) ps
        → climbs (map header_key hs) ≡ true → climbs (map placed_key ps) ≡ true
        → (its : List Consignment) × IsPermutation others its × (join hs ps ≡ Some its) }
{}

/// Books are in custody exactly if their rows of copies and their lines are.
#[tactic(auto, using(crate::proofs::OfBooks::of_books))]
pub fn custody_is_of_rows()
    ensures { (books : Books) → IsInCustody books ↔ AreInCustody books.copies (all_lines books) }
{}
