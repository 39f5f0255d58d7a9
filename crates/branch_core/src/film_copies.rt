//! Lists the copies of a film that are in stock, and the copies that aren't.

ghost use Rattle.std.specs.Prelude.{◌≡◌, ℕ, filter, map, IfOk};
ghost use Rattle.shop_model.specs.Shop.{Shop};
ghost use Rattle.shop_model.specs.Stock.{film_in_stock, film_not_in_stock};
ghost use Rattle.branch_core.specs.Agreed.{AreOfFilm, is_listed, seen_film_copy};

use shop_types::{CopyNo, NoMemory};
use std::alloc::Global;

/// A copy of a film.
#[derive(Drop)]
pub struct FilmCopy {
    pub number: CopyNo,
    /// Whether it is in the shop, neither sent nor scrapped.
    pub is_here: bool,
    /// Whether no rental of it is open.
    pub is_in_stock: bool,
}

/// Returns whether the copy is here, and is in stock exactly if the flag is set.
fn is_listed(copy: &FilmCopy, is_in: bool) -> bool
    ensures { result ≡ is_listed is_in (seen_film_copy copy.now) }
{
    copy.is_here && copy.is_in_stock == is_in
}

/// Returns the numbers of the copies that are here, and that are in stock exactly if the flag is set.
fn listed(alloc: Global, copies: &[FilmCopy], is_in: bool) -> Result<Vec<CopyNo>, NoMemory>
    ensures { IfOk result (λ numbers. numbers.items
        ≡ map (λ it. it.0) (filter (is_listed is_in) (map seen_film_copy copies.now))) }
{
    let mut numbers = Vec::new(alloc);
    for copy in copies {
        if is_listed(copy, is_in) {
            let Ok(()) = numbers.push(copy.number) else {
                return Err(NoMemory);
            };
        }
    }
    Ok(numbers)
}

/// Returns the numbers of the copies that are here and in stock: the manual's `film_in_stock`. Our own rule is that
/// they have to be here.
pub fn film_in_stock(alloc: Global, copies: &[FilmCopy]) -> Result<Vec<CopyNo>, NoMemory>
    ensures { IfOk result (λ numbers. (film : ℕ) (shop : Shop) → AreOfFilm film shop copies.now
        → numbers.items ≡ film_in_stock film shop) }
{
    listed(alloc, copies, true)
}

/// Returns the numbers of the copies that are here and not in stock: the manual's `film_not_in_stock`. Our own rule is
/// that they have to be here.
pub fn film_not_in_stock(alloc: Global, copies: &[FilmCopy]) -> Result<Vec<CopyNo>, NoMemory>
    ensures { IfOk result (λ numbers. (film : ℕ) (shop : Shop) → AreOfFilm film shop copies.now
        → numbers.items ≡ film_not_in_stock film shop) }
{
    listed(alloc, copies, false)
}
