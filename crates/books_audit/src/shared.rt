//! Shared rows.

ghost use Rattle.std.specs.Prelude.{refl};
ghost use Rattle.audit_rows.specs.Ordered.{cast_row, city_row, film_row, staff_row};
ghost use Rattle.books_audit.specs.TableRows.{full_row, only_row};
ghost use Rattle.books_audit.specs.Rows.{chain_row, IsChainRow, rule_row, IsRuleRow, IsNamedRow, IsCityRow, IsActorRow, IsFilmRow, IsCastRow, IsBranchRow, IsStaffRow, shared_row, told_row};
ghost use Rattle.shop_schema.proofs.ShopTables as table;
ghost use Rattle.books_audit.specs.AuditTables as audited;

use crate::listed::Kept;
use audit_rows::{CheckedBranch, CheckedCast, CheckedCity, CheckedFilm, CheckedStaff};
use shop_schema::tables::{
    ActorCells, BranchCells, CastCells, ChainCells, CityCells, FilmCells, NamedCells, RuleCells,
    StaffCells,
};
use shop_types::{Rule, T45, Token};

/// The row of the table `chain`.
#[derive(Drop)]
pub struct ChainRow {
    pub office_token: Token,
}

/// The row of the table `chain_rule`: whether balances follow the manual's comment.
#[derive(Clone, Copy, Drop)]
pub struct RuleRow {
    pub by_comment: bool,
}

/// A shared row with its number, and what is kept of it.
#[derive(Drop)]
pub struct SharedRow<T> {
    pub number: u32,
    pub it: T,
}

impl Kept for ChainRow {
    type Cells = ChainCells;

    ghost kept = { IsChainRow };

    ghost keeps = { λ p. chain_row (table.chain.from p) };

    fn keep(cells: ChainCells) -> ChainRow {
        let (_version, (office_token, ())) = cells;
        ChainRow { office_token }
    }

    ghost rows = { λ p fits. full_row table.chain chain_row p fits refl };

    ghost only = { only_row table.chain };
}

impl Kept for RuleRow {
    type Cells = RuleCells;

    ghost kept = { IsRuleRow };

    ghost keeps = { λ p. rule_row (table.chain_rule.from p) };

    fn keep(cells: RuleCells) -> RuleRow {
        let (rule, ()) = cells;
        match rule {
            Rule::ByCode => RuleRow { by_comment: false },
            Rule::ByComment => RuleRow { by_comment: true },
        }
    }

    ghost rows = { λ p fits. full_row table.chain_rule rule_row p fits refl };

    ghost only = { only_row table.chain_rule };
}

impl Kept for SharedRow<T45> {
    type Cells = NamedCells<0>;

    ghost kept = { IsNamedRow };

    ghost keeps = { λ p. shared_row (λ name. name) (table.named.from p) };

    fn keep(cells: NamedCells<0>) -> SharedRow<T45> {
        let (number, (name, ())) = cells;
        SharedRow {
            number: number.get(),
            it: name,
        }
    }

    ghost rows = { λ p fits. full_row table.named (shared_row (λ name. name)) p fits refl };

    ghost only = { only_row table.named };
}

impl Kept for SharedRow<CheckedCity> {
    type Cells = CityCells;

    ghost kept = { IsCityRow };

    ghost keeps = { λ p. shared_row city_row (table.cities.from p) };

    fn keep(cells: CityCells) -> SharedRow<CheckedCity> {
        let (number, (_name, (country, ()))) = cells;
        SharedRow {
            number: number.get(),
            it: CheckedCity { country },
        }
    }

    ghost rows = { λ p fits. full_row table.cities (shared_row city_row) p fits refl };

    ghost only = { only_row table.cities };
}

impl Kept for SharedRow<()> {
    type Cells = ActorCells;

    ghost kept = { IsActorRow };

    ghost keeps = { λ p. shared_row (λ it. tt) (table.actors.from p) };

    fn keep(cells: ActorCells) -> SharedRow<()> {
        let (number, (_first, (_last, ()))) = cells;
        SharedRow {
            number: number.get(),
            it: (),
        }
    }

    ghost rows = { λ p fits. full_row table.actors (shared_row (λ it. tt)) p fits refl };

    ghost only = { only_row table.actors };
}

impl Kept for SharedRow<CheckedFilm> {
    type Cells = FilmCells;

    ghost kept = { IsFilmRow };

    ghost keeps = { λ p. shared_row film_row (table.films.from p) };

    fn keep(cells: FilmCells) -> SharedRow<CheckedFilm> {
        let (number, (_title, (_description, (language, (category, _priced))))) = cells;
        SharedRow {
            number: number.get(),
            it: CheckedFilm { language, category },
        }
    }

    ghost rows = { λ p fits. full_row table.films (shared_row film_row) p fits refl };

    ghost only = { only_row table.films };
}

impl Kept for CheckedCast {
    type Cells = CastCells;

    ghost kept = { IsCastRow };

    ghost keeps = { λ p. cast_row (table.casts.from p) };

    fn keep(cells: CastCells) -> CheckedCast {
        let (film, (actor, ())) = cells;
        CheckedCast { film, actor }
    }

    ghost rows = { λ p fits. full_row table.casts cast_row p fits refl };

    ghost only = { only_row table.casts };
}

impl Kept for SharedRow<CheckedBranch> {
    type Cells = BranchCells;

    ghost kept = { IsBranchRow };

    ghost keeps = { λ p. shared_row told_row (audited.branches.from p) };

    fn keep(cells: BranchCells) -> SharedRow<CheckedBranch> {
        let (number, (token, (_address, (_postal, (_phone, more))))) = cells;
        let (city, (manager, (last, ()))) = more;
        SharedRow {
            number: number.get(),
            it: CheckedBranch {
                token,
                city,
                manager,
                last,
            },
        }
    }

    ghost rows = { λ p fits. full_row audited.branches (shared_row told_row) p fits refl };

    ghost only = { only_row audited.branches };
}

impl Kept for SharedRow<CheckedStaff> {
    type Cells = StaffCells;

    ghost kept = { IsStaffRow };

    ghost keeps = { λ p. shared_row staff_row (table.staff.from p) };

    fn keep(cells: StaffCells) -> SharedRow<CheckedStaff> {
        let (number, (branch, (_first, (_last, (_address, (_postal, (_phone, more))))))) = cells;
        let (city, _gone) = more;
        SharedRow {
            number: number.get(),
            it: CheckedStaff { branch, city },
        }
    }

    ghost rows = { λ p fits. full_row table.staff (shared_row staff_row) p fits refl };

    ghost only = { only_row table.staff };
}
