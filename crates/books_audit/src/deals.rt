//! Rows of branches.

ghost use Rattle.std.specs.Prelude.{refl};
ghost use Rattle.shop_model.specs.Books.{Customers, Rentals, TermRows, Payments};
ghost use Rattle.audit_rows.specs.Ordered.{lot_row};
ghost use Rattle.audit_rows.specs.Tables.{checked_row};
ghost use Rattle.books_audit.specs.BranchTables.{IsKeptRow};
ghost use Rattle.books_audit.specs.TableRows.{full_row, only_row};
ghost use Rattle.books_audit.specs.Rows.{IsLotRow};
ghost use Rattle.shop_schema.proofs.ShopTables as table;

use crate::listed::Kept;
use audit_rows::books::{CheckedCustomer, CheckedTerms};
use audit_rows::{CheckedLot, CheckedRow};
use shop_schema::tables::{CustomerCells, LotCells, PaymentCells, RentalCells, TermsCells};
use shop_types::{Payment, Rental};

impl Kept for CheckedRow<CheckedCustomer> {
    type Cells = CustomerCells;

    ghost kept = { IsKeptRow Customers };

    ghost keeps = { λ p. checked_row Customers (table.customers.from p) };

    fn keep(cells: CustomerCells) -> CheckedRow<CheckedCustomer> {
        let (branch, (number, (_first, (_last, (_address, (_postal, (_phone, more))))))) = cells;
        let (city, (_active, (created, _behind))) = more;
        CheckedRow {
            branch,
            number: number.get(),
            it: CheckedCustomer { city, created },
        }
    }

    ghost rows = { λ p fits. full_row table.customers (checked_row Customers) p fits refl };

    ghost only = { only_row table.customers };
}

impl Kept for CheckedRow<Rental> {
    type Cells = RentalCells;

    ghost kept = { IsKeptRow Rentals };

    ghost keeps = { λ p. checked_row Rentals (table.rentals.from p) };

    fn keep(cells: RentalCells) -> CheckedRow<Rental> {
        let (branch, (number, (rented, (copy, (customer, (returned, (staff, ()))))))) = cells;
        CheckedRow {
            branch,
            number: number.get(),
            it: Rental {
                rented,
                copy,
                customer,
                returned,
                staff,
            },
        }
    }

    ghost rows = { λ p fits. full_row table.rentals (checked_row Rentals) p fits refl };

    ghost only = { only_row table.rentals };
}

impl Kept for CheckedRow<CheckedTerms> {
    type Cells = TermsCells;

    ghost kept = { IsKeptRow TermRows };

    ghost keeps = { λ p. checked_row TermRows (table.terms.from p) };

    fn keep(cells: TermsCells) -> CheckedRow<CheckedTerms> {
        let (branch, (number, _terms)) = cells;
        CheckedRow {
            branch,
            number: number.get(),
            it: CheckedTerms,
        }
    }

    ghost rows = { λ p fits. full_row table.terms (checked_row TermRows) p fits refl };

    ghost only = { only_row table.terms };
}

impl Kept for CheckedRow<Payment> {
    type Cells = PaymentCells;

    ghost kept = { IsKeptRow Payments };

    ghost keeps = { λ p. checked_row Payments (table.payments.from p) };

    fn keep(cells: PaymentCells) -> CheckedRow<Payment> {
        let (branch, (number, (customer, (staff, (rental, (amount, (paid, ()))))))) = cells;
        CheckedRow {
            branch,
            number: number.get(),
            it: Payment {
                customer,
                staff,
                rental,
                amount,
                paid,
            },
        }
    }

    ghost rows = { λ p fits. full_row table.payments (checked_row Payments) p fits refl };

    ghost only = { only_row table.payments };
}

impl Kept for CheckedLot {
    type Cells = LotCells;

    ghost kept = { IsLotRow };

    ghost keeps = { λ p. lot_row (table.lots.from p) };

    fn keep(cells: LotCells) -> CheckedLot {
        let (branch, (name, ())) = cells;
        CheckedLot { branch, name }
    }

    ghost rows = { λ p fits. full_row table.lots lot_row p fits refl };

    ghost only = { only_row table.lots };
}
