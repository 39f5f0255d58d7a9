ghost use Rattle.std.specs.Prelude.{⊤, ◌≡◌, [], ◌∷◌, ◌++◌, IfErr, IfOk, map, option_map, option_to_list};
ghost use Rattle.sqlite.specs.Values.{bound};
ghost use Rattle.sqlite_value.specs.Order.{column};
ghost use Rattle.sql_rows.specs.Calls.{DoesInside};
ghost use Rattle.sql_rows.specs.Causes.{FailsByFaults};
ghost use Rattle.sql_rows.specs.Rows.{flag_value};
ghost use Rattle.sql_rows.specs.declared.fault.StoreFault.TheVariants.{Failed};
ghost use Rattle.shop_model.specs.Calendar.{moment_text};
ghost use Rattle.shop_model.specs.Rows.{at, of, set_row};
ghost use Rattle.shop_model.specs.Books.{head};
ghost use Rattle.shop_types.specs.Seen.{seen_customer};
ghost use Rattle.shop_ledger.specs.Calls.{Finds, Stores};
ghost use Rattle.shop_schema.specs.Asked.{HoldsBooks, ShowsFlag};
ghost use Rattle.shop_schema.specs.RowValues.{IsRow, IsCustomer, customer_columns};
ghost use Rattle.shop_schema.specs.Held.{IsHeld};
ghost use Rattle.shop_store.specs.Asked.{IsNoneOf};
ghost use Rattle.shop_store.specs.Seen.{seen_row};

use shop_schema::tables::CustomerCells;
use shop_schema::{MomentText, query_first, read_cells};
use shop_types::{BranchNo, Customer, CustomerNo, Person};
use sql_rows::{StoreFault, Stored, execute, flag_at, query_one};
use sqlite::types::{ToSql, ValueRef};
use sqlite::{Alter, Row, Transaction};

/// A customer of a branch, with its number there.
#[derive(Drop)]
pub struct CustomerRow {
    pub branch: BranchNo,
    pub number: CustomerNo,
    pub customer: Customer,
}

impl Stored for CustomerRow {
    ghost columns = { λ row. customer_columns (seen_row row) };

    ghost fits = { λ row. IsRow IsCustomer (seen_row row) };

    ghost refuses = { IsNoneOf (IsRow IsCustomer) customer_columns };

    fn read(row: &Row) -> Result<CustomerRow, StoreFault> {
        let cells = match read_cells::<CustomerCells>(row) {
            Ok(cells) => cells,
            Err(fault) => return Err(fault),
        };
        let (branch, (number, (first, (last, (address, (postal, (phone, more))))))) = cells;
        let (city, (active, (created, ()))) = more;
        Ok(CustomerRow {
            branch,
            number,
            customer: Customer {
                person: Person {
                    first,
                    last,
                    address,
                    postal,
                    phone,
                    city,
                },
                active,
                created,
            },
        })
    }
}

impl CustomerRow {
    /// Returns the columns in order, as parameters, without the moment.
    fn values<'a>(&'a self, created: &'a MomentText) -> [ValueRef<'a>; 10]
        requires { created.now ≡ moment_text self.now.customer.created }
        ensures { bound result ≡ customer_columns (seen_row self.now) }
    {
        [
            self.branch.get().to_sql(),
            self.number.get().to_sql(),
            self.customer.person.first.as_str().to_sql(),
            self.customer.person.last.as_str().to_sql(),
            self.customer.person.address.as_str().to_sql(),
            self.customer.person.postal.as_str().to_sql(),
            self.customer.person.phone.as_str().to_sql(),
            self.customer.person.city.get().to_sql(),
            self.customer.active.to_sql(),
            created.as_str().to_sql(),
        ]
    }
}

const SELECT_CUSTOMER: &str =
    "SELECT branch, number, first, last, address, postal, phone, city, active, created FROM customer WHERE branch = ?1 AND number = ?2";

/// Returns the branch's customer of the number, or none if there is no such customer.
pub fn customer_at<S: Alter>(
    tx: &mut Transaction<'_, S>,
    branch: BranchNo,
    number: CustomerNo,
) -> Result<Option<CustomerRow>, StoreFault>
    ensures does { DoesInside S.Store tx.old.conn tx.new.conn result
        (λ row. Finds (λ books. option_to_list (option_map (λ it. seen_customer it.customer) row)
        ≡ at number (of branch books.customers))) }
    ensures fails { FailsByFaults S.Store tx.old.conn tx.new.conn result HoldsBooks }
{
    query_one(
        tx,
        SELECT_CUSTOMER,
        &[branch.get().to_sql(), number.get().to_sql()],
    )
}

/// Returns whether the customer in the row may rent.
fn active_in(row: &Row) -> Result<bool, StoreFault>
    ensures ok { IfOk result (λ active. column row.now 0 ≡ flag_value active) }
    ensures failed { IfErr result (λ e. e ≡ Failed → ¬ ShowsFlag row.now) }
{
    flag_at(row, 0)
}

const SELECT_ACTIVE: &str = "SELECT active FROM customer WHERE branch = ?1 AND number = ?2";

/// Returns whether the branch's customer of the number may rent, or none if there is no such customer.
pub fn active_at<S: Alter>(
    tx: &mut Transaction<'_, S>,
    branch: BranchNo,
    number: CustomerNo,
) -> Result<Option<bool>, StoreFault>
    ensures does { DoesInside S.Store tx.old.conn tx.new.conn result
        (λ active. Finds (λ books. active ≡ head (map (λ it. it.active) (at number (of branch books.customers))))) }
    ensures fails { FailsByFaults S.Store tx.old.conn tx.new.conn result HoldsBooks }
{
    query_first(
        tx,
        SELECT_ACTIVE,
        &[branch.get().to_sql(), number.get().to_sql()],
        active_in,
    )
}

const INSERT_CUSTOMER: &str =
    "INSERT INTO customer (branch, number, first, last, address, postal, phone, city, active, created) VALUES (?1, ?2, ?3, ?4, ?5, ?6, ?7, ?8, ?9, ?10)";

/// Adds the customer. After a fault the transaction may be rolled back.
pub fn put_customer<S: Alter>(
    tx: &mut Transaction<'_, S>,
    row: &CustomerRow,
) -> Result<(), StoreFault>
    ensures { DoesInside S.Store tx.old.conn tx.new.conn result
        (λ _. Stores (λ _. ⊤) (λ books. record books { customers = books.customers ++ seen_row row.now ∷ [] })) }
{
    let created = MomentText::of(row.customer.created);
    execute(tx, INSERT_CUSTOMER, &row.values(&created))
}

const UPDATE_ACTIVE: &str = "UPDATE customer SET active = ?3 WHERE branch = ?1 AND number = ?2";

/// Sets whether the customer may rent. A customer who is not there is not made. After a fault the transaction may be
/// rolled back.
pub fn set_active<S: Alter>(
    tx: &mut Transaction<'_, S>,
    branch: BranchNo,
    number: CustomerNo,
    active: bool,
) -> Result<(), StoreFault>
    ensures { DoesInside S.Store tx.old.conn tx.new.conn result
        (λ _. Stores IsHeld (λ books. record books
        { customers = set_row branch number (λ it. record it { active = active }) books.customers })) }
{
    execute(
        tx,
        UPDATE_ACTIVE,
        &[
            branch.get().to_sql(),
            number.get().to_sql(),
            active.to_sql(),
        ],
    )
}
