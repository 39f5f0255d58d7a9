//! The six views, head office's sales and a branch's overdue rentals, each as the text of a list, and any view by its
//! name. Each has its statement, a type that takes its rows one at a time, and a definition of what its join shows of
//! the books.
#![tactic(auto)]

ghost use Rattle.std.specs.Prelude.{◌≡◌, IfOk, string_bytes};
ghost use Rattle.sqlite.specs.Held.{state};
ghost use Rattle.sqlite.specs.State.{HasCleanDisk};
ghost use Rattle.sql_rows.specs.Calls.{StaysSame};
ghost use Rattle.shop_model.specs.Books.{Books, shop_of};
ghost use Rattle.shop_model.specs.Json.{array};
ghost use Rattle.shop_model.specs.Views.{view_rows};
ghost use Rattle.shop_types.specs.Seen.{seen_view};
ghost use Rattle.shop_schema.specs.Shop.{Holds};
ghost use Rattle.shop_schema.specs.Held.{IsHeld};

mod actors;
mod categories;
mod customers;
mod films;
mod overdue;
mod pages;
mod people;
mod staff;
mod stores;

pub use actors::actor_info;
pub use categories::sales_by_film_category;
pub use customers::customer_list;
pub use films::film_list;
pub use overdue::overdue_list;
use shop_types::{BranchNo, View};
use sql_rows::StoreFault;
use sqlite::{Alter, Connection};
pub use staff::staff_list;
use std::alloc::Global;
pub use stores::{sales, sales_by_store};

/// Returns the view as the branch sees it, as the text of a list. The database stays as it was, unless the store
/// fails, which commits nothing.
pub fn view_text<S: Alter>(
    alloc: Global,
    conn: &mut Connection<S>,
    branch: BranchNo,
    view: View,
) -> Result<String, StoreFault>
    ensures text { HasCleanDisk (state S.Store conn.new)
        → IfOk result (λ s. (books : Books) → Holds (state S.Store conn.old) books → IsHeld books → string_bytes s
        ≡ array (view_rows branch books.catalogue (shop_of branch books) (seen_view view))) }
    ensures same { StaysSame S.Store conn.old conn.new result }
{
    match view {
        View::CustomerList => customer_list(alloc, conn, branch),
        View::StaffList => staff_list(alloc, conn, branch),
        View::FilmList => film_list(alloc, conn),
        View::ActorInfo => actor_info(alloc, conn),
        View::SalesByStore => sales_by_store(alloc, conn, branch),
        View::SalesByFilmCategory => sales_by_film_category(alloc, conn, branch),
    }
}
