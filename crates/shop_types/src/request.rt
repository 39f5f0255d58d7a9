use crate::{BranchNo, Command, CopyNo, CustomerNo, FilmNo, Mark, Moment, OfficeCommand};

/// What a counter's reading shows.
#[derive(Clone, Copy)]
pub enum Ask {
    /// One customer of the branch.
    Customer(CustomerNo),
    /// One film, which is the same in all branches.
    Film(FilmNo),
    /// Whether no rental of the copy is open. It looks at rentals alone, whatever the copy's state is.
    InStock(CopyNo),
    /// Which customer has the copy, by its open rental.
    HeldBy(CopyNo),
    /// The copies of the film that are here and in stock.
    FilmInStock(FilmNo),
    /// The copies of the film that are here and not in stock.
    FilmNotInStock(FilmNo),
    /// What the customer owes at the moment, in cents.
    Balance {
        customer: CustomerNo,
        at: Moment,
    },
    /// The rentals that are overdue at the moment.
    Overdue(Moment),
    /// The customers who paid more often than `purchases`, and more than `cents`, in the month before the moment's.
    Rewards {
        at: Moment,
        purchases: u32,
        cents: u32,
    },
    /// The consignments that were sent to the branch, in the order in which they were.
    Arrivals,
    /// The consignments that the branch sent, in the order in which it did.
    Sent,
}

/// A view of the Sakila manual, over the catalogue and the shop of the branch that asks.
#[derive(Clone, Copy)]
pub enum View {
    /// All customers of the branch.
    CustomerList,
    /// All staff of the branch, those who left too.
    StaffList,
    /// All films, withdrawn ones too, each with its actors.
    FilmList,
    /// All actors, each with the films by category.
    ActorInfo,
    /// What the branch has taken for rentals.
    SalesByStore,
    /// What it has taken for rentals of each category's films.
    SalesByFilmCategory,
}

/// What a reading of head office shows, over all branches.
#[derive(Clone, Copy)]
pub enum OfficeAsk {
    /// What each branch has taken for rentals, in order of the branches' numbers.
    Sales,
    /// Where the copy of a mark is.
    Custody(Mark),
    /// The consignments that aren't received, by sender, addressee and number.
    Transit,
    /// Whether the books are sound, and how many copies are where.
    Audit,
}

/// What a caller asks.
#[derive(Drop)]
pub enum Request {
    Do(Command),
    Look(Ask),
    /// A view, which a counter asks for.
    View(View),
    /// A command of head office, which a counter may not ask.
    Office(OfficeCommand),
    /// A reading of head office, which a counter may not ask.
    OfficeLook(OfficeAsk),
}

/// Who asks, by the token that came with the request.
#[derive(Clone, Copy, PartialEq, Eq)]
pub enum Caller {
    /// A counter of the branch.
    Branch(BranchNo),
    /// Head office.
    Office,
    /// A caller whose token nobody has, or who sent none.
    Nobody,
}
