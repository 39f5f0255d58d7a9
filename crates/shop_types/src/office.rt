use crate::{
    Actor, ActorNo, Branch, BranchNo, City, Film, FilmNo, Key, Rate, Rule, Staff, StaffNo, T45,
};

/// What a command of head office does to the catalogue.
#[derive(Drop)]
pub enum OfficeAct {
    Country(T45),
    City(City),
    Language(T45),
    Category(T45),
    Actor(Actor),
    Film(Film),
    /// Sets what a rental of the film costs.
    Price { film: FilmNo, rate: Rate },
    /// Takes a film out of the catalogue: it can't be rented or imported from then on.
    Withdraw(FilmNo),
    /// Puts an actor into the cast of a film.
    Cast { film: FilmNo, actor: ActorNo },
    Branch(Branch),
    Staff(Staff),
    /// A member of staff leaves permanently. A manager who leaves stays named.
    Leave(StaffNo),
    /// Makes a member of staff of the branch its manager.
    Manager { branch: BranchNo, staff: StaffNo },
    /// Chooses the rule for balances, for the whole chain.
    Rule(Rule),
}

/// A command of head office.
#[derive(Drop)]
pub struct OfficeCommand {
    /// By which the command is known where it is sent again.
    pub key: Key,
    pub act: OfficeAct,
}
