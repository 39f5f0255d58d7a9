//! The things that a till has beside its book.
use crate::line::{Counter, Wire};
use crate::shelf::{Board, Hands};
use crate::zones::NO_ZONE;
use row_player::Fault;
use shop_types::Moment;
use std::alloc::Global;
use std::cell::{Cell, RefCell};
use std::marker::Model;
use till_cashier::{Link, Shelf};

/// A clock, a shelf, the line to the server, and what is known of that line.
#[derive(Drop)]
pub struct Kit<C: Counter> {
    pub clock: Hands,
    /// The number of the till's zone.
    pub zone: Cell<usize>,
    /// What the last words showed of the line, by which a desk's windows go.
    pub line: Cell<Link>,
    pub shelf: Board,
    pub wire: RefCell<Wire<C>>,
}

/// The model is trivial, as for `Days`.
impl<C: Counter> Model for Kit<C> {
    ghost use Rattle.std.specs.Prelude.{⊤};

    ghost Value = { ⊤ };

    ghost view = { λ _. tt };
}

impl<C: Counter> Kit<C> {
    /// Makes a kit with a line to that server. If `repeats`, each message comes once more after each later word.
    pub fn new(alloc: Global, counter: C, repeats: bool) -> Kit<C> {
        Kit {
            clock: Hands::new(),
            zone: Cell::new(NO_ZONE),
            line: Cell::new(Link::Open),
            shelf: Board::new(alloc),
            wire: RefCell::new(Wire::new(alloc, counter, repeats)),
        }
    }

    /// Sets the clock.
    pub fn sets(&self, at: &str) -> Result<(), Fault> {
        match Moment::read(at) {
            Some(moment) => {
                self.clock.set(moment.seconds());
                Ok(())
            }
            None => Err(Fault::Line("a moment is wanted")),
        }
    }

    /// Adds a line to the branch's sheet beside the book.
    pub fn lays(&self, alloc: Global, row: &str) -> Result<(), Fault> {
        let line = format!(in alloc; "{row}\n")?;
        if self.shelf.add(alloc, "sheet", line.as_str().as_bytes()) {
            Ok(())
        } else {
            Err(Fault::Line("the sheet is in use"))
        }
    }
}
