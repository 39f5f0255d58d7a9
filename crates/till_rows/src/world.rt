//! The things that all days begin with.
use crate::book::new_book;
use crate::shop::new_chain;
use crate::zones::Zones;
use counter_routes::Routes;
use row_player::{Fault, Image, Ram};
use std::alloc::Global;
use std::marker::Model;

/// A till that was never used, and a chain with the opening rows.
#[derive(Drop)]
pub struct World {
    /// The server's own reader of requests.
    pub routes: Routes,
    /// The till in each of its zones.
    pub zones: Zones,
    /// What the files of the till's book hold.
    pub book: Image,
    /// What the files of the chain hold.
    pub chain: Image,
}

/// The model is trivial, as for `Days`.
impl Model for World {
    ghost use Rattle.std.specs.Prelude.{⊤};

    ghost Value = { ⊤ };

    ghost view = { λ _. tt };
}

impl World {
    /// Makes what all days begin with.
    pub fn new(alloc: Global) -> Result<World, Fault> {
        let book = new_book::<Ram>(alloc)?;
        let chain = new_chain::<Ram>(alloc)?;
        let zones = Zones::new(alloc)?;
        match Routes::new(alloc) {
            Ok(routes) => Ok(World {
                routes,
                zones,
                book,
                chain,
            }),
            Err(_) => Err(Fault::Line("no memory")),
        }
    }
}
