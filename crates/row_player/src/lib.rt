//! The player of rows: reads files of rows, and has a player of their lines play them in order. It has the player of
//! rows of requests, on a chain and a program that the caller passes in.
#![tactic(auto)]

mod asked;
mod chain;
mod fault;
mod files;
mod names;
mod next;
mod ram;
mod row;
mod stage;
mod stops;
mod talk;
mod texts;
mod tills;

pub use asked::{Asked, Kind, Texts};
pub use fault::Fault;
pub use files::play_all;
pub use ram::{Calls, Image, InMemory, NEVER, Ram, calls_of, crash, disks, failing_after};
pub use row::Player;
pub use stage::{Come, Deed, How, Opening, Pieces, Stage};
pub use talk::Talk;
pub use texts::{put_request, says_more};
pub use tills::Tills;
