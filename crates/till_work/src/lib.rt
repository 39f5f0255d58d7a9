//! The till's work between its book and the server: what is typed is entered in the book, what waits there is sent over
//! connections that may break, oldest first, and each reply is recorded.
#![tactic(auto)]

mod adding;
mod delivering;
mod entering;
mod fault;
pub mod laws;
mod place;
mod sending;
mod server;
mod settling;

pub use adding::{Identity, enter, enter_request};
pub use delivering::deliver;
pub use entering::{enter_command, key_bytes};
pub use fault::DeskFault;
pub use place::Place;
pub use sending::{send_oldest, send_waiting};
pub use server::{Server, Watch};
pub use settling::{Settled, settle};
