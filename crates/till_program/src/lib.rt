//! The till's program for one list of words: a till at its own book, a desk that holds a book for windows, or a window.
#![tactic(auto)]

mod beginning;
mod fault;
mod faults;
mod fields;
mod files;
mod frames;
mod given;
mod greeting;
mod handling;
mod init;
mod input;
mod laws;
mod lines;
mod opening;
mod peers;
mod printing;
mod probing;
mod program;
mod prompt;
mod replies;
mod secret;
mod serving;
mod settings;
mod standard;
mod starting;
mod tcp;
mod way;
mod window;
mod window_prompt;
mod zone_setting;
mod zones;

pub use fault::{NoFrame, NoLine};
pub use faults::ShopFault;
pub use files::write_own;
pub use frames::{frame, read_frame};
pub use handling::{DeskBook, Handled, handle};
pub use init::{is_free, settings_path};
pub use laws::windows_share_a_book;
pub use lines::read_line;
pub use opening::{OpenBook, close_held, close_if_asked};
pub use program::{
    ASKED, Asks, Performed, Station, Stock, Words, book_of, perform_words, says_yes,
};
pub use prompt::change_staff;
pub use replies::{Reply, read_reply, reply_text};
pub use secret::{Secret, is_same};
pub use settings::{NoWindow, WindowSettings, is_window, read_window, window_text};
pub use starting::run;
pub use way::{Patience, Way};
