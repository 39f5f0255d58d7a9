//! Reads the words that are typed at a till, by the library `clap`.
#![tactic(auto)]

mod acts;
mod clap_words;
mod commands;
mod days;
mod given;
mod labels;
mod lines;
mod named;
mod options;
mod places;
mod spoken;
mod texts;
mod usage;
mod words;

pub use clap_words::{asks_for_help, help_text, read_till_words};
pub use lines::split_line;
pub use words::{
    Beginning, DayText, Drawer, DrawerNo, FileName, PersonIn, TillAct, TillLine, TillLook,
    WordList, ZoneText,
};
