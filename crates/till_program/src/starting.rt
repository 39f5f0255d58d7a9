//! The program for one list of words: a desk's, a window's, or a till's.

use crate::beginning::{serve_desk, set_up};
use crate::faults::{ShopFault, show_shop_fault};
use crate::given::{DeskWord, USAGE, desk_word, read_leading, window_word};
use crate::init::settings_path;
use crate::program::{Asks, Station, asks_for_prompt, run_till};
use crate::settings::{is_window, read_window};
use crate::window::{TcpDesk, perform_or_say};
use crate::window_prompt::prompt;
use std::fs;
use std::io::Write;

/// The book's file, if none is named.
const BOOK: &str = "till.book";

/// Does what a word about desks asks for.
fn perform_desk_word<W: Write, E: Write>(
    rt: &HostRuntime,
    book: &str,
    word: DeskWord,
    out: &mut W,
    err: &mut E,
) -> Result<u8, ShopFault> {
    match word {
        DeskWord::Desk { port, listen } => serve_desk(rt, book, listen.as_str(), port, out, err),
        DeskWord::Window {
            address,
            staff,
            drawer,
            secret_file,
        } => set_up(rt, book, address, staff, drawer, secret_file, out),
    }
}

/// Says how the words about desks are given, if that is asked for, and else that these aren't.
fn usage<W: Write>(words: &[String], out: &mut W) -> Result<u8, ShopFault> {
    if words.iter().any(|word| word.as_str() == "--help") {
        writeln!(out, "{USAGE}")?;
        return Ok(0);
    }
    Err(ShopFault::Words)
}

/// Does words at a window.
fn perform_at_window<W: Write, E: Write>(
    rt: &HostRuntime,
    settings: &[u8],
    words: &[String],
    out: &mut W,
    err: &mut E,
) -> Result<u8, ShopFault> {
    let window = read_window(rt.alloc(), settings)?;
    if asks_for_prompt(rt.alloc(), words) {
        prompt(rt, &window, words, out, err)
    } else {
        let standing = Station {
            staff: None,
            asks: Asks::Nobody,
        };
        let desk = TcpDesk::of(rt, &window);
        Ok(perform_or_say(rt, &desk, &window, words, standing, out, err))
    }
}

/// Does what words ask for.
fn perform_words<W: Write, E: Write>(
    rt: &HostRuntime,
    words: &[String],
    out: &mut W,
    err: &mut E,
) -> Result<u8, ShopFault> {
    let leading = read_leading(words);
    let book = leading.book.unwrap_or(BOOK);
    let more = words.get(leading.place.saturating_add(1)..).unwrap_or(&[]);
    let word = match words.get(leading.place) {
        Some(word) if word.as_str() == "desk" => desk_word(rt.alloc(), more)?,
        Some(word) if word.as_str() == "window" => window_word(rt.alloc(), more)?,
        Some(_) | None => {
            let path = settings_path(rt, book)?;
            return match fs::read(rt, path.as_str()) {
                Ok(text) if is_window(text.as_slice()) => {
                    perform_at_window(rt, text.as_slice(), words, out, err)
                }
                Ok(_) | Err(_) => Ok(run_till(rt, words, out, err)),
            };
        }
    };
    match word {
        Some(word) => perform_desk_word(rt, book, word, out, err),
        None => usage(more, out),
    }
}

/// Runs the whole program for its words, without its own name. `desk` holds a book for windows, and `window` sets one
/// up. Other words are a till's: at a window the desk does them, and prints what they resulted in. Returns the status: 0
/// done, 1 refused, 2 usage, 3 a fault of the till's own, 4 not answered yet.
pub fn run<W: Write, E: Write>(rt: &HostRuntime, words: &[String], out: &mut W, err: &mut E) -> u8 {
    match perform_words(rt, words, out, err) {
        Ok(status) => status,
        Err(fault) => show_shop_fault(fault, err),
    }
}
