//! Words as they are given to the program: the options before a word, and the two words that are about desks.

use shop_types::StaffNo;
use std::alloc::{AllocError, Global};
use till_words::DrawerNo;

/// What the options before a word say.
#[derive(Clone, Copy)]
pub(crate) struct Leading<'w> {
    /// The name of the book, if one is given.
    pub(crate) book: Option<&'w str>,
    /// Whether somebody is named who gives the word.
    pub(crate) names_staff: bool,
    /// Whether the drawer is named at which the word is given.
    pub(crate) names_drawer: bool,
    /// The place of the word, or how many words there are if none follows.
    pub(crate) place: usize,
}

/// The first word of a line from a window's prompt, where a question can be asked.
pub(crate) const PROMPT: &str = "prompt";

/// The first word of another line.
pub(crate) const ONCE: &str = "once";

/// Who gives words at a window.
#[derive(Clone, Copy)]
pub(crate) struct Giver {
    pub(crate) staff: StaffNo,
    /// The window's drawer, or 0 if it has no drawer.
    pub(crate) drawer: u32,
    /// Whether the words come from a prompt, where a question can be asked.
    pub(crate) is_asked: bool,
    /// Whether the question on the words was answered by yes.
    pub(crate) is_sure: bool,
}

/// Reads the options before a word. An option that isn't one of a till is passed over: the till refuses it.
pub(crate) fn read_leading(words: &[String]) -> Leading<'_> {
    let mut leading = Leading {
        book: None,
        names_staff: false,
        names_drawer: false,
        place: words.len(),
    };
    let mut takes = None;
    for (place, word) in words.iter().enumerate() {
        let word = word.as_str();
        match takes {
            Some("--book") => {
                leading.book = Some(word);
                takes = None;
            }
            Some(_) => takes = None,
            None if word == "--book" || word == "--staff" || word == "--drawer" => {
                leading.names_staff = leading.names_staff || word == "--staff";
                leading.names_drawer = leading.names_drawer || word == "--drawer";
                takes = Some(word);
            }
            None if !word.starts_with("--") => {
                leading.place = place;
                return leading;
            }
            None => {
                leading.names_staff = leading.names_staff || word.starts_with("--staff=");
                leading.names_drawer = leading.names_drawer || word.starts_with("--drawer=");
                leading.book = word.strip_prefix("--book=").or(leading.book);
            }
        }
    }
    leading
}

/// Adds an option with its number. 0 stands for no number.
fn push_option(
    alloc: Global,
    sent: &mut Vec<String>,
    option: &str,
    number: u32,
) -> Result<(), AllocError> {
    sent.push(String::from_str(alloc, option)?)?;
    if number == 0 {
        return Ok(());
    }
    sent.push(format!(in alloc; "{number}")?)?;
    Ok(())
}

/// Adds the member of staff and the window's drawer, if the words name none, and `--yes` if a question was answered by it.
fn push_giver(
    alloc: Global,
    sent: &mut Vec<String>,
    giver: Giver,
    leading: &Leading<'_>,
) -> Result<(), AllocError> {
    let has_drawer = giver.drawer != 0 && !leading.names_drawer;
    for (is_added, option, number) in [
        (giver.is_sure, "--yes", 0),
        (!leading.names_staff, "--staff", giver.staff.get()),
        (has_drawer, "--drawer", giver.drawer),
    ] {
        if is_added {
            push_option(alloc, sent, option, number)?;
        }
    }
    Ok(())
}

/// Adds the words, without the name of a book.
fn push_words(
    sent: &mut Vec<String>,
    words: &[String],
    leading: &Leading<'_>,
) -> Result<(), AllocError> {
    let mut is_name = false;
    for (place, word) in words.iter().enumerate() {
        let is_option = place < leading.place;
        if is_option && (is_name || word.as_str() == "--book") {
            is_name = !is_name;
        } else if !is_option || !word.as_str().starts_with("--book=") {
            sent.push(word.clone()?)?;
        }
    }
    Ok(())
}

/// Returns the line of the words: what says who is asked, and the words without the name of a book. They have the member
/// of staff and the window's drawer if they name none, and `--yes` if a question was answered by it.
pub(crate) fn words_to_send(
    alloc: Global,
    words: &[String],
    giver: Giver,
) -> Result<Vec<String>, AllocError> {
    let leading = read_leading(words);
    let first = if giver.is_asked { PROMPT } else { ONCE };
    let mut sent = Vec::new(alloc);
    sent.push(String::from_str(alloc, first)?)?;
    push_giver(alloc, &mut sent, giver, &leading)?;
    push_words(&mut sent, words, &leading)?;
    Ok(sent)
}

/// What a word about desks asks for.
#[derive(Drop)]
pub(crate) enum DeskWord {
    /// To hold the book for windows, at this port of this address.
    Desk {
        port: u16,
        listen: String,
    },
    /// To set up a window of the desk at this address.
    Window {
        address: String,
        staff: StaffNo,
        drawer: Option<DrawerNo>,
        secret_file: Option<String>,
    },
}

/// What is said if a word about desks isn't given as it should be.
pub(crate) const USAGE: &str =
    "Hold the book for windows: desk --port PORT, at another address with --listen ADDRESS
Set up a window of a desk: window ADDRESS --staff N, with a drawer of its own by --drawer N, and its secret in a file by --secret-file FILE";

/// Parts words into options with their values. A value without an option has the option `--address`. Returns none if an
/// option has no value.
fn pairs_of<'w>(
    alloc: Global,
    words: &'w [String],
) -> Result<Option<Vec<(&'w str, &'w str)>>, AllocError> {
    let mut pairs = Vec::new(alloc);
    let mut takes = None;
    for word in words {
        let word = word.as_str();
        match takes {
            Some(name) => {
                pairs.push((name, word))?;
                takes = None;
            }
            None if !word.starts_with("--") => pairs.push(("--address", word))?,
            None => match word.split_once('=') {
                Some(pair) => pairs.push(pair)?,
                None => takes = Some(word),
            },
        }
    }
    Ok(match takes {
        Some(_) => None,
        None => Some(pairs),
    })
}

/// Returns the value of the option. Returns none if it isn't given once.
fn value_of<'w>(pairs: &[(&'w str, &'w str)], option: &str) -> Option<&'w str> {
    let mut found = None;
    for (name, value) in pairs {
        if *name == option {
            if found.is_some() {
                return None;
            }
            found = Some(*value);
        }
    }
    found
}

/// Tests whether each option is one of these.
fn are_known(pairs: &[(&str, &str)], options: &[&str]) -> bool {
    for (name, _) in pairs {
        let mut is_known = false;
        for option in options {
            is_known = is_known || *name == *option;
        }
        if !is_known {
            return false;
        }
    }
    true
}

/// Reads what follows the word `desk`. Returns none if that isn't its form.
pub(crate) fn desk_word(alloc: Global, words: &[String]) -> Result<Option<DeskWord>, AllocError> {
    let Some(pairs) = pairs_of(alloc, words)? else {
        return Ok(None);
    };
    let pairs = pairs.as_slice();
    let listen = value_of(pairs, "--listen").unwrap_or("127.0.0.1");
    let port = value_of(pairs, "--port").and_then(|port| port.parse::<u16>().ok());
    match port {
        Some(port) if are_known(pairs, &["--port", "--listen"]) => Ok(Some(DeskWord::Desk {
            port,
            listen: String::from_str(alloc, listen)?,
        })),
        Some(_) | None => Ok(None),
    }
}

/// Reads what follows the word `window`. Returns none if that isn't its form.
pub(crate) fn window_word(alloc: Global, words: &[String]) -> Result<Option<DeskWord>, AllocError> {
    let Some(pairs) = pairs_of(alloc, words)? else {
        return Ok(None);
    };
    let pairs = pairs.as_slice();
    let staff = value_of(pairs, "--staff").and_then(|staff| StaffNo::read(staff.as_bytes()));
    let secret_file = match value_of(pairs, "--secret-file") {
        Some(file) => Some(String::from_str(alloc, file)?),
        None => None,
    };
    let drawer = match value_of(pairs, "--drawer") {
        Some(number) => {
            let Some(drawer) = DrawerNo::read(number.as_bytes()) else {
                return Ok(None);
            };
            Some(drawer)
        }
        None => None,
    };
    let is_known = are_known(
        pairs,
        &["--address", "--staff", "--drawer", "--secret-file"],
    );
    match (value_of(pairs, "--address"), staff) {
        (Some(address), Some(staff)) if is_known => Ok(Some(DeskWord::Window {
            address: String::from_str(alloc, address)?,
            staff,
            drawer,
            secret_file,
        })),
        (Some(_) | None, Some(_) | None) => Ok(None),
    }
}
