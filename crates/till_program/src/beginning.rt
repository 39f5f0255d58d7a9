//! A desk begins, and a window is set up.

ghost use Rattle.std.specs.Prelude.{◌≡◌, false, IfOk, IfSome};

use crate::faults::ShopFault;
use crate::files::write_own;
use crate::handling::DeskBook;
use crate::init::{is_free, settings_path};
use crate::opening::{OpenBook, close_held};
use crate::program::{Asks, Station, Stock, Words, perform_words};
use crate::secret::Secret;
use crate::serving::serve_windows;
use crate::settings::{WindowSettings, read_window, window_text};
use crate::way::{Patience, Way};
use shop_types::{StaffNo, T128};
use std::fs;
use std::io::Write;
use std::net::{SocketAddr, TcpListener, ToSocketAddrs};
use till_cashier::{Link, TillFault};
use till_words::DrawerNo;

// ---- the desk

/// Returns the secret that a text has on its first line, if the text has nothing else.
fn secret_in(text: &[u8]) -> Option<Secret> {
    match text {
        [digits @ .., b'\n'] => Secret::read(digits),
        _ => Secret::read(text),
    }
}

/// Returns the desk's secret. Draws one and keeps it if there is none, and prints then what to type at a window.
fn secret_of<W: Write>(
    rt: &HostRuntime,
    book: &str,
    address: &str,
    out: &mut W,
) -> Result<Secret, ShopFault> {
    let alloc = rt.alloc();
    let path = format!(in alloc; "{book}.desk")?;
    if let Ok(text) = fs::read(rt, path.as_str()) {
        return secret_in(text.as_slice()).ok_or(ShopFault::Secret);
    }
    let secret = Secret::draw(rt)?;
    let mut text = Vec::from_slice(alloc, secret.as_bytes().as_slice())?;
    text.push(b'\n')?;
    write_own(rt, path.as_str(), text.as_slice())?;
    writeln!(
        out,
        "At each window: window {address} --staff N, and this secret when it is asked for:"
    )?;
    out.write_all(text.as_slice())?;
    Ok(secret)
}

/// Opens the book by a word that looks at it alone. Prints why it can't be opened.
fn hold<E: Write>(
    rt: &HostRuntime,
    book: &str,
    held: &mut Option<OpenBook>,
    err: &mut E,
) -> Result<u8, ShopFault>
    requires { IfSome held.old (λ book. book.conn.in_transaction ≡ false) }
    ensures { IfSome held.new (λ book. book.conn.in_transaction ≡ false) }
{
    let alloc = rt.alloc();
    let mut words = Vec::new(alloc);
    for word in ["--book", book, "waiting"] {
        words.push(String::from_str(alloc, word)?)?;
    }
    let given = Words {
        words: words.as_slice(),
        standing: Station {
            staff: None,
            asks: Asks::Nobody,
        },
        stock: Stock::Sent(&[]),
        way: Way {
            line: Link::Down,
            patience: Patience::Short,
        },
    };
    let mut out: Vec<u8> = Vec::new(alloc);
    Ok(perform_words(rt, &given, held, &mut out, err).status)
}

/// Returns the first address of a name, if it has one.
fn address_of(rt: &HostRuntime, name: &str) -> Option<SocketAddr> {
    match name.to_socket_addrs(rt) {
        Ok(mut addresses) => addresses.next(),
        Err(_) => None,
    }
}

/// Listens at the address, says so, and serves windows by the book.
fn serve_at<W: Write>(
    rt: &HostRuntime,
    book: &str,
    address: &str,
    held: &mut Option<OpenBook>,
    out: &mut W,
) -> Result<(), ShopFault>
    requires { IfSome held.old (λ book. book.conn.in_transaction ≡ false) }
    ensures { IfSome held.new (λ book. book.conn.in_transaction ≡ false) }
{
    let Ok(listener) = TcpListener::bind(rt, address) else {
        return Err(ShopFault::Listen);
    };
    let server = match held {
        Some(book) => address_of(rt, book.address()),
        None => None,
    };
    let desk = DeskBook {
        name: String::from_str(rt.alloc(), book)?,
        secret: secret_of(rt, book, address, out)?,
    };
    writeln!(out, "the desk is open at {address}")?;
    out.flush()?;
    serve_windows(rt, &listener, server, &desk, held)
}

/// Holds the book of that name open for windows, at that port of that address of this machine.
pub(crate) fn serve_desk<W: Write, E: Write>(
    rt: &HostRuntime,
    book: &str,
    listen: &str,
    port: u16,
    out: &mut W,
    err: &mut E,
) -> Result<u8, ShopFault> {
    let alloc = rt.alloc();
    let address = format!(in alloc; "{listen}:{port}")?;
    let mut held = None;
    let status = hold(rt, book, &mut held, err)?;
    if status != 0 {
        close_held(&mut held);
        return Ok(status);
    }
    let served = serve_at(rt, book, address.as_str(), &mut held, out);
    close_held(&mut held);
    served?;
    Ok(0)
}

// ---- a window

/// Asks for the secret at the terminal, and reads it from the next line of the input.
fn typed_secret<W: Write>(rt: &HostRuntime, out: &mut W) -> Result<Secret, ShopFault> {
    write!(out, "the desk's secret: ")?;
    out.flush()?;
    for line in rt.lines(rt.alloc()) {
        let line = line?;
        return Secret::read(line.as_str().trim().as_bytes()).ok_or(ShopFault::Secret);
    }
    Err(ShopFault::Secret)
}

/// Reads the secret from a file.
fn filed_secret(rt: &HostRuntime, file: &str) -> Result<Secret, ShopFault> {
    match fs::read(rt, file) {
        Ok(text) => secret_in(text.as_slice()).ok_or(ShopFault::Secret),
        Err(_) => Err(ShopFault::Secret),
    }
}

/// Sets up a window of the desk at that address, where a book of that name would be. Its settings are written as they
/// will be read.
pub(crate) fn set_up<W: Write>(
    rt: &HostRuntime,
    book: &str,
    address: String,
    staff: StaffNo,
    drawer: Option<DrawerNo>,
    secret_file: Option<String>,
    out: &mut W,
) -> Result<u8, ShopFault> {
    let alloc = rt.alloc();
    if !is_free(rt, book)? {
        return Err(ShopFault::Till(TillFault::Already));
    }
    let secret = match secret_file {
        Some(file) => filed_secret(rt, file.as_str())?,
        None => typed_secret(rt, out)?,
    };
    let Some(address) = T128::read(address) else {
        return Err(ShopFault::Till(TillFault::NotKept));
    };
    let window = WindowSettings {
        address,
        secret,
        staff,
        drawer,
    };
    let text = window_text(alloc, &window)?;
    if read_window(alloc, text.as_slice()).is_err() {
        return Err(ShopFault::Till(TillFault::NotKept));
    }
    let path = settings_path(rt, book)?;
    write_own(rt, path.as_str(), text.as_slice())?;
    writeln!(out, "the window is ready")?;
    Ok(0)
}
