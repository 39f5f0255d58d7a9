//! The settings of a window: the desk's address, its secret, who stands at the window, and its drawer.

ghost use Rattle.std.specs.Prelude.{◌≡◌, ◌++◌, IfOk};
ghost use Rattle.till_program.specs.Settings.{drawer_line, window_lines};

use crate::secret::Secret;
use shop_types::{StaffNo, T128};
use std::alloc::{AllocError, Global};
use till_words::DrawerNo;

/// The settings of a window. They are in the file where the settings of a book would be.
#[derive(Drop)]
pub struct WindowSettings {
    /// The desk's address: `HOST:PORT`, without blanks.
    pub address: T128,
    pub secret: Secret,
    /// The member of staff at the window, if a word names no other.
    pub staff: StaffNo,
    /// The drawer of the window, if a word names no other. Without one it is the book's own.
    pub drawer: Option<DrawerNo>,
}

/// Why no settings of a window were read from the bytes.
#[derive(Clone, Copy, Debug, PartialEq, Eq)]
pub enum NoWindow {
    /// The bytes aren't the lines.
    Form,
    /// Out of memory.
    Memory,
}

impl From<AllocError> for NoWindow {
    fn from(_error: AllocError) -> NoWindow {
        NoWindow::Memory
    }
}

fn push(text: &mut Vec<u8>, more: &[u8]) -> Result<(), AllocError>
    ensures { IfOk result (λ _. text.new.items ≡ text.old.items ++ more.now) }
{
    text.extend_from_slice(more)
}

/// Adds the line of a drawer, if there is one.
fn push_drawer(text: &mut Vec<u8>, drawer: Option<DrawerNo>) -> Result<(), AllocError>
    ensures { IfOk result (λ _. text.new.items ≡ text.old.items ++ drawer_line drawer) }
{
    let Some(drawer) = drawer else {
        return Ok(());
    };
    let mut digits = itoa::Buffer::new();
    push(text, b"drawer ")?;
    push(text, digits.format(drawer.get()).as_bytes())?;
    push(text, b"\n")
}

/// Returns the text of a window's settings, which `read_window` reads: three lines, and one of its drawer if it has one
/// of its own. A line feed ends each.
pub fn window_text(alloc: Global, window: &WindowSettings) -> Result<Vec<u8>, AllocError>
    ensures { IfOk result (λ text. text.items ≡ window_lines window.now) }
{
    let mut digits = itoa::Buffer::new();
    let mut text = Vec::from_slice(alloc, b"desk ")?;
    push(&mut text, window.address.as_str().as_bytes())?;
    push(&mut text, b"\nsecret ")?;
    push(&mut text, window.secret.as_bytes().as_slice())?;
    push(&mut text, b"\nstaff ")?;
    push(&mut text, digits.format(window.staff.get()).as_bytes())?;
    push(&mut text, b"\n")?;
    push_drawer(&mut text, window.drawer)?;
    Ok(text)
}

/// Reads settings from lines. The caller checks the result by writing the settings again.
fn parsed(alloc: Global, text: &str) -> Result<WindowSettings, NoWindow> {
    let mut lines = text.split('\n');
    let address = lines.next().and_then(|line| line.strip_prefix("desk "));
    let secret = lines.next().and_then(|line| line.strip_prefix("secret "));
    let staff = lines.next().and_then(|line| line.strip_prefix("staff "));
    let drawer = lines.next().and_then(|line| line.strip_prefix("drawer "));
    let (Some(address), Some(secret), Some(staff)) = (address, secret, staff) else {
        return Err(NoWindow::Form);
    };
    if address.as_bytes().contains(&b' ') {
        return Err(NoWindow::Form);
    }
    let address = T128::read(String::from_str(alloc, address)?).ok_or(NoWindow::Form)?;
    let secret = Secret::read(secret.as_bytes()).ok_or(NoWindow::Form)?;
    let staff = StaffNo::read(staff.as_bytes()).ok_or(NoWindow::Form)?;
    Ok(WindowSettings {
        address,
        secret,
        staff,
        drawer: drawer.and_then(|number| DrawerNo::read(number.as_bytes())),
    })
}

/// Reads a window's settings from a text. The text has to be exactly the lines that `window_text` writes of them.
pub fn read_window(alloc: Global, text: &[u8]) -> Result<WindowSettings, NoWindow>
    ensures { IfOk result (λ window. window_lines window ≡ text.now) }
{
    let Ok(lines) = std::str::from_utf8(text) else {
        return Err(NoWindow::Form);
    };
    let window = parsed(alloc, lines)?;
    let written = window_text(alloc, &window)?;
    if written.as_slice() != text {
        return Err(NoWindow::Form);
    }
    Ok(window)
}

/// Tests whether a text begins as a window's settings do, and not as a book's.
pub fn is_window(text: &[u8]) -> bool {
    text.starts_with(b"desk ")
}
