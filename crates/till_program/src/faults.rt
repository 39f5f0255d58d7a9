//! What keeps a desk or a window from its work.

ghost use Rattle.std.specs.Prelude.{◌≡◌, ◌<◌, ℕ, List, OnOk, OnErr};
ghost use Rattle.std.specs.Io.KnownBytes.{Appends};
ghost use Rattle.till_cashier.specs.Telling.{IsCutOff};
ghost use Rattle.till_program.specs.Relaying.{IsShopLine, ShowsShopFault, shop_status, shop_text};

use crate::given::USAGE;
use crate::settings::NoWindow;
use std::alloc::{AllocError, AllocFailed};
use std::io::{self, Write};
use till_cashier::{TillFault, write_fault, write_parts};

/// Why a desk or a window didn't do what was asked for.
#[derive(Clone, Copy, Debug, PartialEq, Eq)]
pub enum ShopFault {
    /// The book, a file or the memory failed, as at a till.
    Till(TillFault),
    /// The words aren't of their form.
    Words,
    /// The desk's secret can't be read.
    Secret,
    /// The desk can't listen at that address.
    Listen,
    /// The window's settings are spoilt.
    Settings,
    /// Nobody answers at the desk's address. Nothing was entered.
    NoDesk,
    /// The word was sent, and the desk's reply didn't come whole.
    NoReply,
    /// The words can't be sent: one of them is too long.
    Long,
}

impl ShopFault {
    /// Returns the program's status for it: 3 for a fault of the desk's or the window's own, 4 if it isn't known whether
    /// the word was done.
    fn status(self) -> u8
        ensures fails { 0 < result }
        ensures status { result ≡ shop_status self }
    {
        match self {
            ShopFault::Till(fault) => fault.status(),
            ShopFault::Words => 2,
            ShopFault::Long => 1,
            ShopFault::NoReply => 4,
            ShopFault::Secret | ShopFault::Listen | ShopFault::Settings | ShopFault::NoDesk => 3,
        }
    }

    /// Returns what it is, and what to do. A till's fault has its own line.
    fn sentence(self) -> &'static str
        ensures { result.now ≡ shop_text self }
    {
        match self {
            ShopFault::Till(_) => "",
            ShopFault::Words => USAGE,
            ShopFault::Secret =>
                "That is no secret of a desk. It is 32 digits, which the desk says when it begins for the first time.",
            ShopFault::Listen =>
                "The desk can't listen there. See that the address is this machine's, and that no other program has the port.",
            ShopFault::Settings =>
                "The window's settings are spoilt. Move them away, and set the window up again: window ADDRESS --staff N, with --drawer N if it had a drawer.",
            ShopFault::NoDesk =>
                "The desk doesn't answer. Nothing was entered: see that it runs, and say the word again.",
            ShopFault::NoReply =>
                "The desk's answer didn't come. Look with last whether it was entered, before you say it again.",
            ShopFault::Long => "That is too long to be sent. Say it in fewer words.",
        }
    }
}

/// Writes a fault as a line. At an error a front of the line is written, and not all.
fn write_shop_fault<E: Write>(fault: ShopFault, err: &mut E) -> io::Result<()>
    ensures { (line : List ℕ) × IsShopLine fault line × OnOk result (Appends (E.contents err.old) (E.contents err.new) line)
        × OnErr result (IsCutOff line (E.contents err.old) (E.contents err.new)) }
{
    if let ShopFault::Till(fault) = fault {
        return write_fault(fault, err);
    }
    write_parts(err, &[fault.sentence().as_bytes(), b"\n"])
}

/// Prints a fault on standard error, and returns its status, or 3 if the fault can't be printed whole.
pub(crate) fn show_shop_fault<E: Write>(fault: ShopFault, err: &mut E) -> u8
    ensures { ShowsShopFault fault result (E.contents err.old) (E.contents err.new) }
{
    let status = fault.status();
    match write_shop_fault(fault, err) {
        Ok(()) => status,
        Err(_) => 3,
    }
}

impl From<TillFault> for ShopFault {
    fn from(fault: TillFault) -> ShopFault {
        ShopFault::Till(fault)
    }
}

impl From<AllocError> for ShopFault {
    fn from(_error: AllocError) -> ShopFault {
        ShopFault::Till(TillFault::Memory)
    }
}

impl<T: Drop> From<AllocFailed<T>> for ShopFault {
    fn from(_error: AllocFailed<T>) -> ShopFault {
        ShopFault::Till(TillFault::Memory)
    }
}

impl From<io::Error> for ShopFault {
    fn from(_error: io::Error) -> ShopFault {
        ShopFault::Till(TillFault::System)
    }
}

impl From<NoWindow> for ShopFault {
    fn from(fault: NoWindow) -> ShopFault {
        match fault {
            NoWindow::Form => ShopFault::Settings,
            NoWindow::Memory => ShopFault::Till(TillFault::Memory),
        }
    }
}
