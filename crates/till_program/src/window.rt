//! A window sends its words to the desk, and prints what the desk replies.

ghost use Rattle.std.specs.Prelude.{◌≡◌, ⊤, ℕ, List, [], ◌∷◌, IfErr, IfOk, IfSome, codes, map, string_bytes};
ghost use Rattle.till_cashier.specs.Asked.{Grows};
ghost use Rattle.till_program.specs.Frames as spec;
ghost use Rattle.till_program.specs.Prompting.{RunsTill};
ghost use Rattle.till_program.specs.Relaying.{IsDoneAtWindow, IsRelayed, IsReplyTo, PrintsAtWindow, RelaysReply, ShowsReply};
ghost use Rattle.till_program.specs.Screens.{screen};

use crate::fault::NoLine;
use crate::faults::{ShopFault, show_shop_fault};
use crate::frames::frame;
use crate::given::{Giver, words_to_send};
use crate::printing::{show, write_text};
use crate::program::{ASKED, Asks, NOTHING, Station, drawer_number, run_till, says_yes};
use crate::replies::{Reply, read_reply};
use crate::secret::Secret;
use crate::settings::WindowSettings;
use std::fs;
use std::io::{self, ErrorKind, Read, Write};
use std::net::{TcpStream, ToSocketAddrs};
use std::time::Duration;
use till_cashier::TillFault;
use till_words::{FileName, TillAct, TillLine, read_till_words};

/// For how many seconds the desk is waited for, at each address of its name.
const CONNECTS: u64 = 5;

/// For how many seconds the desk's reply is waited for.
const PATIENCE: u64 = 120;

/// How many pieces of a reply are read at most.
const MOST_PIECES: u32 = 65_536;

/// Connects to the first address of the desk's name that answers.
fn connected(rt: &HostRuntime, address: &str) -> io::Result<TcpStream> {
    let mut last = io::Error::from(ErrorKind::InvalidInput);
    for to in address.to_socket_addrs(rt)? {
        match TcpStream::connect_timeout(rt, &to, Duration::from_secs(CONNECTS)) {
            Ok(stream) => return Ok(stream),
            Err(error) => last = error,
        }
    }
    Err(last)
}

/// Opens a connection to the desk.
fn open(rt: &HostRuntime, address: &str) -> io::Result<TcpStream> {
    let stream = connected(rt, address)?;
    stream.set_nodelay(true)?;
    stream.set_read_timeout(Some(Duration::from_secs(PATIENCE)))?;
    stream.set_write_timeout(Some(Duration::from_secs(PATIENCE)))?;
    Ok(stream)
}

/// Reads what the desk replies, to its end.
fn read_all(rt: &HostRuntime, stream: &TcpStream) -> Result<Vec<u8>, ShopFault> {
    let mut reader = stream;
    let mut text = Vec::new(rt.alloc());
    let mut piece = [0u8; 4096];
    for _ in 0..MOST_PIECES {
        match reader.read(&mut piece) {
            Ok(0) => return Ok(text),
            Ok(count) => text.extend_from_slice(piece.get(..count).unwrap_or(&[]))?,
            Err(error) if error.kind() == ErrorKind::Interrupted => {}
            Err(_) => return Err(ShopFault::NoReply),
        }
    }
    Err(ShopFault::NoReply)
}

/// A way to a desk. What the desk replies is its own: no other bytes can be said to be its reply.
pub(crate) trait DeskWay {
    // the desk replied that to the bytes
    ghost replies: { Self → List ℕ → List ℕ → Type 0 };

    /// Sends a frame to the desk, and returns its reply. If the frame couldn't be sent whole, nothing was entered.
    fn exchange(&self, bytes: &[u8]) -> Result<Vec<u8>, ShopFault>
        ensures { IfOk result (λ text. replies self.now bytes.now text.items) };
}

/// A desk at an address.
#[derive(Clone, Copy)]
pub(crate) struct TcpDesk<'a> {
    rt: &'a HostRuntime,
    address: &'a str,
}

impl TcpDesk<'_> {
    /// Returns the window's desk.
    pub(crate) fn of<'a>(rt: &'a HostRuntime, window: &'a WindowSettings) -> TcpDesk<'a> {
        TcpDesk {
            rt,
            address: window.address.as_str(),
        }
    }
}

impl DeskWay for TcpDesk<'_> {
    // nothing is known of what sockets carry
    ghost replies = { λ _ _ _. ⊤ };

    fn exchange(&self, bytes: &[u8]) -> Result<Vec<u8>, ShopFault> {
        let Ok(stream) = open(self.rt, self.address) else {
            return Err(ShopFault::NoDesk);
        };
        let mut writer = &stream;
        let is_sent = writer.write_all(bytes).is_ok();
        match read_all(self.rt, &stream) {
            Ok(text) if !text.is_empty() || is_sent => Ok(text),
            Ok(_) | Err(ShopFault::NoReply) if !is_sent => Err(ShopFault::NoDesk),
            Ok(text) => Ok(text),
            Err(fault) => Err(fault),
        }
    }
}

/// Prints the two texts of a reply, and returns its status, or 3 if one of them can't be printed whole.
fn relay<W: Write, E: Write>(status: u8, said: &[u8], more: &[u8], out: &mut W, err: &mut E) -> u8
    ensures { IsRelayed status said.now more.now result (screen (W.contents out.old) (E.contents err.old))
        (screen (W.contents out.new) (E.contents err.new)) }
{
    let is_out = write_text(said, out);
    let is_err = write_text(more, err);
    if is_out && is_err { status } else { 3 }
}

/// Prints what the desk replied, and returns the status.
fn print<W: Write, E: Write>(text: &[u8], out: &mut W, err: &mut E) -> Result<u8, ShopFault>
    ensures shown { IfOk result (λ status. ShowsReply text.now status (screen (W.contents out.old) (E.contents err.old))
        (screen (W.contents out.new) (E.contents err.new))) }
    ensures silent { IfErr result (λ _. screen (W.contents out.new) (E.contents err.new) ≡ screen (W.contents out.old)
        (E.contents err.old)) }
{
    match read_reply(text) {
        Ok(reply) => Ok(relay(reply.status, reply.out, reply.err, out, err)),
        Err(_) => Err(ShopFault::NoReply),
    }
}

/// Has the desk do the words of the giver, with the file that they may name. Returns the bytes of its reply.
fn reply_to<D: DeskWay>(
    rt: &HostRuntime,
    desk: &D,
    secret: &Secret,
    words: &[String],
    giver: Giver,
    file: &[u8],
) -> Result<Vec<u8>, ShopFault>
    ensures { IfOk result (λ text. IsReplyTo (D.replies desk.now) secret.now file.now text.items) }
{
    let alloc = rt.alloc();
    let words = words_to_send(alloc, words, giver)?;
    match frame(alloc, secret, words.as_slice(), file) {
        Ok(bytes) => desk.exchange(bytes.as_slice()),
        Err(NoLine::Memory) => Err(ShopFault::Till(TillFault::Memory)),
        Err(NoLine::NotText | NoLine::Form(_)) => Err(ShopFault::Long),
    }
}

/// Returns the question that a reply asks, if it asks one.
fn question_in(reply: &[u8]) -> Result<Option<&str>, ShopFault>
    ensures { IfOk result (λ question. IfSome question (λ _. (out err : List ℕ) × (reply.now ≡ spec.reply 5 out err))) }
{
    let Ok(Reply { status, out, .. }) = read_reply(reply) else {
        return Err(ShopFault::NoReply);
    };
    if status != ASKED {
        return Ok(None);
    }
    match std::str::from_utf8(out) {
        Ok(question) => Ok(Some(question)),
        Err(_) => Err(ShopFault::NoReply),
    }
}

/// Has the desk do the words, with the file that they may name, and prints what they resulted in. If the reply is a
/// question, asks it, and has the desk do the words if the answer is yes.
fn send<D: DeskWay, W: Write, E: Write>(
    rt: &HostRuntime,
    desk: &D,
    window: &WindowSettings,
    words: &[String],
    standing: Station,
    file: &[u8],
    out: &mut W,
    err: &mut E,
) -> Result<u8, ShopFault>
    ensures relayed { IfOk result (λ status. RelaysReply (D.replies desk.now) window.now.secret file.now status
        (screen (W.contents out.old) (E.contents err.old)) (screen (W.contents out.new) (E.contents err.new))) }
    ensures asked { IfErr result (λ _. Grows (W.contents out.old) (W.contents out.new)
        × (E.contents err.new ≡ E.contents err.old)) }
{
    let staff = standing.staff.unwrap_or(window.staff);
    let drawer = drawer_number(window.drawer);
    let secret = &window.secret;
    let giver = Giver {
        staff,
        drawer,
        is_asked: standing.asks == Asks::Prompt,
        is_sure: false,
    };
    let text = reply_to(rt, desk, secret, words, giver, file)?;
    let Some(question) = question_in(text.as_slice())? else {
        return print(text.as_slice(), out, err);
    };
    if !says_yes(rt, question, out) {
        return Ok(show(NOTHING, 1, out, err));
    }
    let answered = Giver {
        staff,
        drawer,
        is_asked: false,
        is_sure: true,
    };
    let text = reply_to(rt, desk, secret, words, answered, file)?;
    print(text.as_slice(), out, err)
}

/// Returns the bytes of a stock file.
fn stock_file(rt: &HostRuntime, name: &FileName) -> Result<Vec<u8>, ShopFault> {
    match fs::read(rt, name.as_str()) {
        Ok(bytes) if bytes.len() <= 65_536 => Ok(bytes),
        Ok(_) => Err(ShopFault::Till(TillFault::TooLarge)),
        Err(_) => Err(ShopFault::Till(TillFault::NoFile)),
    }
}

/// Says the words that there are.
fn help<W: Write, E: Write>(rt: &HostRuntime, out: &mut W, err: &mut E) -> Result<u8, ShopFault>
    ensures done { IfOk result (λ status. RunsTill (codes "help" ∷ []) status (screen (W.contents out.old) (E.contents err.old))
        (screen (W.contents out.new) (E.contents err.new))) }
    ensures asked { IfErr result (λ _. Grows (W.contents out.old) (W.contents out.new)
        × (E.contents err.new ≡ E.contents err.old)) }
{
    let mut words = Vec::new(rt.alloc());
    words.push(String::from_str(rt.alloc(), "help")?)?;
    Ok(run_till(rt, words.as_slice(), out, err))
}

/// Does what words ask for, and returns the status. The desk does them at its book, but for help, words that are none,
/// and `init`. To no word at all the desk replies what a prompt says first.
fn perform<D: DeskWay, W: Write, E: Write>(
    rt: &HostRuntime,
    desk: &D,
    window: &WindowSettings,
    words: &[String],
    standing: Station,
    out: &mut W,
    err: &mut E,
) -> Result<u8, ShopFault>
    ensures done { IfOk result (λ status. IsDoneAtWindow (D.replies desk.now) window.now.secret (map string_bytes words.now)
        status (screen (W.contents out.old) (E.contents err.old)) (screen (W.contents out.new) (E.contents err.new))) }
    ensures asked { IfErr result (λ _. Grows (W.contents out.old) (W.contents out.new)
        × (E.contents err.new ≡ E.contents err.old)) }
{
    match read_till_words(rt.alloc(), words) {
        Ok(TillLine { act, .. }) => match act {
            TillAct::Help => help(rt, out, err),
            TillAct::Init(_) => Ok(run_till(rt, words, out, err)),
            TillAct::Import { file, .. } => {
                let bytes = stock_file(rt, &file)?;
                send(
                    rt,
                    desk,
                    window,
                    words,
                    standing,
                    bytes.as_slice(),
                    out,
                    err,
                )
            }
            act => {
                drop(act);
                send(rt, desk, window, words, standing, &[], out, err)
            }
        },
        Err(_) => Ok(run_till(rt, words, out, err)),
    }
}

/// Does what words ask for, or prints what keeps the window from it. Returns the status.
pub(crate) fn perform_or_say<D: DeskWay, W: Write, E: Write>(
    rt: &HostRuntime,
    desk: &D,
    window: &WindowSettings,
    words: &[String],
    standing: Station,
    out: &mut W,
    err: &mut E,
) -> u8
    ensures { PrintsAtWindow (D.replies desk.now) window.now.secret (map string_bytes words.now) result
        (screen (W.contents out.old) (E.contents err.old)) (screen (W.contents out.new) (E.contents err.new)) }
{
    match perform(rt, desk, window, words, standing, out, err) {
        Ok(status) => status,
        Err(fault) => show_shop_fault(fault, err),
    }
}
