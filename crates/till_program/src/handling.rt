//! One frame at the book that a desk holds.

ghost use Rattle.std.specs.Prelude.{◌≡◌, ◌≢◌, ◌⊎◌, false, ℕ, List, map, string_bytes, None, IfOk, IfSome};
ghost use Rattle.till_program.specs.Frames as spec;
ghost use Rattle.till_program.specs.Serving.{desk_words, DoesFrame, IsDeskRefusal, IsReplyOf, Handles, RepliesTo};

use crate::fault::{NoFrame, NoLine};
use crate::frames::read_frame;
use crate::given::{ONCE, PROMPT};
use crate::lines::{push_copies, read_line};
use crate::opening::OpenBook;
use crate::program::{Asks, Station, Stock, Words, perform_words};
use crate::replies::reply_text;
use crate::secret::Secret;
use crate::way::{Patience, Way};
use std::alloc::{AllocError, Global};
use till_cashier::Link;

/// A desk's book by its name, and its secret.
#[derive(Drop)]
pub struct DeskBook {
    pub name: String,
    pub secret: Secret,
}

/// What a desk replies to bytes, and what is known of the line to the server after them.
#[derive(Drop)]
pub struct Handled {
    /// None if more bytes are wanted.
    pub reply: Option<Vec<u8>>,
    pub line: Link,
}

/// Returns the sentence and the status for bytes that are no frame.
fn refusal(fault: NoFrame) -> (u8, &'static str)
    ensures { result.0 ≢ 0 }
{
    match fault {
        NoFrame::Short => (3, "The word didn't come whole. Nothing was entered.\n"),
        NoFrame::Foreign => (
            3,
            "That is no word of a window. See that the window and the desk are of one version.\n",
        ),
        NoFrame::Denied => (
            3,
            "The desk has another secret. Set the window up again with the desk's own.\n",
        ),
        NoFrame::Long => (1, "That is too long to be sent. Say it in fewer words.\n"),
        NoFrame::Trailing => (3, "More came than a word. Nothing was entered.\n"),
    }
}

/// Returns the reply to bytes that are no frame.
pub(crate) fn refused(alloc: Global, fault: NoFrame) -> Result<Vec<u8>, NoLine>
    ensures { IfOk result (λ text. IsReplyOf text.items IsDeskRefusal) }
{
    let (status, sentence) = refusal(fault);
    reply_text(alloc, status, b"", sentence.as_bytes())
}

/// Returns the reply to a line that can't be read, or whose answer can't be sent.
fn unread(alloc: Global, fault: NoLine) -> Result<Vec<u8>, NoLine>
    ensures { IfOk result (λ text. IsReplyOf text.items IsDeskRefusal) }
{
    match fault {
        NoLine::Memory => Err(NoLine::Memory),
        NoLine::NotText => reply_text(alloc, 2, b"", b"error: a word isn't UTF-8\n"),
        NoLine::Form(fault) => refused(alloc, fault),
    }
}

/// Returns who is asked before a word of the line that can't be undone. Returns none if its first word doesn't say it.
fn asks_of(line: &[String]) -> Option<Asks> {
    match line {
        [first, ..] if first.as_str() == PROMPT => Some(Asks::Window),
        [first, ..] if first.as_str() == ONCE => Some(Asks::Nobody),
        [] | [_, ..] => None,
    }
}

/// Returns the words of a line after its first, with the name of the book before them.
fn words_at(alloc: Global, name: &str, line: &[String]) -> Result<Vec<String>, AllocError>
    ensures { IfOk result (λ words. map string_bytes words.items ≡ desk_words name.now (map string_bytes line.now)) }
{
    let mut words = Vec::new(alloc);
    words.push(String::from_str(alloc, "--book")?)?;
    words.push(String::from_str(alloc, name)?)?;
    match line {
        [] => {}
        [_, rest @ ..] => push_copies(alloc, &mut words, rest)?,
    }
    Ok(words)
}

/// Does the words of a line at the book, and returns the reply.
fn performed(
    rt: &HostRuntime,
    desk: &DeskBook,
    line: &[u8],
    file: &[u8],
    server: &mut Link,
    held: &mut Option<OpenBook>,
) -> Result<Vec<u8>, NoLine>
    requires { IfSome held.old (λ book. book.conn.in_transaction ≡ false) }
    ensures ended { IfSome held.new (λ book. book.conn.in_transaction ≡ false) }
    ensures done { (held.new ≡ held.old)
        ⊎ ((status : ℕ) × (out err : List ℕ) × DoesFrame (string_bytes desk.now.name) line.now file.now status out err
        held.old held.new) }
    ensures replied { IfOk result (λ text. IsReplyOf text.items (λ status out err. DoesFrame
        (string_bytes desk.now.name) line.now file.now status out err held.old held.new)) }
{
    let alloc = rt.alloc();
    let line = read_line(alloc, line)?;
    let Some(asks) = asks_of(line.as_slice()) else {
        return Err(NoLine::Form(NoFrame::Foreign));
    };
    let words = words_at(alloc, desk.name.as_str(), line.as_slice())?;
    let mut out: Vec<u8> = Vec::new(alloc);
    let mut err: Vec<u8> = Vec::new(alloc);
    let given = Words {
        words: words.as_slice(),
        standing: Station { staff: None, asks },
        stock: Stock::Sent(file),
        way: Way {
            line: *server,
            patience: Patience::Short,
        },
    };
    let done = perform_words(rt, &given, held, &mut out, &mut err);
    *server = done.line;
    reply_text(alloc, done.status, out.as_slice(), err.as_slice())
}

/// Does what a window's bytes ask for, once, and returns the reply. Bytes that aren't a whole frame with the desk's secret
/// leave the book as it is. Returns no reply if more bytes may make them one, or if memory ran out.
pub fn handle(
    rt: &HostRuntime,
    desk: &DeskBook,
    bytes: &[u8],
    server: Link,
    held: &mut Option<OpenBook>,
) -> Result<Handled, NoLine>
    requires { IfSome held.old (λ book. book.conn.in_transaction ≡ false) }
    ensures idle { IfSome held.new (λ book. book.conn.in_transaction ≡ false) }
    ensures kept { ((line file : List ℕ) → ¬ (bytes.now ≡ spec.frame desk.now.secret line file))
        → held.new ≡ held.old }
    ensures waits { IfOk result (λ it. it.reply ≡ None → held.new ≡ held.old) }
    ensures handles { Handles (string_bytes desk.now.name) desk.now.secret bytes.now held.old held.new }
    ensures replies { IfOk result (λ it. IfSome it.reply (λ text. IsReplyOf text.items (RepliesTo (string_bytes
        desk.now.name) desk.now.secret bytes.now held.old held.new))) }
{
    let mut line = server;
    let reply = match read_frame(bytes, &desk.secret) {
        Ok((words, file)) => match performed(rt, desk, words, file, &mut line, held) {
            Ok(reply) => Some(reply),
            Err(fault) => Some(unread(rt.alloc(), fault)?),
        },
        Err(NoFrame::Short) => None,
        Err(fault) => Some(refused(rt.alloc(), fault)?),
    };
    Ok(Handled { reply, line })
}
