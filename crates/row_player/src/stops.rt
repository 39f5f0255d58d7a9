//! Connections, openings, migrations and the making of a chain, stopped at each call of the disks in turn, in copies of
//! a chain's files; and a changed byte.
use crate::asked::Texts;
use crate::ram::{Calls, Image, MANY, MOST_CALLS, NEVER, failing_after};
use crate::stage::{Opening, Stage, WHOLE};
use std::alloc::Global;

/// Head office asks for the audit.
const AUDIT: &[u8] =
    b"POST /office HTTP/1.1\r\ncounter-token: 00000000000000000000000000000000\r\ncontent-length: 9\r\n\r\n[\"audit\"]";

/// Head office asks for the audit, and branch 1 asks for the balance of its first customer.
const AUDIT_AND_BALANCE: &[u8] =
    b"POST /office HTTP/1.1\r\ncounter-token: 00000000000000000000000000000000\r\ncontent-length: 9\r\n\r\n[\"audit\"]GET /balance/1/9999-01-01T00:00:00 HTTP/1.1\r\ncounter-token: 11111111111111111111111111111111\r\n\r\n";

/// Head office asks a chain that the player made for the audit.
const NEW_AUDIT: &[u8] =
    b"POST /office HTTP/1.1\r\ncounter-token: 0123456789abcdef0123456789abcdef\r\ncontent-length: 9\r\n\r\n[\"audit\"]";

/// The reply of a chain whose store has failed.
const FAILED: &str =
    "HTTP/1.1 503 Service Unavailable\r\ncontent-type: application/json\r\ncontent-length: 26\r\n\r\n{\"refused\":\"store_failed\"}";

/// What is stopped.
#[derive(Clone, Copy)]
struct Stopped<'t> {
    opening: Opening,
    /// Whether a connection is stopped, and not the opening.
    is_connection: bool,
    /// What is sent, to a connection before the stop too.
    input: &'t [u8],
    /// What is sent back if nothing is stopped.
    wanted: &'t [u8],
}

/// Opens a chain in copies of the files, sends it the input, and closes it. Returns how many calls were made.
pub fn trial<S: Stage>(
    stage: &mut S,
    opening: Opening,
    files: &Image,
    calls: Calls,
    input: &[u8],
    tried: &mut Image,
    told: &mut Texts,
) -> Calls {
    let name = stage.open(opening, files, calls);
    told.opens(name);
    stage.serve(input, &WHOLE, told);
    stage.close(tried, told)
}

/// Checks that the chain that the files hold after a stop, or after a crash, sends what is wanted. A migration that
/// hadn't begun is done now. If the making of a chain hadn't begun, there is no chain. Files with the same bytes as the
/// untouched files pass: their chain sent what is wanted.
fn go_on<S: Stage>(
    stage: &mut S,
    stopped: &Stopped<'_>,
    files: &Image,
    left: &Image,
    next: &mut Image,
    told: &mut Texts,
) {
    if left.is_same(files) {
        return;
    }
    let name = stage.open(Opening::Opened, left, NEVER);
    match (name, stopped.opening) {
        ("not_a_chain", Opening::Made) => {
            let _ = stage.close(next, told);
            return;
        }
        ("other_version", Opening::Migrated) => {
            let _ = stage.close(next, told);
            let name = stage.open(stopped.opening, next, NEVER);
            told.opens(name);
        }
        _ => told.opens(name),
    }
    stage.serve(stopped.input, &WHOLE, told);
    let is_same = told.out() == stopped.wanted;
    told.needs(is_same, "a chain that was stopped sends something else");
    let _ = stage.close(next, told);
}

/// Stops the connection or the opening after so many calls. Checks that the input, sent again, gets the same replies,
/// in the files as they are left and as a crash leaves them. Reports whether it may be stopped earlier: not in a
/// connection's opening, and not after a fault.
fn stop<S: Stage>(
    alloc: Global,
    stage: &mut S,
    stopped: &Stopped<'_>,
    files: &Image,
    calls: Calls,
    told: &mut Texts,
) -> bool {
    let name = stage.open(stopped.opening, files, calls);
    if stopped.is_connection {
        if name == "store_failed" {
            return false;
        }
        told.opens(name);
        stage.serve(stopped.input, &WHOLE, told);
        let sent = told.out();
        let is_same = sent == stopped.wanted || sent.ends_with(FAILED.as_bytes());
        told.needs(is_same, "a chain that is stopped sends something else");
    } else if name != "store_failed" && matches!(stopped.opening, Opening::Opened) {
        told.opens(name);
    }
    let mut left = Image::new(alloc);
    let mut next = Image::new(alloc);
    let _ = stage.close(&mut left, told);
    go_on(stage, stopped, files, &left, &mut next, told);
    left.turn();
    go_on(stage, stopped, files, &left, &mut next, told);
    told.is_well()
}

/// Stops the connection or the opening at each call of a disk, from the last of so many back. A connection isn't
/// stopped in the calls of its opening.
fn stop_at_each<S: Stage>(
    alloc: Global,
    stage: &mut S,
    stopped: &Stopped<'_>,
    files: &Image,
    is_log: bool,
    made: u64,
    told: &mut Texts,
) {
    for last in 1..=made {
        let calls = failing_after(is_log, made.saturating_sub(last));
        if !stop(alloc, stage, stopped, files, calls, told) {
            return;
        }
    }
    told.needs(!stopped.is_connection, "no call is the opening's");
}

/// Checks that what is stopped at any call, over copies of the files, goes on after the stop as if nothing had stopped
/// it. What is stopped is a connection, or the opening, migrating or making of a chain.
pub fn sweep<S: Stage>(
    alloc: Global,
    stage: &mut S,
    opening: Opening,
    files: &Image,
    connection: Option<&[u8]>,
    told: &mut Texts,
) {
    let mut tried = Image::new(alloc);
    let mut wanted = Vec::new(alloc);
    let is_connection = connection.is_some();
    let sent = connection.unwrap_or(&[]);
    let input = match opening {
        _ if is_connection => sent,
        Opening::Migrated => AUDIT_AND_BALANCE,
        Opening::Made => NEW_AUDIT,
        _ => AUDIT,
    };
    let _ = trial(stage, opening, files, MANY, input, &mut tried, told);
    told.swap_out(&mut wanted);
    let made = trial(stage, opening, files, MANY, sent, &mut tried, told);
    let _ = trial(stage, opening, files, made, sent, &mut tried, told);
    let is_same = !is_connection || told.out() == wanted.as_slice();
    told.needs(is_same, "more calls are made");
    let stopped = Stopped {
        opening,
        is_connection,
        input,
        wanted: wanted.as_slice(),
    };
    stop_at_each(alloc, stage, &stopped, files, true, made.log, told);
    stop_at_each(alloc, stage, &stopped, files, false, made.db, told);
}

/// Stops the chain in copies of the files at each call of a disk while it answers the requests as values. Checks that
/// up to the stop, and again after it, the chain answers them as if nothing had stopped it.
pub fn resume_at_each<S: Stage>(
    alloc: Global,
    files: &Image,
    input: &[u8],
    is_log: bool,
    wanted: &mut Vec<u8>,
    told: &mut Texts,
) {
    for calls in 0..MOST_CALLS {
        told.clear(usize::MAX);
        if S::resume(alloc, input, files, failing_after(is_log, calls), told) {
            let before = str::from_utf8(told.out()).unwrap_or("no text");
            let is_first = told
                .err()
                .starts_with(before.trim_end_matches(FAILED).as_bytes());
            let is_put = !wanted.is_empty() || wanted.extend_from_slice(told.err()).is_ok();
            let is_same = told.err() == wanted.as_slice();
            let is_whole = told.err() == told.out();
            told.needs(is_put, "no memory");
            told.needs(
                is_first && is_same,
                "another reply before a stop or after it",
            );
            if is_whole || !told.is_well() {
                return;
            }
        }
    }
    told.needs(false, "more calls are made");
}

/// Replaces the last byte of a text by another, wherever the text is in the database's file, at one place at a time.
/// Checks that the chain isn't opened, as its store fails or it is damaged, or that its audit says what it says without
/// the change. At one place at least the chain mustn't be opened.
pub fn flip<S: Stage>(
    alloc: Global,
    stage: &mut S,
    files: &mut Image,
    text: &[u8],
    byte: u8,
    told: &mut Texts,
) {
    let mut tried = Image::new(alloc);
    let mut wanted = Vec::new(alloc);
    let _ = trial(
        stage,
        Opening::Opened,
        files,
        NEVER,
        AUDIT,
        &mut tried,
        told,
    );
    told.swap_out(&mut wanted);
    let mut places = 0u32;
    let mut refused = 0u32;
    for last in 0..files.db().len() {
        if files.db().get(..=last).unwrap_or(&[]).ends_with(text) {
            let kept = files.swap_byte(last, byte);
            let name = stage.open(Opening::Opened, files, NEVER);
            let _ = files.swap_byte(last, kept);
            places = places.saturating_add(1);
            if matches!(name, "damaged" | "store_failed") {
                refused = refused.saturating_add(1);
            } else {
                told.opens(name);
                stage.serve(AUDIT, &WHOLE, told);
                let is_same = told.out() == wanted.as_slice();
                told.needs(is_same, "other books are opened");
            }
        }
    }
    told.needs(
        places > 1 && refused > 0,
        "the text stands in no index, or every change is opened",
    );
}
