//! Head office's words at a till, over a running server.

ghost use Rattle.std.specs.Prelude.{◌≡◌, ◌<◌, ℕ, List, Err, true, false, map, string_bytes, IfErr, IfOk};
ghost use Rattle.sqlite.specs.Held.{state};
ghost use Rattle.sqlite.specs.State.{HasCleanDisk};
ghost use Rattle.shop_model.specs.Refusals.{Decision, KeyUsed};
ghost use Rattle.shop_model.specs.Values.{Text};
ghost use Rattle.till_book.specs.Journal.{Journal};
ghost use Rattle.till_book.specs.Marks.{is_reply_to};
ghost use Rattle.till_book.specs.Steps.{Rests};
ghost use Rattle.till_client.specs.Replies.{seen_answer};
ghost use Rattle.till_model.specs.Numbered.{key_of};
ghost use Rattle.till_requests.specs.Requests.{IsFaultOf, IsNoLine, with_key};
ghost use Rattle.till_work.specs.Exchanged.{IsExchanged};
ghost use Rattle.till_work.specs.Desk.{Grows, HasPlace, Sends};
ghost use Rattle.till_work.specs.Stops.{IsAny, IsLater, IsSettledAfter, Leaves};
ghost use Rattle.till_cashier.specs.Asking.{IsAnswered};
ghost use Rattle.till_cashier.specs.Faults.{IsBookKept, SaysFault};
ghost use Rattle.till_cashier.specs.Office.{AddsInTurn, AnswersInTurn, GivesOne, GrowsInTurn, GrowsUsed, HasTurn, SaysUnder, open_key};
ghost use Rattle.till_cashier.specs.Printing.{SaysReading};
ghost use Rattle.till_cashier.specs.Showing.{SaysInTurn, SaysTurn};
ghost use Rattle.till_cashier.specs.Word.{EntersNothing};

use crate::answers::office_said;
use crate::book::Book;
use crate::caches::Shelf;
use crate::clock::WallClock;
use crate::desk::Desk;
use crate::fault::TillFault;
use crate::office_keys::{is_key_used, read_doubtful, read_open_key};
use crate::said::Said;
use crate::sendings::{say_waited, send_all, waited};
use crate::settling::settle_refused;
use sqlite::{Alter, Connection};
use till_client::Answer;
use till_requests::{NotSaid, office_look_request, office_request};
use till_work::{Place, Server, Watch, enter_request};

/// Returns the answer to words that are none, or can't be sent.
fn unsaid(fault: NotSaid) -> Result<Said, TillFault>
    ensures status { IfOk result (λ said. said.status ≡ 2) }
    ensures none { (words : List Text) → IsFaultOf words fault → IfOk result (λ _. IsNoLine words) }
{
    match fault {
        NotSaid::Usage(text) => Ok(Said { text, status: 2 }),
        NotSaid::Other => Err(TillFault::NotSent),
        NotSaid::Memory => Err(TillFault::Memory),
    }
}

/// Says what a reading of head office shows, or how the words are used.
pub(crate) fn read_office<K: WallClock, V: Server, L: Shelf>(
    desk: &Desk<'_, K, V, L>,
    words: &[String],
) -> Result<Said, TillFault>
    ensures { IfOk result (λ said. SaysReading
        (IsAnswered (V.opens desk.now.server.now) V.Reader.remaining V.Writer.contents)
        desk.now.settings.now.token desk.now.is_json (map string_bytes words.now) (string_bytes said.text)
        said.status) }
{
    match office_look_request(desk.alloc, desk.routes, &desk.settings.token, words) {
        Ok(request) => {
            let answer = desk.ask(request.bytes.as_slice())?;
            office_said(desk.alloc, desk.is_json, &answer)
        }
        Err(fault) => unsaid(fault),
    }
}

/// Returns the bytes of a command of head office, under the key of that number.
fn office_bytes<K: WallClock, V: Server, L: Shelf>(
    desk: &Desk<'_, K, V, L>,
    number: u32,
    words: &[String],
) -> Result<Vec<u8>, NotSaid>
    ensures says { IfOk result (λ bytes. SaysUnder desk.now.settings.now.mark desk.now.settings.now.token
        (map string_bytes words.now) number bytes.items) }
    ensures fault { IfErr result (IsFaultOf (with_key (key_of desk.now.settings.now.mark number)
        (map string_bytes words.now))) }
{
    let settings = desk.settings;
    let sealed = office_request(
        desk.alloc,
        desk.routes,
        &settings.token,
        &settings.mark,
        number,
        words,
    )?;
    Ok(sealed.bytes)
}

/// Returns the fault of a word that isn't entered, since one before it has no reply yet.
fn earlier_fault(fault: TillFault) -> TillFault
    ensures { fault ≡ TillFault.Book → result ≡ TillFault.Book }
{
    match fault {
        TillFault::Unanswered | TillFault::NotNow | TillFault::NotKnown => TillFault::EarlierWaits,
        other => other,
    }
}

/// Sends what waits. While the line is down it fails if something waits.
fn answer_earlier<S: Alter, K: WallClock, V: Server, L: Shelf, W: Watch>(
    desk: &Desk<'_, K, V, L>,
    conn: &mut Connection<S>,
    place: &mut Place,
    watch: &mut W,
) -> Result<(), TillFault>
    requires { conn.old.in_transaction ≡ false }
    ensures ended { conn.new.in_transaction ≡ false }
    ensures clean { HasCleanDisk (state S.Store conn.new) → HasCleanDisk (state S.Store conn.old) }
    ensures sends { HasCleanDisk (state S.Store conn.new) → IsBookKept result
        → Sends (IsExchanged (V.opens desk.now.server.now) V.Reader.remaining V.Writer.contents) place.old
        (state S.Store conn.old) place.new (state S.Store conn.new) }
    ensures crash { HasCleanDisk (state S.Store conn.new) → Leaves (HasPlace place.old (state S.Store conn.old)) IsAny
        (IsLater (IsExchanged (V.opens desk.now.server.now) V.Reader.remaining V.Writer.contents)) (state S.Store conn.new) }
{
    if place.replies == place.entries {
        return Ok(());
    }
    if desk.line.is_down() {
        return Err(TillFault::EarlierWaits);
    }
    match send_all(desk, conn, place, watch) {
        Ok(_) => {}
        Err(fault) => return Err(earlier_fault(fault)),
    }
    Ok(())
}

/// If an entry was refused because an earlier one has its key, sends the earlier ones under that key once more. Says
/// which was done. The key is used, so none of them is done by this.
fn settle_earlier<S: Alter, K: WallClock, V: Server, L: Shelf>(
    desk: &Desk<'_, K, V, L>,
    conn: &mut Connection<S>,
    said: &mut Said,
) -> Result<(), TillFault>
    requires { conn.old.in_transaction ≡ false }
    ensures ended { conn.new.in_transaction ≡ false }
    ensures clean { HasCleanDisk (state S.Store conn.new) → HasCleanDisk (state S.Store conn.old) }
    ensures same { HasCleanDisk (state S.Store conn.new) → IsBookKept result
        → EntersNothing (IsExchanged (V.opens desk.now.server.now) V.Reader.remaining V.Writer.contents) (state S.Store
        conn.old) (state S.Store conn.new) }
    ensures crash { HasCleanDisk (state S.Store conn.new) → Leaves (Rests (state S.Store conn.old)) IsAny
        (IsSettledAfter (IsExchanged (V.opens desk.now.server.now) V.Reader.remaining V.Writer.contents)) (state S.Store conn.new) }
{
    let entries = read_doubtful(desk.alloc, &desk.settings.mark, conn)?;
    if entries.is_empty() {
        return Ok(());
    }
    if desk.line.is_down() {
        return Err(TillFault::EarlierWaits);
    }
    match settle_refused(desk, conn, entries.as_slice(), None, said) {
        Ok(true) => return Ok(()),
        Ok(false) => return Err(TillFault::EarlierWaits),
        Err(fault) => return Err(fault),
    }
}

/// Enters those bytes, and sends them until they are answered. While the line is down they wait in the book.
fn give_request<S: Alter, K: WallClock, V: Server, L: Shelf, W: Watch>(
    desk: &Desk<'_, K, V, L>,
    conn: &mut Connection<S>,
    place: &mut Place,
    request: &[u8],
    watch: &mut W,
) -> Result<Answer, TillFault>
    requires { conn.old.in_transaction ≡ false }
    ensures ended { conn.new.in_transaction ≡ false }
    ensures clean { HasCleanDisk (state S.Store conn.new) → HasCleanDisk (state S.Store conn.old) }
    ensures turn { HasCleanDisk (state S.Store conn.new) → IsBookKept result → (mark token : Text) (words : List Text)
        (n : ℕ) → SaysUnder mark token words n request.now → place.old.replies ≡ place.old.entries
        → (journal : Journal) → HasPlace place.old (state S.Store conn.old) journal → n ≡ open_key journal.replies
        → HasTurn (IsExchanged (V.opens desk.now.server.now) V.Reader.remaining V.Writer.contents) mark token words
        place.new (state S.Store conn.new) journal }
    ensures given { HasCleanDisk (state S.Store conn.new) → place.old.replies ≡ place.old.entries
        → IfOk result (λ answer. GivesOne
        (IsExchanged (V.opens desk.now.server.now) V.Reader.remaining V.Writer.contents) request.now (seen_answer answer)
        place.old (state S.Store conn.old) place.new (state S.Store conn.new)) }
    ensures crash { HasCleanDisk (state S.Store conn.new) → Leaves (HasPlace place.old (state S.Store conn.old)) IsAny
        (IsLater (IsExchanged (V.opens desk.now.server.now) V.Reader.remaining V.Writer.contents)) (state S.Store conn.new) }
{
    match enter_request(conn, place, request) {
        Ok(()) => {}
        Err(fault) => return Err(TillFault::from(fault)),
    }
    if desk.line.is_down() {
        return Err(TillFault::Waits);
    }
    match send_all(desk, conn, place, watch) {
        Ok(Some(answer)) => Ok(answer),
        Ok(None) => Err(TillFault::OtherBook),
        Err(fault) => Err(fault),
    }
}

/// Enters the words under the open key, and sends them until they are answered. Fails with `OtherBook` if an earlier
/// entry has no reply.
fn give_keyed<S: Alter, K: WallClock, V: Server, L: Shelf, W: Watch>(
    desk: &Desk<'_, K, V, L>,
    conn: &mut Connection<S>,
    place: &mut Place,
    words: &[String],
    watch: &mut W,
) -> Result<Answer, TillFault>
    requires { conn.old.in_transaction ≡ false }
    ensures ended { conn.new.in_transaction ≡ false }
    ensures clean { HasCleanDisk (state S.Store conn.new) → HasCleanDisk (state S.Store conn.old) }
    ensures turn { HasCleanDisk (state S.Store conn.new) → IsBookKept result
        → GrowsInTurn (IsExchanged (V.opens desk.now.server.now) V.Reader.remaining V.Writer.contents)
        desk.now.settings.now.mark desk.now.settings.now.token (map string_bytes words.now) place.old
        (state S.Store conn.old) place.new (state S.Store conn.new) }
    ensures used { HasCleanDisk (state S.Store conn.new)
        → IfOk result (λ answer. is_reply_to (Decision KeyUsed) (seen_answer answer) ≡ true
        → GrowsUsed (IsExchanged (V.opens desk.now.server.now) V.Reader.remaining V.Writer.contents)
        desk.now.settings.now.mark desk.now.settings.now.token (map string_bytes words.now) place.old
        (state S.Store conn.old) place.new (state S.Store conn.new)) }
    ensures answered { HasCleanDisk (state S.Store conn.new) → IfOk result (λ answer. AnswersInTurn
        (IsExchanged (V.opens desk.now.server.now) V.Reader.remaining V.Writer.contents)
        desk.now.settings.now.mark desk.now.settings.now.token (map string_bytes words.now) (seen_answer answer)
        place.old (state S.Store conn.old) place.new (state S.Store conn.new)) }
    ensures crash { HasCleanDisk (state S.Store conn.new) → Leaves (HasPlace place.old (state S.Store conn.old)) IsAny
        (IsLater (IsExchanged (V.opens desk.now.server.now) V.Reader.remaining V.Writer.contents)) (state S.Store conn.new) }
{
    if place.replies != place.entries {
        return Err(TillFault::OtherBook);
    }
    let number = read_open_key(desk.alloc, conn)?;
    match office_bytes(desk, number, words) {
        Ok(request) => give_request(desk, conn, place, request.as_slice(), watch),
        Err(_) => Err(TillFault::NotSent),
    }
}

/// Gives the words. If an earlier entry has their key, says which, and gives them under the next key.
fn give_words<S: Alter, K: WallClock, V: Server, L: Shelf, W: Watch>(
    desk: &Desk<'_, K, V, L>,
    conn: &mut Connection<S>,
    place: &mut Place,
    words: &[String],
    said: &mut Said,
    watch: &mut W,
) -> Result<Answer, TillFault>
    requires { conn.old.in_transaction ≡ false }
    ensures ended { conn.new.in_transaction ≡ false }
    ensures clean { HasCleanDisk (state S.Store conn.new) → HasCleanDisk (state S.Store conn.old) }
    ensures turn { HasCleanDisk (state S.Store conn.new) → IsBookKept result
        → GrowsInTurn (IsExchanged (V.opens desk.now.server.now) V.Reader.remaining V.Writer.contents)
        desk.now.settings.now.mark desk.now.settings.now.token (map string_bytes words.now) place.old
        (state S.Store conn.old) place.new (state S.Store conn.new) }
    ensures answered { HasCleanDisk (state S.Store conn.new) → IfOk result (λ answer. AnswersInTurn
        (IsExchanged (V.opens desk.now.server.now) V.Reader.remaining V.Writer.contents)
        desk.now.settings.now.mark desk.now.settings.now.token (map string_bytes words.now) (seen_answer answer)
        place.old (state S.Store conn.old) place.new (state S.Store conn.new)) }
    ensures crash { HasCleanDisk (state S.Store conn.new) → Leaves (HasPlace place.old (state S.Store conn.old)) IsAny
        (IsLater (IsExchanged (V.opens desk.now.server.now) V.Reader.remaining V.Writer.contents)) (state S.Store conn.new) }
{
    match settle_earlier(desk, conn, said) {
        Ok(()) => {}
        Err(fault) => return Err(fault),
    }
    let answer = match give_keyed(desk, conn, place, words, watch) {
        Ok(answer) => answer,
        Err(fault) => return Err(fault),
    };
    if !is_key_used(&answer) {
        return Ok(answer);
    }
    let before = said.text.as_str().len();
    match settle_earlier(desk, conn, said) {
        Ok(()) => {}
        Err(fault) => return Err(fault),
    }
    if said.text.as_str().len() == before {
        return Ok(answer);
    }
    give_keyed(desk, conn, place, words, watch)
}

/// Says the answer to a word of head office, the outcomes of what had waited before it, and which earlier entry was done
/// after all.
fn told<K: WallClock, V: Server, L: Shelf>(
    desk: &Desk<'_, K, V, L>,
    answer: &Answer,
    waited: &Option<Said>,
    more: &Said,
) -> Result<Said, TillFault>
    ensures { IfOk result (λ said. SaysTurn desk.now.is_json (seen_answer answer.now) (string_bytes said.text)
        said.status) }
{
    let mut said = office_said(desk.alloc, desk.is_json, answer)?;
    say_waited(waited, &mut said)?;
    said.text.push_str(more.text.as_str())?;
    Ok(said)
}

/// Returns the fault of a word. If an earlier entry was done after all, says the fault and that.
fn fault_told<K: WallClock, V: Server, L: Shelf>(
    desk: &Desk<'_, K, V, L>,
    fault: TillFault,
    more: &Said,
) -> Result<Said, TillFault>
    ensures book { fault ≡ TillFault.Book → result ≡ Err TillFault.Book }
    ensures said { IfOk result (λ said. SaysFault (string_bytes said.text) said.status) }
{
    if fault == TillFault::Book || more.text.as_str().is_empty() {
        return Err(fault);
    }
    let (alloc, line) = (desk.alloc, fault.sentences());
    let text = format!(in alloc; "{line}\n{}", more.text)?;
    Ok(Said {
        text,
        status: fault.status(),
    })
}

/// Sends what waits, and gives the words once each earlier entry has its reply. Says the answer, the outcomes of what
/// had waited, and which earlier entry was done after all.
fn give_in_turn<S: Alter, K: WallClock, V: Server, L: Shelf, W: Watch>(
    desk: &Desk<'_, K, V, L>,
    conn: &mut Connection<S>,
    place: &mut Place,
    words: &[String],
    watch: &mut W,
) -> Result<Said, TillFault>
    requires { conn.old.in_transaction ≡ false }
    ensures ended { conn.new.in_transaction ≡ false }
    ensures clean { HasCleanDisk (state S.Store conn.new) → HasCleanDisk (state S.Store conn.old) }
    ensures turn { HasCleanDisk (state S.Store conn.new) → IsBookKept result
        → GrowsInTurn (IsExchanged (V.opens desk.now.server.now) V.Reader.remaining V.Writer.contents)
        desk.now.settings.now.mark desk.now.settings.now.token (map string_bytes words.now) place.old
        (state S.Store conn.old) place.new (state S.Store conn.new) }
    ensures says { HasCleanDisk (state S.Store conn.new) → IfOk result (λ said. SaysInTurn
        (IsExchanged (V.opens desk.now.server.now) V.Reader.remaining V.Writer.contents)
        desk.now.settings.now.mark desk.now.settings.now.token desk.now.is_json (map string_bytes words.now)
        place.old (state S.Store conn.old) place.new (state S.Store conn.new) (string_bytes said.text) said.status) }
    ensures crash { HasCleanDisk (state S.Store conn.new) → Leaves (HasPlace place.old (state S.Store conn.old)) IsAny
        (IsLater (IsExchanged (V.opens desk.now.server.now) V.Reader.remaining V.Writer.contents)) (state S.Store conn.new) }
{
    let before = *place;
    match answer_earlier(desk, conn, place, watch) {
        Ok(()) => {}
        Err(fault) => return Err(fault),
    }
    let table = waited(desk, conn, before)?;
    let mut more = Said::done(desk.alloc);
    let answer = match give_words(desk, conn, place, words, &mut more, watch) {
        Ok(answer) => answer,
        Err(fault) => return fault_told(desk, fault, &more),
    };
    told(desk, &answer, &table, &more)
}

/// Enters a command of head office, and sends it until it is answered. What waits is sent first: the command is entered
/// only if each earlier entry has its reply. It gets the key of the entries that were refused since the last one that
/// was done. If one of them was done after all, that is said, and the command gets the next key.
pub(crate) fn give_office<S: Alter, K: WallClock, V: Server, L: Shelf, W: Watch>(
    desk: &Desk<'_, K, V, L>,
    conn: &mut Connection<S>,
    book: &mut Book,
    words: &[String],
    watch: &mut W,
) -> Result<Said, TillFault>
    requires { conn.old.in_transaction ≡ false }
    ensures ended { conn.new.in_transaction ≡ false }
    ensures clean { HasCleanDisk (state S.Store conn.new) → HasCleanDisk (state S.Store conn.old) }
    ensures grows { HasCleanDisk (state S.Store conn.new) → IsBookKept result
        → Grows (IsExchanged (V.opens desk.now.server.now) V.Reader.remaining V.Writer.contents) book.old.place (state
        S.Store conn.old) book.new.place (state S.Store conn.new) }
    ensures adds { HasCleanDisk (state S.Store conn.new) → IsBookKept result
        → AddsInTurn desk.now.settings.now.mark desk.now.settings.now.token (map string_bytes words.now)
        book.old.place (state S.Store conn.old) book.new.place (state S.Store conn.new) }
    ensures says { HasCleanDisk (state S.Store conn.new) → IfOk result (λ said. SaysInTurn
        (IsExchanged (V.opens desk.now.server.now) V.Reader.remaining V.Writer.contents)
        desk.now.settings.now.mark desk.now.settings.now.token desk.now.is_json (map string_bytes words.now)
        book.old.place (state S.Store conn.old) book.new.place (state S.Store conn.new) (string_bytes said.text)
        said.status) }
    ensures crash { HasCleanDisk (state S.Store conn.new) → Leaves (HasPlace book.old.place (state S.Store conn.old)) IsAny
        (IsLater (IsExchanged (V.opens desk.now.server.now) V.Reader.remaining V.Writer.contents)) (state S.Store conn.new) }
{
    match office_bytes(desk, 1, words) {
        Ok(_) => give_in_turn(desk, conn, &mut book.place, words, watch),
        Err(fault) => unsaid(fault),
    }
}
