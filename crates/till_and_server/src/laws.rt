//! Laws. Each is the contract of a function that does nothing.

ghost use Rattle.till_and_server.specs.Laws.{RunsHaveExchanges, OneMessageIsRead, OneAnswerIsRead, OneEventIsRun, RunsAreLives, ServedOverAStop, OneAmongMany, ExchangesAreAnswered, DeliveriesAreRecorded, ExchangesAreWitnesses, TillAndServer, SettlementsAreNoted, SettledTillAndServer, ExtendedBooksStayRecorded, WordsReachTheDisk, TillOverAStop};
ghost use Rattle.till_and_server.specs.Isolation.{LivesSendTheSame, ResentRequestsSendTheSame, OneLifeIsOneHistory};

use sqlite::Alter;
use till_work::Server;

/// If `serve` or turns of a connection say that a chain ran over exchanges, those exchanges are the connection's.
#[tactic(auto, using(crate::proofs::Runs::runs_have))]
pub fn runs_have_exchanges<S: Alter>()
    ensures { RunsHaveExchanges S.Store }
{}

/// A server answers either one message or none of a connection with one request, also if the connection breaks.
pub fn one_message_is_read()
    ensures { OneMessageIsRead }
{}

/// If a till reads a whole reply, the server answered the till's message alone, with that very answer.
pub fn one_answer_is_read()
    ensures { OneAnswerIsRead }
{}

/// After a connection with one request, the chain is as it was, or it ran over that message's event and nothing else.
/// This also holds if the connection breaks. If a till reads a whole reply, the chain ran over that event with that
/// answer.
pub fn one_event_is_run<S: Alter>()
    ensures { OneEventIsRun S.Store }
{}

/// The exchanges that a chain ran over from its opening on are a life of the chain.
pub fn runs_are_lives()
    ensures { RunsAreLives }
{}

/// What a chain served before a stop and after it are two lives. The chain's books after that are the books of the two
/// lives.
pub fn served_over_a_stop<S: Alter>()
    ensures { ServedOverAStop S.Store }
{}

/// If a connection has one exchange, that exchange is among all exchanges that the chain ran over.
pub fn one_among_many()
    ensures { OneAmongMany }
{}

/// If an exchange is among the exchanges of a life of the chain, the chain gave that answer to that command.
pub fn exchanges_are_answered()
    ensures { ExchangesAreAnswered }
{}

/// The replies of a book stay recorded from exchanges with a chain, when the till enters and delivers.
pub fn deliveries_are_recorded()
    ensures { DeliveriesAreRecorded }
{}

/// If nobody else uses a till's mark, the replies that the till recorded from its exchanges are its book's witnesses.
pub fn exchanges_are_witnesses()
    ensures { ExchangesAreWitnesses }
{}

/// From the key press to the disk, over connections that may break anywhere, each entry acts at most once, in the order
/// of entering. An entry that the till's book shows as accepted has acted once, with that reply.
pub fn from_the_till_to_the_disk()
    ensures { TillAndServer }
{}

/// The settlements of a book stay recorded from exchanges with a chain, when the till enters, delivers and settles.
pub fn settlements_are_noted()
    ensures { SettlementsAreNoted }
{}

/// The same law with settlements. An entry whose retry got 200 has acted once, with exactly that reply. An entry whose
/// retry got `moment_back` has not acted, whatever the branch got after that. So the till's book and its settlements
/// agree with the chain's books.
pub fn settled_from_the_till_to_the_disk()
    ensures { SettledTillAndServer }
{}

/// A book that is extended by exchanges with a chain stays recorded and noted. Each word of the till extends its book so.
pub fn extended_books_stay_recorded<V: Server>(server: &V)
    ensures { ExtendedBooksStayRecorded (V.opens server.now) V.Reader.remaining V.Writer.contents }
{
    let _ = server;
}

/// From an empty book on, over any words of the till: the book's entries, with what settled them, have become in the
/// chain's books what they say.
pub fn words_reach_the_disk<V: Server>(server: &V)
    ensures { WordsReachTheDisk (V.opens server.now) V.Reader.remaining V.Writer.contents }
{
    let _ = server;
}

/// Two chains with the same limits live any lives, each with its own stops. Their books begin alike for a branch. If the
/// branch sees the same over all lives, it is sent the same bytes. Its view says which of its own requests acted without
/// a reply. Afterwards the books are alike for the branch again.
pub fn lives_send_the_same()
    ensures { LivesSendTheSame }
{}

/// The same law for a branch that sends a request in flight again before it sees anything else. It is sent the same bytes
/// whether that request had acted or not.
pub fn resent_requests_send_the_same()
    ensures { ResentRequestsSendTheSame }
{}

/// Suppose that no request in flight acted. Then a branch is sent and sees in one life what it is sent and sees in a
/// history without stops. So of one life each, `lives_send_the_same` says what `branches_are_sent_the_same` of
/// `counter_http` says of two histories.
pub fn one_life_is_one_history()
    ensures { OneLifeIsOneHistory }
{}

/// A till's life: a book is made, and then come words, stops and openings in any order. The last book says of its
/// entries what they did in the chain's books, if nobody else used the till's mark. `do_word` and
/// `do_word_over_a_stop` of `till_cashier` say that each step leads on.
pub fn till_over_a_stop<S: Alter, V: Server>(server: &V)
    ensures { TillOverAStop S.Store (V.opens server.now) V.Reader.remaining V.Writer.contents }
{
    let _ = server;
}
