//! A law, on a function with nothing to do.

ghost use Rattle.till_work.specs.Exchanged.{IsExchanged};
ghost use Rattle.till_cashier.specs.Asking.{IsAnswered};
ghost use Rattle.till_program.specs.Windows as law;

use sqlite::Alter;
use till_cashier::WallClock;
use till_work::Server;

/// Windows share one book, whatever words they have done, in whatever order. Each word did as `do_word` says, and
/// found the book as the word before it had left it.
pub fn windows_share_a_book<S: Alter, K: WallClock, V: Server>(clock: &K, server: &V)
    ensures shared { law.WindowsShareABook S.Store (IsExchanged (V.opens server.now) V.Reader.remaining V.Writer.contents)
        (K.shows clock.now) }
    ensures acts { law.ActsStay S.Store (IsExchanged (V.opens server.now) V.Reader.remaining V.Writer.contents)
        (K.shows clock.now) }
    ensures copies { law.CopiesComeBack S.Store (IsExchanged (V.opens server.now) V.Reader.remaining V.Writer.contents)
        (K.shows clock.now) }
    ensures performed { law.PerformedIsDone S.Store (IsExchanged (V.opens server.now) V.Reader.remaining V.Writer.contents)
        (IsAnswered (V.opens server.now) V.Reader.remaining V.Writer.contents) (K.shows clock.now) }
{
    let _ = clock;
    let _ = server;
}
