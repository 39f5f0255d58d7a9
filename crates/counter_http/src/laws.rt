//! Laws, each on a function with nothing to do.

ghost use Rattle.counter_http.specs.Branches.{BranchesAreSentTheSame};
ghost use Rattle.counter_http.specs.Connections.{ConnectionsAreOneHistory};
ghost use Rattle.counter_http.specs.Together.{AreServedTogether, TurnsServe};

use sqlite::Alter;

/// Two histories of messages, of any lengths, begin with books that agree on the catalogue and on the branch's shop. If
/// the branch sees the same in both, it is sent the same bytes. Commands may have been kept, lots received and actors
/// cast in another order in either. The contract of `serve` says that its messages ran as such a history.
pub fn branches_are_sent_the_same()
    ensures { BranchesAreSentTheSame }
{}

/// Connections that have their turns by `Connection::advance` over one chain, one turn after another and in any
/// order, are served together. The chain's history is an interleaving of what was answered of each. Each connection
/// gets the replies to its own messages, in their order. This holds before the first connection, when one more comes,
/// and after one more turn of any connection.
#[tactic(auto, using(crate::proofs::Together::served_together))]
pub fn connections_are_served_together<S: Alter>()
    ensures { AreServedTogether S.Store }
{}

/// A connection that ended by turns, with nothing left to write, was served as `serve` promises for a connection that
/// is served alone.
#[tactic(auto, using(crate::proofs::Serving::turns_serve))]
pub fn turns_serve_alike<S: Alter>()
    ensures { TurnsServe S.Store }
{}

/// Several calls of `serve` over a chain, one after another, are one history. So a command that comes again over
/// another connection gets its first reply. What is said of a branch is said of all its connections together.
pub fn connections_are_one_history()
    ensures { ConnectionsAreOneHistory }
{}
