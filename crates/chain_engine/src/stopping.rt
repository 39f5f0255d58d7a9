//! Requests before a stop and after it.

ghost use Rattle.std.specs.Prelude.{◌≡◌, false, IfOk, map};
ghost use Rattle.sqlite.specs.State.{HasCleanDisk};
ghost use Rattle.sqlite.specs.Files.{over_files, file_state};
ghost use Rattle.shop_model.specs.Books.{Books};
ghost use Rattle.shop_types.specs.Replies.{seen_reply};
ghost use Rattle.branch_work.specs.Rules.{rules_of};
ghost use Rattle.chain_requests.specs.Chains.{IsAt, event_of};
ghost use Rattle.chain_engine.specs.Resumes.{Resumes};

use crate::chain::Chain;
use crate::restarting::restart;
use chain_files::OpenFault;
use shop_types::{Limits, NoMemory, Reply, Request, Token};
use sqlite::FileStore;
use sqlite_disk::Crash;
use std::alloc::Global;

/// A chain that was opened again after a stop, with its replies before the stop and after it.
#[derive(Drop)]
pub struct Resumed<D: Crash + Drop> {
    pub before: Vec<Reply>,
    pub behind: Vec<Reply>,
    pub chain: Chain<FileStore<D>>,
}

/// Why the chain wasn't opened again, or couldn't answer.
#[derive(Clone, Copy, Debug)]
pub enum NotResumed {
    /// There was no memory for the replies.
    Memory,
    /// The files weren't opened again.
    Closed(OpenFault),
}

impl From<NoMemory> for NotResumed {
    fn from(_: NoMemory) -> NotResumed {
        NotResumed::Memory
    }
}

/// Answers requests until they end or the store fails at some call. Stops there and lets the disks crash. Then opens
/// the files that are left with the limits that the chain had, and answers more requests. All of it is one history. It
/// has the requests that were answered before the stop, and the requests after it. It may also have the request at
/// which the store failed.
pub fn over_a_stop<D: Crash + Drop>(
    alloc: Global,
    chain: Chain<FileStore<D>>,
    limits: Limits,
    first: &[(Token, Request)],
    rest: &[(Token, Request)],
) -> Result<Resumed<D>, NotResumed>
    requires limits { chain.limits ≡ limits }
    requires live { chain.is_failed ≡ false }
    ensures { IfOk result (λ it. HasCleanDisk (file_state it.chain.conn) → (books besides : Books)
        → IsAt over_files chain books besides
        → ∥ Resumes over_files (rules_of limits) (map event_of first.now) (map event_of rest.now)
        (map seen_reply it.before.items) (map seen_reply it.behind.items) books it.chain ∥₁) }
{
    let mut chain = chain;
    let before = chain.replay(first)?;
    match restart(alloc, chain, limits) {
        Ok(again) => {
            let mut chain = again;
            let behind = chain.replay(rest)?;
            Ok(Resumed {
                before,
                behind,
                chain,
            })
        }
        Err((fault, _)) => Err(NotResumed::Closed(fault)),
    }
}
