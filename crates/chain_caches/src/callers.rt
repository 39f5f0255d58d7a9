//! Caches callers by their tokens.

ghost use Rattle.std.specs.Prelude.{◌≡◌, ◌⊎◌, [], ◌∷◌, ◌++◌, Some, IfSome, IsTrue, false};
ghost use Rattle.shop_model.specs.Rows.{lacks};
ghost use Rattle.shop_model.specs.Shop.{Catalogue};
ghost use Rattle.shop_model.specs.Books.{caller_of};
ghost use Rattle.shop_types.specs.Seen.{seen_caller};
ghost use Rattle.chain_caches.specs.Callers.{AreCallers};

use shop_types::{BranchNo, Caller, Token};
use std::alloc::Global;
use std::marker::Model;

/// Tokens with their callers, which are head office and branches, in the order in which they came. If there are 256, no
/// further token is taken.
#[derive(Drop)]
pub struct CallerCache {
    callers: Vec<(Token, Caller)>,
}

impl Model for CallerCache {
    ghost use Rattle.std.specs.Prelude.{◌≤◌, ℕ, List, length};
    ghost use Rattle.shop_types.specs.declared.request.Caller.{Caller};

    ghost Value = { List (List ℕ × Caller) };

    ghost view = { λ c. c.callers.items };

    ghost invariant = { λ c. length c.callers.items ≤ 256 };
}

impl CallerCache {
    /// Returns a cache without a caller. Takes no memory.
    pub fn new(alloc: Global) -> CallerCache
        ensures { result ≡ [] }
    {
        CallerCache {
            callers: Vec::new(alloc),
        }
    }

    /// Returns the caller who has the token, if it is known.
    pub fn known(&self, token: &Token) -> Option<Caller>
        ensures { (catalogue : Catalogue) → AreCallers self.now catalogue
            → IfSome result (λ caller. seen_caller caller ≡ caller_of (Some token.now) catalogue) }
    {
        for (known, caller) in &self.callers {
            if *known == *token {
                return Some(*caller);
            }
        }
        None
    }

    /// Returns whether the branch is in the cache. If so, the chain has the branch.
    pub fn has_branch(&self, branch: BranchNo) -> bool
        ensures { (catalogue : Catalogue) → AreCallers self.now catalogue → IsTrue result
            → lacks catalogue.branches branch ≡ false }
    {
        for (_, caller) in &self.callers {
            if let Caller::Branch(known) = caller {
                if known.get() == branch.get() {
                    return true;
                }
            }
        }
        false
    }

    /// Keeps which caller has the token, if it is somebody's and there are room and memory for it. Else the cache stays
    /// as it is, and no error is returned.
    pub fn put(&mut self, token: &Token, caller: &Caller)
        ensures { (catalogue : Catalogue) → AreCallers self.old catalogue
            → seen_caller caller.now ≡ caller_of (Some token.now) catalogue → AreCallers self.new catalogue }
    {
        match *caller {
            Caller::Office | Caller::Branch(_) => self.keep(*token, *caller),
            Caller::Nobody => {}
        }
    }

    /// Keeps the token and its caller, if there are room and memory.
    fn keep(&mut self, token: Token, caller: Caller)
        ensures { (self.new ≡ self.old) ⊎ (self.new ≡ self.old ++ (token, caller) ∷ []) }
    {
        if self.callers.len() < 256 {
            drop(self.callers.push((token, caller)));
        }
    }
}
