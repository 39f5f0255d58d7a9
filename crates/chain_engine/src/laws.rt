//! Laws of what a chain answers, on functions with nothing to do.

ghost use Rattle.chain_engine.specs.Laws.{RunsFollow, StaysWellInMemory};

/// Two calls of `replay`, one after the other, answer what one call would have answered. Both together are one history.
pub fn runs_follow()
    ensures { RunsFollow }
{}

/// A chain in memory that is well stays well. So `caller` and `audit` never return `StoreFailed` there.
pub fn stays_well_in_memory()
    ensures { StaysWellInMemory }
{}
