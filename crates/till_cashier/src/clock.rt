//! The clock that dates what is entered.

ghost use Rattle.std.specs.Prelude.{⊤, ℕ, IfOk};

use std::io;
use std::time::Clock;

/// A clock that shows the seconds since 1970. What it shows is its own: no other number can be said to be shown.
pub trait WallClock: Clock {
    // the clock showed that many seconds since 1970
    ghost shows: { Self → ℕ → Type 0 };

    /// Reads the seconds since 1970.
    fn seconds(&self) -> io::Result<u64>
        ensures { IfOk result (λ n. shows self.now n) };
}

impl WallClock for HostRuntime {
    // nothing is known of the machine's clock
    ghost shows = { λ _ _. ⊤ };

    fn seconds(&self) -> io::Result<u64> {
        Ok(self.since_1970()?.as_secs())
    }
}
