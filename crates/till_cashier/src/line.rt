//! The line to the server, as far as a till knows it.

ghost use Rattle.std.specs.Prelude.{◌≡◌, true};
ghost use Rattle.till_cashier.specs.declared.line.Link.TheVariants as line;

/// Whether the server answers, as far as is known.
#[derive(Clone, Copy, Debug, PartialEq, Eq)]
pub enum Link {
    /// It does, or nothing is known of it. What is entered is sent, and looks are asked for.
    Open,
    /// It doesn't. What is entered waits, and looks fail at once. `send` tries all the same.
    Down,
}

impl Link {
    /// Tests whether the server doesn't answer.
    pub fn is_down(self) -> bool
        ensures { result ≡ true → self ≡ line.Down }
    {
        matches!(self, Link::Down)
    }
}
