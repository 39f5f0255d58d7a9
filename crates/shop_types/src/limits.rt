ghost use Rattle.std.specs.Prelude.{◌≡◌, ◌≤◌};
ghost use Rattle.shop_types.specs.LimitValues.{is_limit, limits_of, most_limits};

use std::marker::Model;

/// How many commands and how many copies a shop holds at most, each from 1 to 1,000,000.
#[derive(Clone, Copy)]
pub struct Limits {
    commands: u32,
    copies: u32,
}

impl Model for Limits {
    ghost use Rattle.std.specs.Prelude.{◌≡◌, true};
    ghost use Rattle.shop_types.specs.LimitValues.{Limits as LimitsValue, is_limits};

    ghost Value = { LimitsValue };

    ghost view = { λ a. record { commands = a.commands; copies = a.copies } };

    ghost invariant = { λ a. is_limits (record { commands = a.commands; copies = a.copies }) ≡ true };

    ghost inverse = { λ limits. record { commands = limits.commands; copies = limits.copies } };
}

fn is_in_range(number: u32) -> bool
    ensures { result ≡ is_limit number }
{
    1 <= number && number <= 1_000_000
}

impl Limits {
    /// Returns the limits, if both numbers are from 1 to 1,000,000.
    pub fn new(commands: u32, copies: u32) -> Option<Limits>
        ensures { result ≡ limits_of commands copies }
    {
        if is_in_range(commands) && is_in_range(copies) {
            Some(Limits { commands, copies })
        } else {
            None
        }
    }

    pub fn commands(self) -> u32
        ensures value { result ≡ self.commands }
        ensures low { 1 ≤ result }
        ensures high { result ≤ 1_000_000 }
    {
        self.commands
    }

    pub fn copies(self) -> u32
        ensures value { result ≡ self.copies }
        ensures low { 1 ≤ result }
        ensures high { result ≤ 1_000_000 }
    {
        self.copies
    }
}

impl Default for Limits {
    ghost is_default = { λ limits. limits ≡ most_limits };

    fn default() -> Limits {
        Limits {
            commands: 1_000_000,
            copies: 1_000_000,
        }
    }
}
