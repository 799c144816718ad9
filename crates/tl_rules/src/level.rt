//! How many levels below a shape its box looks.
ghost use Rattle.std.specs.Prelude.{◌≡◌, ◌≤◌};
ghost use Rattle.shape_tree.specs.declared.limits.TheConstants.{MOST_LEVELS};

use std::marker::Model;

/// How many levels below a shape its box looks, 0 to `MOST_LEVELS`. Contracts see the number.
#[derive(Clone, Copy, PartialEq, Eq, PartialOrd, Ord)]
pub struct Level {
    // 0 to `MOST_LEVELS`.
    number: u8,
}

impl Model for Level {
    ghost use Rattle.std.specs.Prelude.{ℕ, ◌≤◌};

    ghost Value = { ℕ };

    ghost view = { λ l. l.number };

    ghost use Rattle.shape_tree.specs.declared.limits.TheConstants.{MOST_LEVELS};

    ghost invariant = { λ l. l.number ≤ MOST_LEVELS };

    ghost inverse = { λ n. record { number = n } };
}

impl Level {
    /// The level of a number, which must be at most `MOST_LEVELS`.
    pub fn of(n: u8) -> Level
        requires { n ≤ MOST_LEVELS }
        ensures { result ≡ n }
    {
        Level { number: n }
    }

    /// The number, 0 to `MOST_LEVELS`.
    pub fn number(&self) -> u8
        ensures number { result ≡ self.now }
        ensures most { result ≤ MOST_LEVELS }
    {
        self.number
    }
}
