// The place of a key.
ghost use Rattle.std.specs.Prelude.{◌≡◌, ◌<◌, ◌^◌, ℕ};

use std::marker::Model;

/// The place of a key in a table, seen by contracts as its number. Every id of a key has the same
/// place. Its number may differ between runs. The default is for where no place is known yet: no
/// call takes a place that no `enter` gave. It takes 4 bytes.
#[derive(Clone, Copy, Default)]
pub struct Place {
    at: u32,
}

impl Model for Place {
    ghost Value = { ℕ };

    ghost view = { λ p. p.at };

    ghost inverse = { λ n. record { at = n } };
}

impl Place {
    pub(crate) fn new(at: usize) -> Place
        requires { at < 2 ^ 32 }
        ensures { result ≡ at }
    {
        Place { at: at as u32 }
    }

    pub(crate) fn number(self) -> usize
        ensures { result ≡ self }
    {
        self.at as usize
    }
}
