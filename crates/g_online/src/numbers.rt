//! User numbers in rising order.
ghost use Rattle.std.specs.Prelude.{◌≡◌, ◌<◌, ◌≤◌, []};
ghost use Rattle.g_disc_contents.specs.Contents.{with_number};

use arrayvec::ArrayVec;
use std::marker::Model;

/// At most 63 user numbers in rising order. Contracts see a list.
#[derive(Drop)]
pub(crate) struct UserNumbers {
    numbers: ArrayVec<u8, 63>,
}

impl Model for UserNumbers {
    ghost use Rattle.std.specs.Prelude.{ℕ, List};
    ghost use Rattle.g_disc_contents.specs.Facts.{AreNumbers};

    ghost Value = { List ℕ };

    ghost view = { λ l. l.numbers.items };

    ghost invariant = { λ l. AreNumbers 63 l.numbers.items };
}

impl UserNumbers {
    /// No user.
    pub(crate) fn new() -> UserNumbers
        ensures { result ≡ [] }
    {
        UserNumbers {
            numbers: ArrayVec::new(),
        }
    }

    /// Inserts a number at its place, if it isn't there.
    pub(crate) fn put(&mut self, number: u8)
        requires { number < 63 }
        ensures { self.new ≡ with_number number self.old }
    {
        match self.numbers.binary_search(&number) {
            Ok(_) => {}
            Err(place) => self.numbers.insert(place, number),
        }
    }

    pub(crate) fn as_slice(&self) -> &[u8]
        ensures { result.now ≡ self.now }
    {
        self.numbers.as_slice()
    }
}
