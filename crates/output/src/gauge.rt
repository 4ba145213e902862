//! An output that counts and keeps nothing, to learn whether something would fit.
ghost use Rattle.std.specs.Prelude.{◌≡◌, ◌+◌, length};
ghost use Rattle.output.specs.Laws.{used_adds};

use crate::{Full, Output};

/// Knows how many more bytes fit, and nothing of those that it took.
#[derive(Clone, Copy, PartialEq, Eq, Debug)]
pub struct Gauge {
    room: usize,
}

impl Gauge {
    /// A gauge that takes `room` bytes.
    pub fn new(room: usize) -> Gauge
        ensures { result.room ≡ room }
    {
        Gauge { room }
    }

    /// How many more bytes fit.
    pub fn room(&self) -> usize
        ensures { result ≡ self.now.room }
    {
        self.room
    }
}

impl Output for Gauge {
    ghost room = { λ g. g.room };

    ghost took = { λ a x b. length x + b.room ≡ a.room };

    ghost adds = { used_adds (λ g. g.room) };

    fn put(&mut self, bytes: &[u8]) -> Result<(), Full> {
        if bytes.len() > self.room {
            return Err(Full);
        }
        self.room -= bytes.len();
        Ok(())
    }
}
