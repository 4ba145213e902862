//! Lines of bytes.
ghost use Rattle.std.specs.Prelude.{◌≡◌, ℕ, List};
ghost use Rattle.std.specs.Iterator.{item_count};
ghost use Rattle.inputs.specs.Lines.{Cut, GivesLine};

use crate::fields::split_once;
use std::marker::Model;

/// The first line of some bytes, without its end, and what follows it.
pub fn split_line(bytes: &[u8]) -> (&[u8], &[u8])
    ensures { Cut bytes.now result.0.now result.1.now }
{
    match split_once(bytes, b'\n') {
        Some((line, after)) => (line.strip_suffix(b"\r").unwrap_or(line), after),
        None => (bytes, &[]),
    }
}

/// The lines of some bytes, without their ends. As a value it is the bytes that are left.
#[derive(Drop)]
pub struct Lines<'a> {
    rest: &'a [u8],
}

impl<'a> Model for Lines<'a> {
    ghost Value = { List ℕ };

    ghost view = { λ lines. lines.rest.now };
}

impl<'a> Lines<'a> {
    /// The lines of these bytes, from the first on.
    pub fn new(bytes: &'a [u8]) -> Lines<'a>
        ensures { result ≡ bytes.now }
    {
        Lines { rest: bytes }
    }
}

impl<'a> Iterator for Lines<'a> {
    type Item = &'a [u8];

    ghost next_gives = { GivesLine };

    ghost remaining = { item_count (λ rest. rest) };

    fn next(&mut self) -> Option<&'a [u8]> {
        if self.rest.is_empty() {
            return None;
        }
        let (line, rest) = split_line(self.rest);
        self.rest = rest;
        Some(line)
    }
}
