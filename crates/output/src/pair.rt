//! A sink over two memories that a caller lends, which fills one and then the other.
ghost use Rattle.std.specs.Prelude.{◌≡◌, ◌+◌, ◌<◌, min, [], ◌++◌, length, take};
ghost use Rattle.output.specs.Usable.{usable};
ghost use Rattle.output.specs.Buffers.{buffer_space};

use crate::buffer::Buffer;
use crate::{Full, Sink};

/// A text that begins in one memory and goes on in another, which a caller lends and gets back.
///
/// The text fills the first memory and then the second, up to 1 GiB of each. Nothing behind it is touched in either
/// memory until the text reaches there.
#[derive(Drop)]
pub struct Pair<'a> {
    first: Buffer<'a>,
    second: Buffer<'a>,
    ghost in_turn: { 0 < second.used → buffer_space first ≡ 0 },
}

impl<'a> Pair<'a> {
    ghost use Rattle.output.specs.Pairs.{in_first, in_second, pair_text, pair_space};

    /// A pair with no text yet, which leaves both memories as they are.
    pub fn new(first: &'a mut [u8], second: &'a mut [u8]) -> Pair<'a>
        ensures text { pair_text result ≡ [] }
        ensures space { pair_space result ≡ usable first.old + usable second.old }
        ensures first { result.first.mem.now ≡ first.old }
        ensures second { result.second.mem.now ≡ second.old }
        ensures first_place { result.first.mem.ghost_name ≡ first.entry.ghost_name }
        ensures second_place { result.second.mem.ghost_name ≡ second.entry.ghost_name }
    {
        Pair {
            first: Buffer::new(first),
            second: Buffer::new(second),
        }
    }

    // Memory and length each, as a buffer gives them back.
    /// Gives both memories back, each with how many of its first bytes are text: the text is those of the first
    /// memory, and then those of the second, which has some only where the first has no place left.
    pub fn into_parts(self) -> ((&'a mut [u8], usize), (&'a mut [u8], usize))
        ensures text { take result.0.1 result.0.0.now ++ take result.1.1 result.1.0.now ≡ pair_text self.entry }
        ensures len { result.0.1 + result.1.1 ≡ length (pair_text self.entry) }
        ensures cut { result.0.1 ≡ min (length (pair_text self.entry)) (usable self.entry.first.mem.now) }
        ensures first_len { result.0.1 ≡ in_first self.entry }
        ensures second_len { result.1.1 ≡ in_second self.entry }
        ensures first { result.0.0.now ≡ self.entry.first.mem.now }
        ensures second { result.1.0.now ≡ self.entry.second.mem.now }
        ensures first_place { result.0.0.ghost_name ≡ self.entry.first.mem.ghost_name }
        ensures second_place { result.1.0.ghost_name ≡ self.entry.second.mem.ghost_name }
    {
        let Pair { first, second } = self;
        (first.into_parts(), second.into_parts())
    }
}

impl<'a> Sink for Pair<'a> {
    ghost use Rattle.output.specs.Pairs.{pair_text, pair_space, KeepsBoth};
    ghost use Rattle.std.proofs.Common.{arith};

    ghost text = { pair_text };

    ghost space = { pair_space };

    ghost keeps = { KeepsBoth };

    ghost steady = { Prim.grind arith };

    fn space(&self) -> usize {
        self.first.space() + self.second.space()
    }

    fn append(&mut self, bytes: &[u8]) -> Result<(), Full> {
        if bytes.len() > self.space() {
            return Err(Full);
        }
        // The first memory takes what it has a place for, and the second takes the rest.
        let (front, back) = bytes.split_at(bytes.len().min(self.first.space()));
        self.first.append(front)?;
        self.second.append(back)
    }
}
