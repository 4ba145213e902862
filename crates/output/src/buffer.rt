//! A sink over memory that a caller lends.
ghost use Rattle.std.specs.Prelude.{◌≡◌, ◌≤◌, [], length, take};
ghost use Rattle.output.specs.Usable.{usable};

use crate::{Full, Sink};

// How much of a lent memory is used at most: 1 GiB.
const MOST: usize = 1 << 30;

/// A text at the front of memory that a caller lends and gets back.
///
/// The text is the first `used` bytes. Nothing behind it is touched until the text reaches there.
#[derive(Drop)]
pub struct Buffer<'a> {
    mem: &'a mut [u8],
    // A length beside the memory, since the memory is lent and there is no heap.
    used: usize,
    ghost fits: { used ≤ usable mem.now },
}

impl<'a> Buffer<'a> {
    ghost use Rattle.output.specs.Buffers.{buffer_text, buffer_space};

    /// A buffer with no text yet, which leaves the memory as it is.
    pub fn new(mem: &'a mut [u8]) -> Buffer<'a>
        ensures text { buffer_text result ≡ [] }
        ensures space { buffer_space result ≡ usable mem.old }
        ensures memory { result.mem.now ≡ mem.old }
        ensures place { result.mem.ghost_name ≡ mem.entry.ghost_name }
    {
        Buffer { mem, used: 0 }
    }

    /// Gives the memory back, and how many of its first bytes are the text.
    // Memory and length are no struct, since this is for callers that want the whole memory that they lent.
    pub fn into_parts(self) -> (&'a mut [u8], usize)
        ensures text { take result.1 result.0.now ≡ buffer_text self.entry }
        ensures len { result.1 ≡ length (buffer_text self.entry) }
        ensures memory { result.0.now ≡ self.entry.mem.now }
        ensures place { result.0.ghost_name ≡ self.entry.mem.ghost_name }
    {
        let Buffer { mem, used } = self;
        (mem, used)
    }

    /// The text, as a part of the memory that was lent.
    pub fn into_text(self) -> &'a [u8]
        ensures { result.now ≡ buffer_text self.entry }
    {
        let Buffer { mem, used } = self;
        &mem[..used]
    }
}

/// The text in memory that a buffer gave back: the first `len` bytes, or all of them if there are fewer.
// Memory and length, as `into_parts` gives them back.
pub fn text(mem: &[u8], len: usize) -> &[u8]
    ensures { result.now ≡ take len mem.now }
{
    &mem[..len.min(mem.len())]
}

impl<'a> Sink for Buffer<'a> {
    ghost use Rattle.output.specs.Buffers.{buffer_text, buffer_space, Keeps};
    ghost use Rattle.std.proofs.Common.{arith};

    ghost text = { buffer_text };

    ghost space = { buffer_space };

    ghost keeps = { Keeps };

    ghost steady = { Prim.grind arith };

    fn space(&self) -> usize {
        self.mem.len().min(MOST) - self.used
    }

    fn append(&mut self, bytes: &[u8]) -> Result<(), Full> {
        if bytes.len() > self.space() {
            return Err(Full);
        }
        // No copy for an empty piece: between escapes that stand side by side a text puts one.
        if bytes.is_empty() {
            return Ok(());
        }
        let end = self.used + bytes.len();
        self.mem[self.used..end].copy_from_slice(bytes);
        self.used = end;
        Ok(())
    }
}
