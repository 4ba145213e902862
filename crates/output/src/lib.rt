//! Where bytes go: an output takes pieces while there is room, and a sink keeps them as a text.
#![tactic(auto)]

ghost use Rattle.std.specs.Prelude.{◌≡◌, ℕ, ◌-◌, false, List, ◌++◌, length, is_ok, if◌then◌else◌, nat_le};
ghost use Rattle.output.specs.Puts.{Adds, Puts};
ghost use Rattle.output.specs.Sinks.{Steady, Appended};
ghost use Rattle.output.specs.Laws.{appended_adds};

pub mod buffer;
pub mod gauge;
pub mod pair;

/// The answer of an output that has no room for the bytes.
#[derive(Clone, Copy, PartialEq, Eq, Debug)]
pub struct Full;

/// Takes bytes while there is room.
pub trait Output {
    // How many bytes still fit.
    ghost room: { Self → ℕ };

    // What it is to have taken bytes: the output before, the bytes, the output after.
    ghost took: { Self → List ℕ → Self → Type 0 };

    /// Takes all the bytes if they fit, and none of them otherwise.
    fn put(&mut self, bytes: &[u8]) -> Result<(), Full>
        ensures puts { Puts room took self.old bytes.now (is_ok result) self.new }
        ensures same { is_ok result ≡ false → self.new ≡ self.old };

    // Taking piece after piece is taking them all.
    ghost adds: { Adds took };
}

/// Keeps the bytes it takes: it has a text, and space for more.
pub trait Sink {
    // The bytes that it holds, in their order.
    ghost text: { Self → List ℕ };

    // How many more it can hold.
    ghost space: { Self → ℕ };

    // What no call changes: the sink before, the sink after.
    ghost keeps: { Self → Self → Type 0 };

    /// How many more bytes fit.
    fn space(&self) -> usize
        ensures { result ≡ space self.now };

    /// Adds the bytes behind the text if they fit, and leaves the sink as it was otherwise.
    fn append(&mut self, bytes: &[u8]) -> Result<(), Full>
        ensures value { is_ok result ≡ nat_le (length bytes.now) (space self.old) }
        ensures text { text self.new ≡ (if is_ok result then text self.old ++ bytes.now else text self.old) }
        ensures space { space self.new ≡ (if is_ok result then space self.old - length bytes.now else space self.old) }
        ensures keeps { keeps self.old self.new }
        ensures same { is_ok result ≡ false → self.new ≡ self.old };

    // What two calls in turn each leave unchanged, they leave unchanged together.
    ghost steady: { Steady keeps };
}

/// Every sink is an output, which takes bytes by adding them to its text.
impl<S: Sink> Output for S {
    ghost room = { S.space };

    ghost took = { Appended S.text S.keeps };

    ghost adds = { appended_adds S.text S.keeps S.steady };

    fn put(&mut self, bytes: &[u8]) -> Result<(), Full> {
        self.append(bytes)
    }
}
