//! Tables of characters, and the table that knows ASCII alone.
ghost use Rattle.std.specs.Prelude.{◌≡◌, ℕ, Bool};
ghost use Rattle.chars.specs.Tables.{Lawful, letter, word, printable};

/// Which characters a name is made of (UAX #31), and which ones an escaped text shows as they are.
/// Every table agrees on ASCII and keeps blanks out of names; the rest is its own.
pub trait CharTable {
    // Three sets and no record of them: a definition takes those alone that it speaks of, so that one sees what it depends on.

    /// What a name may begin with, besides the underscore.
    ghost starts: { Self → ℕ → Bool };

    /// What a name may go on with.
    ghost continues: { Self → ℕ → Bool };

    /// What stands for itself in an escaped text.
    ghost shown: { Self → ℕ → Bool };

    /// Whether a name may begin with the character. The underscore, which may too, is not counted here.
    fn is_xid_start(&self, c: char) -> bool
        ensures { result ≡ starts self.now c };

    /// Whether a name may go on with the character.
    fn is_xid_continue(&self, c: char) -> bool
        ensures { result ≡ continues self.now c };

    /// Whether the character stands for itself in an escaped text; any other is written as an escape.
    fn is_shown(&self, c: char) -> bool
        ensures { result ≡ shown self.now c };

    /// The laws that hold of every table.
    ghost lawful: { (t : Self) → Lawful (starts t) (continues t) (shown t) };
}

/// The table of ASCII alone: names are of its letters, digits and underscore, and whatever is not printable ASCII is escaped.
#[derive(Clone, Copy, PartialEq, Eq, Debug)]
pub struct Ascii;

impl CharTable for Ascii {
    ghost use Rattle.std.proofs.Common.{arith};
    ghost use Rattle.std.proofs.lemmas.Bool.Decides.{nat_tests};

    ghost starts = { λ _ c. letter c };

    ghost continues = { λ _ c. word c };

    ghost shown = { λ _ c. printable c };

    ghost lawful = { Prim.grind (arith, nat_tests) };

    fn is_xid_start(&self, c: char) -> bool {
        matches!(c, 'A'..='Z' | 'a'..='z')
    }

    fn is_xid_continue(&self, c: char) -> bool {
        matches!(c, 'A'..='Z' | 'a'..='z' | '0'..='9' | '_')
    }

    fn is_shown(&self, c: char) -> bool {
        matches!(c, ' '..='~')
    }
}
