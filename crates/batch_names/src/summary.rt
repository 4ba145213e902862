//! What became of the lines, counted.
ghost use Rattle.std.specs.Prelude.{List, [], ◌∷◌, Result};
ghost use Rattle.words.specs.declared.refusal.Refusal.{Refusal};
ghost use Rattle.batch_names.specs.declared.summary.Written.{Written};
ghost use Rattle.batch_names.specs.Tally.{Sums};

use std::fmt;
use std::num::Saturating;
use words::name::Form;
use words::refusal::Refusal;

/// A line whose forms were written.
#[derive(Clone, Copy, PartialEq, Eq, Debug)]
pub struct Written {
    /// How many bytes its forms have.
    pub bytes: usize,
    /// Whether it needed escapes.
    pub escaped: bool,
    /// How it stands as a name, if it is one.
    pub form: Option<Form>,
}

/// How many lines came out in each way. A count that would pass 2^64 - 1 stays there.
#[derive(Clone, Copy, Default)]
pub struct Summary {
    pub names: Saturating<u64>,
    pub bytes: Saturating<u64>,
    pub escaped: Saturating<u64>,
    pub bare: Saturating<u64>,
    pub raw: Saturating<u64>,
    pub no_name: Saturating<u64>,
    pub not_utf8: Saturating<u64>,
    pub too_long: Saturating<u64>,
    pub no_space: Saturating<u64>,
}

impl Summary {
    /// The summary of no line.
    pub fn new() -> Summary
        ensures { Sums [] result }
    {
        Summary::default()
    }

    /// Counts one line more: what was written of it, or why it was refused.
    pub fn add(&mut self, outcome: Result<Written, Refusal>)
        ensures { (os : List (Result Written Refusal)) → Sums os self.old → Sums (outcome ∷ os) self.new }
    {
        self.names += 1;
        match outcome {
            Ok(written) => {
                self.bytes += written.bytes as u64;
                self.escaped += u64::from(written.escaped);
                match written.form {
                    Some(Form::Bare) => self.bare += 1,
                    Some(Form::Raw) => self.raw += 1,
                    None => self.no_name += 1,
                }
            }
            Err(Refusal::InvalidIdentifier) => self.no_name += 1,
            Err(Refusal::NotUtf8) => self.not_utf8 += 1,
            // A line is no number and no character, so it is not refused as one.
            Err(Refusal::NotScalar | Refusal::NotFloat) => {}
            Err(Refusal::TooLong) => self.too_long += 1,
            Err(Refusal::NoSpace) => self.no_space += 1,
        }
    }
}

impl fmt::Display for Summary {
    fn fmt<W: fmt::Write>(&self, f: &mut fmt::Formatter<W>) -> fmt::Result {
        let Summary {
            names,
            bytes,
            escaped,
            bare,
            raw,
            no_name,
            not_utf8,
            too_long,
            no_space,
        } = *self;
        writeln!(f, "names read: {names}")?;
        writeln!(f, "bytes written: {bytes}")?;
        writeln!(f, "stand bare: {bare}")?;
        writeln!(f, "stand behind r#: {raw}")?;
        writeln!(f, "needed escapes: {escaped}")?;
        writeln!(f, "refused 6, no name: {no_name}")?;
        writeln!(f, "refused 7, not UTF-8: {not_utf8}")?;
        writeln!(f, "refused 10, over 65535 bytes: {too_long}")?;
        write!(f, "refused 19, forms exceed the space: {no_space}")
    }
}
