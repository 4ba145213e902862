//! Each name with its forms, or with the number and the reason of its refusal.
ghost use Rattle.std.specs.Prelude.{◌≡◌, ℕ, List, [], map, IfOk};
ghost use Rattle.inputs.specs.Lines.{LinesRead};
ghost use Rattle.output.specs.Usable.{usable};
ghost use Rattle.batch_names.specs.Tally.{outcome, Sums};

use crate::forms::shown_forms;
use crate::summary::{Summary, Written};
use chars::table::CharTable;
use chars::text::Text;
use inputs::lines::Lines;
use std::fmt;
use std::io::Write;
use words::class::{Class, is_text_of};
use words::name::identifier_form;
use words::refusal::Refusal;

// Handle, table and memory one by one: two functions take them, and a struct would be built once and taken apart again.
/// Prints the forms of each line of the input, and answers the summary of all that was read.
pub fn print_all<T: CharTable>(
    rt: &HostRuntime,
    table: &T,
    memory: &mut [u8],
    input: &[u8],
) -> anyhow::Result<Summary>
    ensures { IfOk result (λ s. (lines : List (List ℕ)) × LinesRead input.now lines [] × Sums (map (outcome (T.starts table.now) (T.continues table.now) (T.shown table.now) (usable memory.old)) lines) s) }
{
    let mut summary = Summary::new();
    for (i, line) in Lines::new(input).enumerate() {
        summary.add(print_row(rt, table, memory, i + 1, line)?);
    }
    Ok(summary)
}

// Prints the forms of one name, or why it is refused, under the number of its line.
fn print_row<T: CharTable>(
    rt: &HostRuntime,
    table: &T,
    memory: &mut [u8],
    number: usize,
    name: &[u8],
) -> anyhow::Result<Result<Written, Refusal>>
    ensures { IfOk result (λ o. o ≡ outcome (T.starts table.now) (T.continues table.now) (T.shown table.now) (usable memory.old) name.now) }
{
    println!(rt; "line {number}")?;
    match shown_forms(memory, table, name) {
        Ok(forms) => {
            rt.stdout().write_all(forms)?;
            let form = identifier_form(table, name);
            if let Err(refusal) = form {
                let reason = Reason { refusal, name };
                println!(rt; "{reason}")?;
            }
            Ok(Ok(Written {
                bytes: forms.len(),
                escaped: !is_text_of(table, Class::Plain, name),
                form: form.ok(),
            }))
        }
        Err(refusal) => {
            let reason = Reason { refusal, name };
            println!(rt; "{reason}")?;
            Ok(Err(refusal))
        }
    }
}

// A refusal as it is printed: its number and its reason, and of bytes that are not UTF-8 also where they begin.
#[derive(Drop)]
struct Reason<'a> {
    refusal: Refusal,
    name: &'a [u8],
}

impl fmt::Display for Reason<'_> {
    fn fmt<W: fmt::Write>(&self, f: &mut fmt::Formatter<W>) -> fmt::Result {
        let number = self.refusal.number();
        write!(f, "refused {number}: ")?;
        match self.refusal {
            Refusal::InvalidIdentifier => {
                write!(f, "no name: empty, or with a character that no name has")
            }
            Refusal::NotUtf8 => {
                // Asked for again: with the place in the variant the refusals' numbers would be no discriminants.
                let place = Text::new(self.name)
                    .err()
                    .map_or(0, |e| e.at)
                    .saturating_add(1);
                write!(f, "the line is not UTF-8 from its byte {place} on")
            }
            Refusal::NotScalar => write!(f, "not a character"),
            Refusal::NotFloat => write!(f, "not a float"),
            Refusal::TooLong => write!(f, "the line is over 65535 bytes"),
            Refusal::NoSpace => write!(f, "its forms exceed the space"),
        }
    }
}
