//! The line that answers a document.
ghost use Rattle.std.specs.Prelude.{◌≡◌, not, ◌&&◌, length, IfOk, nat_lt};
ghost use Rattle.inputs.specs.Fields.{led};
ghost use Rattle.std.specs.List.{flat_map};
ghost use Rattle.literals.specs.Bytes.{digit_pair};

use crate::script::{Document, document_of};
use crate::value::shown_value;
use chars::table::CharTable;
use inputs::lines::Lines;
use literals::bytes::hex_pair;
use std::alloc::{AllocError, Global};
use std::io::Write;

// Handle, table and memory one by one: two functions take them, and a struct would be built once and taken apart again.
/// Answers each line of a script, but empty ones and those that begin with `#`.
pub(crate) fn print_answers<T: CharTable>(
    rt: &HostRuntime,
    table: &T,
    memory: &mut [u8],
    script: &[u8],
) -> anyhow::Result<()> {
    for line in Lines::new(script).filter(|line| is_document(line)) {
        match document_of(rt.alloc(), line) {
            Ok(document) => print_answer(rt, table, memory, &document)?,
            Err(why) => println!(rt; "skip {why}")?,
        }
    }
    Ok(())
}

// Empty lines and lines that begin with `#` are no documents.
fn is_document(line: &[u8]) -> bool
    ensures { result ≡ (nat_lt 0 (length line.now) && not (led 0x23 line.now)) }
{
    !matches!(line, [] | [b'#', ..])
}

fn print_answer<T: CharTable>(
    rt: &HostRuntime,
    table: &T,
    memory: &mut [u8],
    document: &Document,
) -> anyhow::Result<()> {
    let space = document.space.unwrap_or(memory.len()).min(memory.len());
    match shown_value(
        &mut memory[..space],
        table,
        document.settings,
        &document.value,
    ) {
        Ok(text) => {
            let len = text.len();
            print!(rt; "ok ")?;
            rt.stdout().write_all(in_hex(rt.alloc(), text)?.as_slice())?;
            println!(rt; " 0,{len} -")?;
        }
        Err(refusal) => {
            let number = refusal.number();
            println!(rt; "err {number} 0 - 0")?;
        }
    }
    Ok(())
}

// The bytes in hexadecimal.
fn in_hex(heap: Global, bytes: &[u8]) -> Result<Vec<u8>, AllocError>
    ensures { IfOk result (λ v. v.items ≡ flat_map digit_pair bytes.now) }
{
    let mut digits = Vec::new(heap);
    for b in bytes {
        digits.extend_from_slice(&hex_pair(*b))?;
    }
    Ok(digits)
}
