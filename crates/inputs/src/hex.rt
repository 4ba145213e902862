//! Hexadecimal.
ghost use Rattle.std.specs.Prelude.{◌≡◌, ◌<◌, IfSome, IfOk, vec_items};
ghost use Rattle.std.specs.Option.{option_map};
ghost use Rattle.inputs.specs.Hex.{digit_value, byte_of, hex_number, bytes_of};

use std::alloc::{AllocError, Global};

// What a digit counts.
fn digit_value(b: u8) -> Option<u8>
    ensures value { result ≡ digit_value b }
    ensures bound { IfSome result (λ d. d < 16) }
{
    match b {
        b'0'..=b'9' => Some(b - b'0'),
        b'a'..=b'f' => Some(b - b'a' + 10),
        b'A'..=b'F' => Some(b - b'A' + 10),
        _ => None,
    }
}

// The byte of two digits.
fn byte_of(high: u8, low: u8) -> Option<u8>
    ensures { result ≡ byte_of high low }
{
    Some(digit_value(high)? * 16 + digit_value(low)?)
}

/// The number that hexadecimal digits spell, if it is below 2^32.
pub fn hex_number(digits: &[u8]) -> Option<u32>
    ensures { result ≡ hex_number digits.now }
{
    if digits.is_empty() {
        return None;
    }
    let mut n = 0u32;
    for b in digits {
        let digit = digit_value(*b)?;
        n = n.checked_mul(16)?.checked_add(u32::from(digit))?;
    }
    Some(n)
}

/// The bytes that pairs of hexadecimal digits spell, or none where there is anything else.
pub fn hex_bytes(heap: Global, digits: &[u8]) -> Result<Option<Vec<u8>>, AllocError>
    ensures { IfOk result (λ o. option_map vec_items o ≡ bytes_of digits.now) }
{
    let (pairs, rest) = digits.as_chunks::<2>();
    if !rest.is_empty() {
        return Ok(None);
    }
    let mut bytes = Vec::with_capacity(heap, pairs.len())?;
    for [high, low] in pairs {
        let Some(byte) = byte_of(*high, *low) else {
            return Ok(None);
        };
        bytes.push(byte)?;
    }
    Ok(Some(bytes))
}
