//! Fields of bytes.
ghost use Rattle.std.specs.Prelude.{◌≡◌, [], ◌∷◌, ◌++◌, IfSome, IfNone};
ghost use Rattle.inputs.specs.Fields.{before, behind, led, past};

/// The bytes before the first separator, and those behind it.
pub fn split_once(bytes: &[u8], sep: u8) -> Option<(&[u8], &[u8])>
    ensures some { IfSome result (λ p. (p.0.now ≡ before sep bytes.now) × (p.1.now ≡ behind sep bytes.now) × (bytes.now ≡ p.0.now ++ sep ∷ p.1.now)) }
    ensures none { IfNone result ((bytes.now ≡ before sep bytes.now) × ([] ≡ behind sep bytes.now)) }
{
    let place = bytes.iter().position(|b| *b == sep)?;
    Some((&bytes[..place], &bytes[place + 1..]))
}

/// The bytes before the first separator, and those behind it. Without a separator that is all, and nothing.
pub fn split_field(bytes: &[u8], sep: u8) -> (&[u8], &[u8])
    ensures field { result.0.now ≡ before sep bytes.now }
    ensures rest { result.1.now ≡ behind sep bytes.now }
{
    split_once(bytes, sep).unwrap_or((bytes, &[]))
}

/// Takes this byte off the front, if the bytes begin with it, and tells whether they did.
pub fn take_byte(bytes: &mut &[u8], byte: u8) -> bool
    ensures led { result ≡ led byte bytes.old.now }
    ensures rest { bytes.new.now ≡ past byte bytes.old.now }
{
    match *bytes {
        [first, rest @ ..] if *first == byte => {
            *bytes = rest;
            true
        }
        _ => false,
    }
}
