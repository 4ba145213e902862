//! The kinds of frame.

/// The kind of an open frame.
#[derive(Clone, Copy, PartialEq, Eq, Debug)]
pub enum Kind {
    /// An option that holds a value.
    Some,
    /// A struct around one value.
    NewtypeStruct,
    /// A variant around one value.
    NewtypeVariant,
    /// A sequence, of a known or unknown length.
    Seq,
    /// A tuple.
    Tuple,
    /// A struct whose fields have no names.
    TupleStruct,
    /// A variant whose fields have no names.
    TupleVariant,
}
