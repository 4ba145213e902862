//! The other literals of a RON text: numbers, byte strings and characters.
#![tactic(auto)]

pub mod bytes;
pub mod character;
pub mod float;
pub mod integer;
