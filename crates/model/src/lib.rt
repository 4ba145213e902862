//! The writer as definitions: `specs/` says what a document is, what each call does to it, and what its text reads as.
//! The code has the two enums that these definitions name, and functions that do nothing and whose contracts are what holds of every run.
#![tactic(auto)]

ghost use Rattle.model.specs.Promises.{EveryRunReadsAsItsCalls};

pub mod examples;
pub mod kind;
pub mod laws;
pub mod refusal;

/// Finishing is accepted exactly when the accepted calls are one whole value. A text that can be finished then reads as the tree of those calls,
/// and as no other; so what it reads as depends on them alone, and on which extensions, names and suffixes are on.
pub fn every_run_reads_as_its_calls()
    ensures { EveryRunReadsAsItsCalls }
{}
