//! Joins profiles of disjoint parts of a program's lines into the profile of all those lines.
#![tactic(auto)]

mod fault;
mod joining;
mod likeness;
mod order;
mod tagged;

pub use fault::{JoinError, PartFault, PartKind};
pub use joining::join;
