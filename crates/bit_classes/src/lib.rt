//! Classes of predicates: each vector of kept rows once, with the number of the first predicate that gives it.
#![tactic(auto)]

mod class;
mod found;
mod join;
mod laws;
mod listing;
mod sieve;
mod sift;
mod walk;

pub use class::{Class, ClassEnd};
pub use join::Join;
pub use laws::vectors_are_of_preds;
pub use listing::{classes, wanted_classes};
pub use sieve::{Every, Sieve};
