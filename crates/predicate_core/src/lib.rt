//! Atoms and predicates: their lists in order, and which rows they keep.
#![tactic(auto)]

mod atom;
mod equal;
mod laws;
mod listing;
mod numbers;
mod place_number;
mod places;
mod pred;
mod pred_list;
mod search;

pub use atom::Atom;
pub use equal::{atom_count, has_constant, op_number, same_pred};
pub use laws::{
    atoms_are_once, keeps_is_by_atoms, numbers_are_places, preds_are_once, same_pred_is_equality,
};
pub use listing::atoms;
pub use numbers::{pair_count, triple_count};
pub use place_number::{atom_number, pred_number};
pub use pred::{Pred, keeps, truth};
pub use pred_list::{PredList, preds};
