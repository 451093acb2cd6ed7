//! The answers of a root, read off bits: the maps by which some of its candidate rows give the output.
#![tactic(auto)]

mod finder;
mod hits;
mod laws;
mod looked;
mod paired;
mod refill;
mod root;
mod target;

pub use finder::Root;
pub use hits::{Hits, search_root};
pub use laws::{
    answers_are_by_roots, bits_give_what_rows_give, fillings_are_of_grammar,
    readings_have_their_targets, too_few_give_nothing,
};
