//! Queries: trees of operators over the inputs, with their columns, meaning, grammar, standard form and rank as definitions.
#![tactic(auto)]

mod agg;
mod agree;
mod atom_order;
mod column_check;
mod fault;
mod kinds;
mod membership;
mod names;
mod node;
mod query;
mod rules;
mod sizes;
mod types;

pub use agg::Agg;
pub use agree::{same_type, same_types, types_agree};
pub use column_check::columns;
pub use fault::QueryFault;
pub use kinds::{Pairing, Uniting};
pub use membership::belongs;
pub use names::{names_columns, names_inputs};
pub use node::Node;
pub use query::Query;
pub use types::{
    agg_type, group_types, input_types, node_types, picked_types, table_types, type_at,
};
