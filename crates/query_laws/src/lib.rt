//! Laws of the definitions of queries: of skeletons, of membership, of keys, of the rows of groups, of the standard form, and of standard fillings.
#![tactic(auto)]

mod filled_laws;
mod key_laws;
mod member_laws;
mod row_laws;
mod skeleton_laws;
mod standard_laws;

pub use filled_laws::fillings_are_by_parts;
pub use key_laws::{
    answers_ascend, ascending_keeps_elements, key_order_is_total, keys_are_apart, queries_are_once,
};
pub use member_laws::{atoms_are_in_order, faults_decide_membership};
pub use row_laws::{
    firsts_are_first_copies, groups_are_by_key, groups_are_by_members, groups_have_members,
    groups_of_a_part, members_of_the_kept,
};
pub use skeleton_laws::{
    levels_are_by_operators, no_aggregate_is_listed, skeletons_are_listed, skeletons_are_once,
};
pub use standard_laws::{answers_are_standard_forms, queries_have_standard_forms};
