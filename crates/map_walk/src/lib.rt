//! The walk over maps: which body column is selected for which column of an output, so that each of its rows has enough candidates.
#![tactic(auto)]

mod candidate;
mod offer;
mod open;
mod opening;
mod places;
mod reading;
mod supply;
mod target;
mod walk;
mod whole;

pub use candidate::Candidate;
pub use open::is_open;
pub use opening::{
    Standing, SupplyPair, group_opens, opens, pair_opens, standing_group_opens, standing_pair_opens,
};
pub use reading::{has_reading, readings};
pub use supply::{Supply, supplies};
pub use target::{Reading, Target};
