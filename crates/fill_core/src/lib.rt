//! Skeletons filled from the inside out: the standard fillings of a skeleton from those of its parts.
#![tactic(auto)]

mod between;
mod bits;
mod choice;
mod end;
mod fill_over;
mod fillings;
mod inner;
mod job;
mod keeper;
mod offer;
mod over;
mod parts;
mod parts_seen;
mod plan;
mod planned;
mod receiver;
mod row;
mod same;
mod sifter;
mod site;
mod steps;

pub use choice::Choice;
pub use end::FillEnd;
pub use fill_over::{Below, Filler, fill_all, site_of};
pub use fillings::{Entry, Fillings};
pub use job::Job;
pub use offer::Offer;
pub use parts::{Parts, fill, parts_of};
pub use parts_seen::{GroupSeen, PairSeen};
pub use plan::Plan;
pub use planned::{RowsBelow, fill_node};
pub use receiver::Receiver;
pub use row::Row;
pub use site::Site;
pub use steps::Steps;
