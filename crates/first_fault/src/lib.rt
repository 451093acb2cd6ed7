//! Reading in a stated order: each step gives a value or a fault, and the first fault is that of the whole.
#![tactic(auto)]

mod stop;

pub use stop::Stop;
