//! The skeletons of a task as a graph of shared parts: one node a skeleton, its children by number, and the uses of each node as a chain.
#![tactic(auto)]

mod above;
mod below;
mod fault;
mod graph;
mod keys;
mod levels;
mod links;
mod list;
mod meeting;
mod node;
mod part;
mod room;
mod tree;
mod uses;

pub use below::above_has_below;
pub use fault::GraphFault;
pub use graph::{Graph, build};
pub use node::{Kind, SkelNode};
pub use uses::Uses;
