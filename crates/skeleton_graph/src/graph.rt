ghost use Rattle.std.specs.Prelude.{◌≡◌, ℕ, ◌≤◌, ◌<◌, ◌^◌, length, map, Err, IfOk};
ghost use Rattle.query_core.specs.Meaning.{columns};
ghost use Rattle.query_core.specs.Grammar.{skeletons};
ghost use Rattle.skeleton_graph.specs.Nodes.{trees_of};
ghost use Rattle.skeleton_graph.specs.declared.fault.ListFault.TheVariants as list;
ghost use Rattle.skeleton_graph.specs.declared.fault.GraphFault.TheVariants as graph;

use crate::above::above;
use crate::fault::{GraphFault, ListFault, graph_fault};
use crate::levels::levels_up_to;
use crate::links::link_all;
use crate::node::SkelNode;
use crate::tree::node_at;
use crate::uses::Uses;
use query_core::Node;
use sqlite_items::Items;
use std::alloc::Global;
use std::marker::Model;
use table_core::Task;
use value_core::{ColType, OutOfMemory};

/// The skeletons of a task, each a node; a child's number is below its user's.
#[derive(Debug, Drop)]
pub struct Graph {
    nodes: Vec<SkelNode>,
    types: Items<Items<ColType>>,
}

impl Model for Graph {
    ghost use Rattle.skeleton_graph.specs.GraphData.{GraphData, IsGraph};

    ghost Value = { GraphData };

    ghost view = { λ g. record { nodes = g.nodes.items; types = g.types } };

    ghost invariant = { λ g. IsGraph g.nodes.items g.types };
}

impl Graph {
    ghost use Rattle.std.specs.Prelude.{[], true, Some, is_some, slice_get, ◌↔◌, IsTrue};
    ghost use Rattle.query_core.specs.View.{tree};
    ghost use Rattle.skeleton_graph.specs.Nodes.{left_of, right_of, first_use_of, uses_of, user_and_side, above_of};
    ghost use Rattle.skeleton_graph.specs.GraphData.{IsGraph};

    /// The law of every graph: children have lower numbers than their users, the chains have the uses, and each node has the children of its kind.
    pub fn is_ordered(&self)
        ensures { IsGraph self.now.nodes self.now.types }
    {
        let _ = &self.nodes;
    }

    /// The law of every graph: a node that is the child of another is used.
    #[tactic(auto, using(crate::proofs::UseLaws::left_used, crate::proofs::UseLaws::right_used))]
    pub fn children_are_used(&self)
        ensures lefts { (k child : ℕ) → left_of self.now.nodes k ≡ Some child → is_some (first_use_of self.now.nodes child) ≡ true }
        ensures rights { (k child : ℕ) → right_of self.now.nodes k ≡ Some child → is_some (first_use_of self.now.nodes child) ≡ true }
    {
        self.is_ordered();
    }

    /// How many nodes there are.
    pub fn len(&self) -> u32
        ensures { result ≡ length self.now.nodes }
    {
        self.nodes.len() as u32
    }

    /// Whether there is no node.
    pub fn is_empty(&self) -> bool
        ensures { IsTrue result ↔ (self.now.nodes ≡ []) }
    {
        self.nodes.is_empty()
    }

    /// The node of a number.
    pub fn node(&self, k: u32) -> &SkelNode
        requires { k < length self.now.nodes }
        ensures { slice_get self.now.nodes k ≡ Some result.now }
    {
        &self.nodes[k as usize]
    }

    /// The types of the columns of a node's tree.
    pub fn types(&self, k: u32) -> &[ColType]
        requires { k < length self.now.nodes }
        ensures { slice_get self.now.types k ≡ Some result.now }
    {
        self.types.as_slice()[k as usize].as_slice()
    }

    /// The uses of a node, newest first.
    pub fn uses(&self, k: u32) -> Uses<'_>
        requires { k < length self.now.nodes }
        ensures { result ≡ map user_and_side (uses_of self.now.nodes k) }
    {
        Uses::from(self.nodes.as_slice(), self.nodes[k as usize].first_use)
    }

    /// The tree of a node, its predicates open.
    pub fn tree(&self, alloc: Global, k: u32) -> Result<Node, OutOfMemory>
        requires { k < length self.now.nodes }
        ensures { IfOk result (λ n. slice_get (trees_of self.now.nodes) k ≡ Some (tree n)) }
    {
        node_at(alloc, self.nodes.as_slice(), k)
    }

    /// The numbers of the nodes that have this one below them, ascending.
    pub fn above(&self, alloc: Global, k: u32) -> Result<Vec<u32>, OutOfMemory>
        requires { k < length self.now.nodes }
        ensures { IfOk result (λ out. out.items ≡ above_of self.now.nodes k) }
    {
        above(alloc, self.nodes.as_slice(), k)
    }
}

// The graph of a task, where its skeletons are listed.
fn listed_graph(alloc: Global, task: &Task) -> Result<Graph, ListFault>
    ensures trees { IfOk result (λ g. trees_of g.nodes ≡ skeletons task.now) }
    ensures types { IfOk result (λ g. g.types ≡ map (columns task.now.inputs) (skeletons task.now)) }
    ensures few { IfOk result (λ g. length g.nodes ≤ 100000) }
    ensures many { result ≡ Err list.TooMany → 100000 < length (skeletons task.now) }
{
    let parts = task.parts();
    let listed = levels_up_to(alloc, parts, parts.ops)?;
    let linked = link_all(alloc, listed.levels.as_slice())?;
    Ok(Graph {
        nodes: linked.nodes,
        types: linked.types,
    })
}

/// The graph of the skeletons of a task, where there are at most 100,000.
pub fn build(alloc: Global, task: &Task) -> Result<Graph, GraphFault>
    ensures trees { IfOk result (λ g. trees_of g.nodes ≡ skeletons task.now) }
    ensures types { IfOk result (λ g. g.types ≡ map (columns task.now.inputs) (skeletons task.now)) }
    ensures few { IfOk result (λ g. length g.nodes ≤ 100000) }
    ensures many { (limit : ℕ) → result ≡ Err (graph.TooMany limit) → (limit ≡ 100000) × (100000 < length (skeletons task.now)) }
{
    match listed_graph(alloc, task) {
        Ok(graph) => Ok(graph),
        Err(fault) => Err(graph_fault(fault)),
    }
}
