ghost use Rattle.std.specs.Prelude.{◌≡◌, ℕ, ◌<◌, length};
ghost use Rattle.query_core.specs.Grammar.{skeletons};
ghost use Rattle.skeleton_graph.specs.Nodes.{tree_at, trees_of, above_of, is_among};
ghost use Rattle.skeleton_graph.specs.Below.{has_below};

use crate::graph::Graph;
use table_core::TaskParts;

/// The law of the graph of a task: the nodes above a node are those whose tree has its tree as a proper part.
#[tactic(auto, using(crate::proofs::BelowLaws::above_below))]
pub fn above_has_below(task: &TaskParts, graph: &Graph)
    requires { trees_of graph.now.nodes ≡ skeletons task.now }
    ensures { (k j : ℕ) → k < length graph.now.nodes → j < length graph.now.nodes → is_among (above_of graph.now.nodes k) j ≡ has_below (tree_at (trees_of graph.now.nodes) j) (tree_at (trees_of graph.now.nodes) k) }
{
    graph.is_ordered();
}
