use crate::fillings::{Entry, Fillings};
use crate::plan::Plan;
use crate::same::{same_skeleton, same_source};
use query_core::Node;
use std::marker::Model;
use std::sync::Arc;
use table_core::TaskParts;

/// The standard fillings of a node of a plan that have rows, with what they were made of.
#[derive(Drop)]
pub struct Row {
    node: u32,
    skeleton: Node,
    source: Arc<TaskParts>,
    fillings: Fillings,
}

impl Model for Row {
    ghost use Rattle.std.specs.Prelude.{◌≤◌};
    ghost use Rattle.std.specs.Arc.{arc_value};
    ghost use Rattle.std.specs.Coded.{codes};
    ghost use Rattle.query_core.specs.View.{tree};
    ghost use Rattle.query_core.specs.contracts.node.Node as n;
    ghost use Rattle.table_core.specs.declared.limits.TheConstants.{LARGEST_BUDGET};
    ghost use Rattle.fill_core.specs.Fits.{RowData};
    ghost use Rattle.fill_core.specs.View.{AreFillingsOf, weight};

    ghost Value = { RowData };

    ghost coded = { Prim.hlevel (codes, n.the_row.coded) };

    ghost view = { λ r. record { node = r.node; skeleton = r.skeleton; source = arc_value r.source; fillings = r.fillings } };

    ghost invariant = { λ r. AreFillingsOf (arc_value r.source) (tree r.skeleton) r.fillings × (weight r.fillings ≤ LARGEST_BUDGET) };
}

impl Row {
    ghost use Rattle.std.specs.Prelude.{◌≡◌, ◌≤◌, ℕ, true};
    ghost use Rattle.std.specs.Arc.{arc_value};
    ghost use Rattle.query_core.specs.View.{tree};
    ghost use Rattle.skeleton_graph.specs.Nodes.{tree_at, trees_of};
    ghost use Rattle.table_core.specs.declared.limits.TheConstants.{LARGEST_BUDGET};
    ghost use Rattle.fill_core.specs.Fits.{fits};
    ghost use Rattle.fill_core.specs.Plans.{PlanData};
    ghost use Rattle.fill_core.specs.View.{AreFillingsOf, weight};

    /// The row of a node with these fillings, which are those of its skeleton and of these parts of a task.
    pub(crate) fn new(node: u32, skeleton: Node, source: Arc<TaskParts>, fillings: Fillings) -> Row
        requires filled { AreFillingsOf (arc_value source) (tree skeleton) fillings }
        requires light { weight fillings ≤ LARGEST_BUDGET }
        ensures { result ≡ record { node = node; skeleton = skeleton; source = arc_value source; fillings = fillings } }
    {
        Row {
            node,
            skeleton,
            source,
            fillings,
        }
    }

    /// The law of every row: its fillings are those of what it was made of, and those of each node of a plan that it fits.
    #[tactic(auto, using(crate::proofs::FitLaws::row_fits))]
    pub fn is_filled(&self)
        ensures made { AreFillingsOf self.now.source (tree self.now.skeleton) self.now.fillings }
        ensures fits { (plan : PlanData) (node : ℕ) → fits self.now plan node ≡ true → AreFillingsOf plan.task (tree_at (trees_of plan.graph.nodes) node) self.now.fillings }
    {
        let _ = &self.fillings;
    }

    /// The number of its node.
    pub fn node(&self) -> u32
        ensures { result ≡ self.now.node }
    {
        self.node
    }

    /// Its fillings, each as an entry.
    pub fn entries(&self) -> &[Entry]
        ensures { result.now ≡ self.now.fillings.entries }
    {
        self.fillings.entries.as_slice()
    }

    /// Its fillings, with the types of their columns.
    pub fn fillings(&self) -> &Fillings
        ensures { result.now ≡ self.now.fillings }
    {
        &self.fillings
    }

    /// What its fillings weigh.
    pub fn weight(&self) -> u64
        ensures { result ≡ weight self.now.fillings }
    {
        self.fillings.weight()
    }

    /// Whether it is the row of this node of a plan: whether its skeleton is the node's, and what it was made of is what the plan has. This takes no memory.
    pub fn fits(&self, plan: &Plan<'_>, node: u32) -> bool
        ensures { result ≡ fits self.now plan.now node }
    {
        if self.node != node || node >= plan.graph().len() {
            return false;
        }
        same_skeleton(&self.skeleton, plan.graph(), node)
            && same_source(&*self.source, plan.task().parts(), &self.skeleton)
    }
}
