ghost use Rattle.std.specs.Prelude.{◌≡◌, ◌≤◌, ◌<◌, ◌+◌, ℕ, true, Some, Err, length, option_copied, IfOk, OnOk};
ghost use Rattle.skeleton_graph.specs.Nodes.{tree_at, trees_of};
ghost use Rattle.fill_core.specs.Bounds.{combos_of};
ghost use Rattle.fill_core.specs.Fits.{fits, FitsChild, FitBelow};
ghost use Rattle.fill_core.specs.Plans.{PlanData};
ghost use Rattle.fill_core.specs.View.{AreFillingsOf, IsPartOf, ArePartsOf, weight, weight_of};
ghost use Rattle.fill_core.specs.declared.end.FillEnd.TheVariants as ends;

use crate::end::FillEnd;
use crate::fill_over::{Below, Filler};
use crate::fillings::Fillings;
use crate::plan::Plan;
use crate::row::Row;
use crate::steps::Steps;
use std::alloc::Global;
use std::sync::ledger::Ledger;

/// The rows of a node's children.
#[derive(Clone, Copy)]
pub struct RowsBelow<'a> {
    pub left: Option<&'a Row>,
    pub right: Option<&'a Row>,
}

// The fillings of a row, where there is one.
fn fillings_of<'a>(row: Option<&'a Row>) -> Option<&'a Fillings>
    ensures { (plan : PlanData) (child : ℕ) → FitsChild plan (Some child) (option_copied row.entry) → IsPartOf plan.task (tree_at (trees_of plan.graph.nodes) child) (option_copied result) }
{
    match row {
        Some(row) => {
            row.is_filled();
            Some(row.fillings())
        }
        None => None,
    }
}

impl<'a> RowsBelow<'a> {
    /// The fillings of the rows, which are those of the parts of a node that they fit below.
    pub fn fillings(&self, plan: &Plan<'_>, node: u32) -> Below<'a>
        requires node { node < length plan.now.graph.nodes }
        requires below { FitBelow plan.now node (option_copied self.now.left) (option_copied self.now.right) }
        ensures { ArePartsOf plan.now.task (tree_at (trees_of plan.now.graph.nodes) node) (option_copied result.left) (option_copied result.right) }
    {
        let graph = plan.graph();
        graph.is_ordered();
        let _ = graph.node(node);
        Below {
            left: fillings_of(self.left),
            right: fillings_of(self.right),
        }
    }
}

/// The row of a node of a plan, over the rows of its children.
///
/// `Heavy` comes only where its fillings weigh more than the task's budget. Each combination of the entries of the rows below is a step.
pub fn fill_node<L: Ledger>(
    alloc: Global,
    plan: &Plan<'_>,
    node: u32,
    below: &RowsBelow<'_>,
    steps: &mut Steps<L>,
) -> Result<Row, FillEnd>
    requires node { node < length plan.now.graph.nodes }
    requires below { FitBelow plan.now node (option_copied below.now.left) (option_copied below.now.right) }
    ensures filled { IfOk result (λ row. AreFillingsOf plan.now.task (tree_at (trees_of plan.now.graph.nodes) node) row.fillings) }
    ensures fits { IfOk result (λ row. fits row plan.now node ≡ true) }
    ensures within { IfOk result (λ row. weight row.fillings ≤ plan.now.task.budget) }
    ensures heavy { result ≡ Err ends.Heavy → plan.now.task.budget < weight_of plan.now.task (tree_at (trees_of plan.now.graph.nodes) node) }
    ensures ticks { OnOk result (steps.new ≡ steps.old + combos_of plan.now.task (tree_at (trees_of plan.now.graph.nodes) node)) }
    ensures few { steps.new ≤ steps.old + combos_of plan.now.task (tree_at (trees_of plan.now.graph.nodes) node) }
{
    let task = plan.task();
    let parts = below.fillings(plan, node);
    let skeleton = plan.graph().tree(alloc, node)?;
    let source = plan.source()?;
    let filler = Filler {
        task,
        bound: Some(task.parts().budget),
    };
    let fillings = filler.fill_over(alloc, &skeleton, &parts, steps)?;
    Ok(Row::new(node, skeleton, source, fillings))
}
