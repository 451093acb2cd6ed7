ghost use Rattle.std.specs.Prelude.{◌≡◌, ◌≤◌, ◌<◌, ◌+◌, Err, length, map, option_copied, IfOk, OnOk};
ghost use Rattle.query_core.specs.Answers.{ascending, comes_before};
ghost use Rattle.rank_core.specs.View.{ranked_query};
ghost use Rattle.skeleton_graph.specs.Nodes.{tree_at, trees_of};
ghost use Rattle.fill_core.specs.Bounds.{combos_of};
ghost use Rattle.fill_core.specs.Fits.{FitBelow};
ghost use Rattle.fill_core.specs.declared.end.FillEnd.TheVariants as ends;
ghost use Rattle.root_search.specs.Answers.{root_answers};

use crate::finder::Root;
use fill_core::{FillEnd, Plan, RowsBelow, Steps};
use rank_core::{Ranked, sort};
use std::alloc::Global;
use std::marker::Model;
use std::sync::ledger::Ledger;

/// The answers of a root, best first.
#[derive(Drop)]
pub struct Hits {
    list: Vec<Ranked>,
}

impl Model for Hits {
    ghost use Rattle.std.specs.Coded.{codes};
    ghost use Rattle.std.specs.Prelude.{List};
    ghost use Rattle.rank_core.specs.contracts.ranked.Ranked as r;
    ghost use Rattle.rank_core.specs.declared.ranked.Ranked.{Ranked};

    ghost Value = { List Ranked };

    ghost coded = { Prim.hlevel (codes, r.the_row.coded) };

    ghost view = { λ h. h.list.items };
}

impl Hits {
    /// The answers.
    pub fn list(&self) -> &[Ranked]
        ensures { result.now ≡ self.now }
    {
        self.list.as_slice()
    }

    /// The answers.
    pub fn into_list(self) -> Vec<Ranked>
        ensures { result.items ≡ self }
    {
        self.list
    }
}

/// The answers of a root of a plan, best first, over the rows of its children.
///
/// `Heavy` comes only where there are more of them than the task's budget. Each combination of the entries of the rows below is a step.
pub fn search_root<L: Ledger>(
    alloc: Global,
    plan: &Plan<'_>,
    root: u32,
    below: &RowsBelow<'_>,
    steps: &mut Steps<L>,
) -> Result<Hits, FillEnd>
    requires node { root < length plan.now.graph.nodes }
    requires below { FitBelow plan.now root (option_copied below.now.left) (option_copied below.now.right) }
    ensures found { IfOk result (λ hits. map ranked_query hits ≡ ascending comes_before (root_answers plan.now.task (root, tree_at (trees_of plan.now.graph.nodes) root))) }
    ensures within { IfOk result (λ hits. length hits ≤ plan.now.task.budget) }
    ensures heavy { result ≡ Err ends.Heavy → plan.now.task.budget < length (root_answers plan.now.task (root, tree_at (trees_of plan.now.graph.nodes) root)) }
    ensures ticks { OnOk result (steps.new ≡ steps.old + combos_of plan.now.task (tree_at (trees_of plan.now.graph.nodes) root)) }
    ensures few { steps.new ≤ steps.old + combos_of plan.now.task (tree_at (trees_of plan.now.graph.nodes) root) }
{
    plan.is_planned();
    let task = plan.task();
    let parts = below.fillings(plan, root);
    let skeleton = plan.graph().tree(alloc, root)?;
    let finder = Root {
        task,
        number: root,
        skeleton: &skeleton,
        bound: Some(task.parts().budget),
    };
    let mut list = Vec::new(alloc);
    finder.push_answers(alloc, &parts, steps, &mut list)?;
    sort(&mut list)?;
    Ok(Hits { list })
}
