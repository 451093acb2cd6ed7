ghost use Rattle.std.specs.Prelude.{◌≡◌, ◌≤◌, ◌<◌, ◌++◌, nat_le, length, map, flat_map, slice_get, Some, None, IfOk, OnOk};
ghost use Rattle.std.specs.List.{enumerate_from};
ghost use Rattle.query_core.specs.Grammar.{skeletons};
ghost use Rattle.query_core.specs.Answers.{answers};
ghost use Rattle.query_core.specs.View.{tree};
ghost use Rattle.rank_core.specs.View.{ranked_query, ranked_queries};
ghost use Rattle.root_search.specs.Answers.{root_answers};
ghost use Rattle.skeleton_graph.specs.Nodes.{trees_of};

use fill_core::{FillEnd, Steps, parts_of};
use rank_core::{Ranked, sort};
use root_search::Root;
use skeleton_graph::{Graph, GraphFault, build};
use std::alloc::Global;
use std::marker::Brand;
use std::sync::ledger::{Blank, Ledger};
use table_core::Task;
use value_core::OutOfMemory;

/// Whether a task has at most 100,000 skeletons. It looks no further than these.
pub fn few(alloc: Global, task: &Task) -> Result<bool, OutOfMemory>
    ensures { IfOk result (λ b. b ≡ nat_le (length (skeletons task.now)) 100000) }
{
    match build(alloc, task) {
        Ok(_) => Ok(true),
        Err(GraphFault::TooMany { .. }) => Ok(false),
        Err(GraphFault::OutOfMemory) => Err(OutOfMemory),
    }
}

// Appends the answers of a root without a bound.
fn push_all<L: Ledger>(
    alloc: Global,
    root: &Root<'_>,
    steps: &mut Steps<L>,
    out: &mut Vec<Ranked>,
) -> Result<(), OutOfMemory>
    requires skeleton { slice_get (skeletons root.now.task.now) root.now.number ≡ Some (tree root.now.skeleton.now) }
    requires bound { root.now.bound ≡ None }
    ensures { OnOk result (ranked_queries out.new ≡ ranked_queries out.old ++ root_answers root.now.task.now (root.now.number, tree root.now.skeleton.now)) }
{
    let parts = parts_of(alloc, root.task, root.skeleton)?;
    match root.push_answers(alloc, &parts.below(), steps, out) {
        Ok(()) => Ok(()),
        Err(FillEnd::OutOfMemory) => Err(OutOfMemory),
        Err(FillEnd::Heavy) => unreachable!(),
    }
}

// The answers of the skeletons of a graph, in the grammar's order. Nothing is kept from one skeleton to the next but its answers,
// and nobody looks at the count of the steps.
fn found<L: Ledger>(
    alloc: Global,
    task: &Task,
    graph: &Graph,
    blank: Blank,
) -> Result<Vec<Ranked>, OutOfMemory>
    requires trees { trees_of graph.now.nodes ≡ skeletons task.now }
    requires name { blank.name ≡ L.name }
    requires parts { blank.parts ≡ L.parts }
    requires some { 0 < blank.parts }
    ensures { IfOk result (λ list. ranked_queries list ≡ flat_map (root_answers task.now) (enumerate_from 0 (trees_of graph.now.nodes))) }
{
    let mut steps = Steps::<L>::open(blank);
    let mut out = Vec::new(alloc);
    for number in 0..graph.len() {
        let skeleton = graph.tree(alloc, number)?;
        let root = Root {
            task,
            number,
            skeleton: &skeleton,
            bound: None,
        };
        push_all(alloc, &root, &mut steps, &mut out)?;
    }
    Ok(out)
}

/// The answers of a task, best first, over the graph of its skeletons.
pub fn plain_over(alloc: Global, task: &Task, graph: &Graph) -> Result<Vec<Ranked>, OutOfMemory>
    requires { trees_of graph.now.nodes ≡ skeletons task.now }
    ensures { IfOk result (λ list. map ranked_query list.items ≡ answers task.now) }
{
    let mut list = found::<Brand>(alloc, task, graph, Blank::new(1))?;
    sort(&mut list)?;
    Ok(list)
}

/// The answers of a task, best first.
pub fn plain(alloc: Global, task: &Task) -> Result<Vec<Ranked>, OutOfMemory>
    requires { length (skeletons task.now) ≤ 100000 }
    ensures { IfOk result (λ list. map ranked_query list.items ≡ answers task.now) }
{
    match build(alloc, task) {
        Ok(graph) => plain_over(alloc, task, &graph),
        Err(GraphFault::TooMany { .. }) => unreachable!(),
        Err(GraphFault::OutOfMemory) => Err(OutOfMemory),
    }
}
