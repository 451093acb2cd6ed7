ghost use Rattle.std.specs.Prelude.{◌≡◌, ◌<◌, ◌≤◌, ◌∷◌, ◌++◌, [], length, map, true, is_some, option_copied, if◌then◌else◌, IfOk, OnOk};
ghost use Rattle.table_core.specs.Rows.{types_of};
ghost use Rattle.query_core.specs.Grammar.{maps, skeletons};
ghost use Rattle.query_core.specs.Meaning.{columns};
ghost use Rattle.query_core.specs.View.{tree};
ghost use Rattle.skeleton_graph.specs.Nodes.{tree_at, trees_of, first_use_of};
ghost use Rattle.over_eval.specs.Kept.{kept_child, AreKept};
ghost use Rattle.over_eval.specs.Laws.{live_numbers};
ghost use Rattle.over_eval.specs.Live.{serves_by, live};
ghost use Rattle.over_eval.specs.Over.{over};
ghost use Rattle.over_eval.specs.Parts.{ArePartsOf};
ghost use Rattle.over_eval.specs.Told.{kept_of};

use crate::below::rows_of;
use crate::kept::{KeptBelow, KeptPart, part_rows};
use crate::row::AbsRow;
use crate::serve::serves;
use crate::tree_over::over_node;
use query_core::{Node, node_types};
use rayon::prelude::*;
use skeleton_graph::{Graph, SkelNode};
use sqlite_items::Items;
use std::alloc::Global;
use std::thread::Threads;
use table_core::Task;
use value_core::{ColType, OutOfMemory};

// The fewest tests that are worth a thread of their own.
const LEAST_TESTS: usize = 16;

// What is kept of a child.
fn kept_child(kept: &[Option<KeptPart>], child: Option<u32>) -> Option<&KeptPart>
    ensures { option_copied result ≡ kept_child kept.now child }
{
    match child {
        Some(number) => match kept.get(number as usize) {
            Some(part) => part.as_ref(),
            None => None,
        },
        None => None,
    }
}

// What is kept of a node's children.
fn kept_below<'r>(kept: &'r [Option<KeptPart>], node: &SkelNode) -> KeptBelow<'r>
    ensures left { option_copied result.left ≡ kept_child kept.now node.now.left }
    ensures right { option_copied result.right ≡ kept_child kept.now node.now.right }
{
    KeptBelow {
        left: kept_child(kept, node.left),
        right: kept_child(kept, node.right),
    }
}

// The abstract rows of a skeleton over what is kept of its parts.
fn over_kept(
    alloc: Global,
    task: &Task,
    skeleton: &Node,
    below: &KeptBelow<'_>,
) -> Result<Option<Items<AbsRow>>, OutOfMemory>
    requires { ArePartsOf (kept_of task.now) (tree skeleton.now) (option_copied below.now.left) (option_copied below.now.right) }
    ensures { IfOk result (λ rows. rows ≡ over task.now (tree skeleton.now)) }
{
    over_node(alloc, task.parts(), skeleton, &below.rows())
}

// Whether abstract rows of columns of these types, if there are ever any, can serve the task's output.
fn can_serve(
    alloc: Global,
    task: &Task,
    types: &[ColType],
    rows: Option<&[AbsRow]>,
) -> Result<bool, OutOfMemory>
    ensures { IfOk result (λ b. b ≡ serves_by (maps types.now (types_of task.now.output)) task.now.output.rows (option_copied rows.entry)) }
{
    match rows {
        Some(rows) => serves(alloc, types, rows, task.output()),
        None => Ok(false),
    }
}

// What is kept of a node: of a part of another.
fn part_to_keep(
    alloc: Global,
    task: &Task,
    graph: &Graph,
    kept: &[Option<KeptPart>],
    number: u32,
) -> Result<Option<KeptPart>, OutOfMemory>
    requires number { number < length graph.now.nodes }
    requires below { number ≤ length kept.now }
    requires kept { AreKept task.now graph.now.nodes kept.now }
    ensures { IfOk result (λ part. is_some (first_use_of graph.now.nodes number) ≡ true → part ≡ kept_of task.now (tree_at (trees_of graph.now.nodes) number)) }
{
    graph.is_ordered();
    graph.children_are_used();
    let node = graph.node(number);
    if node.first_use.is_none() {
        return Ok(None);
    }
    let skeleton = graph.tree(alloc, number)?;
    let Some(rows) = over_kept(alloc, task, &skeleton, &kept_below(kept, node))? else {
        return Ok(None);
    };
    let width = node_types(alloc, task.inputs(), &skeleton)?.len();
    Ok(Some(KeptPart::of(alloc, width, rows, task.output())?))
}

// What is kept of all nodes.
fn kept_of_all(
    alloc: Global,
    task: &Task,
    graph: &Graph,
) -> Result<Vec<Option<KeptPart>>, OutOfMemory>
    ensures size { IfOk result (λ kept. length kept.items ≡ length graph.now.nodes) }
    ensures kept { IfOk result (λ kept. AreKept task.now graph.now.nodes kept.items) }
{
    let mut kept = Vec::new(alloc);
    for number in 0..graph.len() {
        kept.push(part_to_keep(alloc, task, graph, kept.as_slice(), number)?)?;
    }
    Ok(kept)
}

// Whether a skeleton with columns of these types is live. What is told of its parts is asked first, and a filter has the rows of its part.
fn is_live_over(
    alloc: Global,
    task: &Task,
    skeleton: &Node,
    types: &[ColType],
    below: &KeptBelow<'_>,
) -> Result<bool, OutOfMemory>
    requires types { types.now ≡ columns task.now.inputs (tree skeleton.now) }
    requires below { ArePartsOf (kept_of task.now) (tree skeleton.now) (option_copied below.now.left) (option_copied below.now.right) }
    ensures { IfOk result (λ b. b ≡ live task.now (tree skeleton.now)) }
{
    if !below.may_open(skeleton, types, task.output()) {
        return Ok(false);
    }
    if let Node::Filter(_, _) = skeleton {
        return can_serve(alloc, task, types, part_rows(below.left));
    }
    let rows = over_kept(alloc, task, skeleton, below)?;
    can_serve(alloc, task, types, rows_of(&rows))
}

// Whether the skeleton of a number is live. What is kept of it isn't made again.
fn is_live_at(
    alloc: Global,
    task: &Task,
    graph: &Graph,
    kept: &[Option<KeptPart>],
    number: u32,
) -> Result<bool, OutOfMemory>
    requires number { number < length graph.now.nodes }
    requires there { number < length kept.now }
    requires kept { AreKept task.now graph.now.nodes kept.now }
    ensures { IfOk result (λ b. b ≡ live task.now (tree_at (trees_of graph.now.nodes) number)) }
{
    graph.is_ordered();
    graph.children_are_used();
    let node = graph.node(number);
    let skeleton = graph.tree(alloc, number)?;
    let types = node_types(alloc, task.inputs(), &skeleton)?;
    let types = types.as_slice();
    if node.first_use.is_some() {
        let part = kept_child(kept, Some(number));
        return can_serve(alloc, task, types, part_rows(part));
    }
    is_live_over(alloc, task, &skeleton, types, &kept_below(kept, node))
}

// Of each skeleton whether it is live, tested in parallel.
fn are_live<R: Threads + Sync>(
    rt: &R,
    alloc: Global,
    task: &Task,
    graph: &Graph,
    kept: &[Option<KeptPart>],
) -> Result<Vec<bool>, OutOfMemory>
    requires size { length kept.now ≡ length graph.now.nodes }
    requires kept { AreKept task.now graph.now.nodes kept.now }
    ensures { IfOk result (λ lives. lives.items ≡ map (live task.now) (trees_of graph.now.nodes)) }
{
    (0..graph.len())
        .into_par_iter()
        .with_min_len(LEAST_TESTS)
        .map(
            |number: u32| -> Result<bool, OutOfMemory>
                requires { (number < length graph.now.nodes) × (number < length kept.now) × AreKept task.now graph.now.nodes kept.now }
                ensures { IfOk result (λ b. b ≡ live task.entry.now (tree_at (trees_of graph.entry.now.nodes) number)) }
            { is_live_at(alloc, task, graph, kept, number) },
        )
        .collect::<Result<Vec<bool>, OutOfMemory>>(rt, alloc)?
}

// Appends a number, where it is wanted.
fn push_if(numbers: &mut Vec<u32>, number: u32, wanted: bool) -> Result<(), OutOfMemory>
    ensures { OnOk result (numbers.new.items ≡ numbers.old.items ++ (if wanted then number ∷ [] else [])) }
{
    if wanted {
        numbers.push(number)?;
    }
    Ok(())
}

/// The numbers of the live skeletons, ascending. What is not live has no answer.
///
/// The abstract rows of a part are found once, for all skeletons that stand on it. The tests of the skeletons run in parallel.
pub fn live<R: Threads + Sync>(
    rt: &R,
    alloc: Global,
    task: &Task,
    graph: &Graph,
) -> Result<Vec<u32>, OutOfMemory>
    requires { trees_of graph.now.nodes ≡ skeletons task.now }
    ensures { IfOk result (λ numbers. numbers.items ≡ live_numbers task.now) }
{
    let kept = kept_of_all(alloc, task, graph)?;
    let lives = are_live(rt, alloc, task, graph, kept.as_slice())?;
    let mut numbers = Vec::new(alloc);
    for number in 0..graph.len() {
        push_if(&mut numbers, number, lives[number as usize])?;
    }
    Ok(numbers)
}
