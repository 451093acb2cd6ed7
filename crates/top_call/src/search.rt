ghost use Rattle.std.specs.Prelude.{◌≡◌, ◌≤◌, ◌<◌, ◌+◌, ◌++◌, ◌∷◌, [], ℕ, true, length, map, slice_get, option_copied, Some, Err, IfOk, OnOk};
ghost use Rattle.query_core.specs.Answers.{ascending, comes_before};
ghost use Rattle.rank_core.specs.View.{ranked_query, ranked_queries};
ghost use Rattle.fill_core.specs.Fits.{RowData, fits, FitBelow};
ghost use Rattle.fill_core.specs.Plans.{node_of};
ghost use Rattle.fill_core.specs.View.{weight, weight_of};
ghost use Rattle.fill_core.specs.declared.end.FillEnd.TheVariants as ends;
ghost use Rattle.skeleton_graph.specs.Nodes.{tree_at, trees_of};
ghost use Rattle.top_call.specs.Search.{part_cost, parts_weigh, answers_at, plan_answers, plan_need, kept_row, AreKept, ChildrenKept, IsKept, FilledAreKept};

use fill_core::{FillEnd, Job, Plan, Row, RowsBelow, Steps, fill_node};
use rank_core::{Ranked, sort};
use root_search::{Hits, search_root};
use skeleton_graph::SkelNode;
use std::alloc::Global;
use std::marker::Brand;
use std::sync::ledger::{Blank, Ledger};
use value_core::OutOfMemory;

/// Why a search has no answers to give.
#[derive(Clone, Copy, Debug, PartialEq, Eq)]
pub enum SearchEnd {
    /// The rows of the parts and the answers are together more than the task's budget.
    OverBudget,
    OutOfMemory,
}

impl From<OutOfMemory> for SearchEnd {
    ghost use Rattle.std.specs.Prelude.{◌≡◌};
    ghost use Rattle.top_call.specs.declared.search.SearchEnd.TheVariants as end;

    ghost from_gives = { λ _ given. given ≡ end.OutOfMemory };

    fn from(_fault: OutOfMemory) -> SearchEnd {
        SearchEnd::OutOfMemory
    }
}

impl From<FillEnd> for SearchEnd {
    ghost use Rattle.std.specs.Prelude.{◌≡◌};
    ghost use Rattle.top_call.specs.Search.{search_end};

    ghost from_gives = { λ end given. given ≡ search_end end };

    fn from(end: FillEnd) -> SearchEnd {
        match end {
            FillEnd::Heavy => SearchEnd::OverBudget,
            FillEnd::OutOfMemory => SearchEnd::OutOfMemory,
        }
    }
}

// The row that is kept of a child.
fn kept_row(rows: &[Option<Row>], child: Option<u32>) -> Option<&Row>
    ensures { option_copied result ≡ kept_row rows.now child }
{
    match child {
        Some(number) => match rows.get(number as usize) {
            Some(row) => row.as_ref(),
            None => None,
        },
        None => None,
    }
}

// The rows that are kept of a node's children.
fn kept_of<'r>(rows: &'r [Option<Row>], node: &SkelNode) -> RowsBelow<'r>
    ensures left { option_copied result.left ≡ kept_row rows.now node.now.left }
    ensures right { option_copied result.right ≡ kept_row rows.now node.now.right }
{
    RowsBelow {
        left: kept_row(rows, node.left),
        right: kept_row(rows, node.right),
    }
}

// The rows that are kept of the children of a number's node.
fn kept_below<'r>(plan: &Plan<'_>, rows: &'r [Option<Row>], number: u32) -> RowsBelow<'r>
    requires number { number < length plan.now.graph.nodes }
    requires kept { AreKept plan.now rows.now }
    requires children { ChildrenKept plan.now.graph.nodes rows.now number }
    ensures { FitBelow plan.now number (option_copied result.left) (option_copied result.right) }
{
    kept_of(rows, plan.graph().node(number))
}

// The row of a node over those that are kept of its children.
fn filled<L: Ledger>(
    alloc: Global,
    plan: &Plan<'_>,
    rows: &[Option<Row>],
    number: u32,
    steps: &mut Steps<L>,
) -> Result<Row, FillEnd>
    requires number { number < length plan.now.graph.nodes }
    requires kept { AreKept plan.now rows.now }
    requires children { ChildrenKept plan.now.graph.nodes rows.now number }
    ensures fits { IfOk result (λ row. fits row plan.now number ≡ true) }
    ensures weighs { IfOk result (λ row. weight row.fillings ≡ weight_of plan.now.task (tree_at (trees_of plan.now.graph.nodes) number)) }
    ensures heavy { result ≡ Err ends.Heavy → plan.now.task.budget < weight_of plan.now.task (tree_at (trees_of plan.now.graph.nodes) number) }
{
    let below = kept_below(plan, rows, number);
    fill_node(alloc, plan, number, &below, steps)
}

// The answers of a root over the rows that are kept of its children.
fn found_at<L: Ledger>(
    alloc: Global,
    plan: &Plan<'_>,
    rows: &[Option<Row>],
    number: u32,
    steps: &mut Steps<L>,
) -> Result<Hits, FillEnd>
    requires number { number < length plan.now.graph.nodes }
    requires kept { AreKept plan.now rows.now }
    requires children { ChildrenKept plan.now.graph.nodes rows.now number }
    ensures found { IfOk result (λ hits. map ranked_query hits ≡ ascending comes_before (answers_at plan.now.task (trees_of plan.now.graph.nodes) number)) }
    ensures heavy { result ≡ Err ends.Heavy → plan.now.task.budget < length (answers_at plan.now.task (trees_of plan.now.graph.nodes) number) }
{
    let below = kept_below(plan, rows, number);
    search_root(alloc, plan, number, &below, steps)
}

/// The rows of the parts of a search, by number, and what they leave of the budget.
#[derive(Drop)]
struct PartRows {
    rows: Vec<Option<Row>>,
    left: u64,
}

// So many places for rows, all of them empty.
fn no_rows(alloc: Global, len: u32) -> Result<Vec<Option<Row>>, OutOfMemory>
    ensures size { IfOk result (λ rows. length rows.items ≡ len) }
    ensures none { IfOk result (λ rows. (k : ℕ) (row : RowData) → ¬ (slice_get rows.items k ≡ Some (Some row))) }
{
    let mut rows = Vec::new(alloc);
    for _ in 0..len {
        rows.push(None)?;
    }
    Ok(rows)
}

// Does a job that fills a part: keeps its row, whose weight is taken from what is left of the budget. A job that searches a root does nothing.
fn fill<L: Ledger>(
    alloc: Global,
    plan: &Plan<'_>,
    job: Job,
    parts: &mut PartRows,
    steps: &mut Steps<L>,
) -> Result<(), SearchEnd>
    requires node { node_of job < length plan.now.graph.nodes }
    requires size { length parts.old.rows.items ≡ length plan.now.graph.nodes }
    requires kept { AreKept plan.now parts.old.rows.items }
    requires children { ChildrenKept plan.now.graph.nodes parts.old.rows.items (node_of job) }
    requires left { parts.old.left ≤ plan.now.task.budget }
    ensures left { OnOk result (parts.new.left + part_cost plan.now.task (trees_of plan.now.graph.nodes) job ≡ parts.old.left) }
    ensures over { result ≡ Err SearchEnd.OverBudget → parts.old.left < part_cost plan.now.task (trees_of plan.now.graph.nodes) job }
    ensures size { OnOk result (length parts.new.rows.items ≡ length parts.old.rows.items) }
    ensures kept { OnOk result (AreKept plan.now parts.new.rows.items) }
    ensures still { OnOk result ((k : ℕ) → IsKept parts.old.rows.items k → IsKept parts.new.rows.items k) }
    ensures filled { OnOk result (FilledAreKept (job ∷ []) parts.new.rows.items) }
{
    let Job::Inner(number) = job else {
        return Ok(());
    };
    let row = filled(alloc, plan, parts.rows.as_slice(), number, steps)?;
    let weight = row.weight();
    if parts.left < weight {
        return Err(SearchEnd::OverBudget);
    }
    parts.left -= weight;
    parts.rows[number as usize] = Some(row);
    Ok(())
}

// The rows of all parts of a plan.
fn fill_parts<L: Ledger>(
    alloc: Global,
    plan: &Plan<'_>,
    steps: &mut Steps<L>,
) -> Result<PartRows, SearchEnd>
    ensures kept { IfOk result (λ parts. AreKept plan.now parts.rows.items) }
    ensures all { IfOk result (λ parts. FilledAreKept plan.now.jobs parts.rows.items) }
    ensures left { IfOk result (λ parts. parts.left + parts_weigh plan.now ≡ plan.now.task.budget) }
    ensures over { result ≡ Err SearchEnd.OverBudget → plan.now.task.budget < parts_weigh plan.now }
{
    plan.is_planned();
    let rows = no_rows(alloc, plan.graph().len())?;
    let left = plan.task().parts().budget;
    let mut parts = PartRows { rows, left };
    for job in plan.jobs() {
        fill(alloc, plan, *job, &mut parts, steps)?;
    }
    Ok(parts)
}

// Appends the answers of a root.
fn push_hits(out: &mut Vec<Ranked>, hits: Hits) -> Result<(), OutOfMemory>
    ensures { OnOk result (out.new.items ≡ out.old.items ++ hits) }
{
    let mut list = hits.into_list();
    Ok(out.append(&mut list)?)
}

// The answers of the roots of a plan over the rows of its parts, root by root, where the budget has room for them.
fn found<L: Ledger>(
    alloc: Global,
    plan: &Plan<'_>,
    parts: &PartRows,
    steps: &mut Steps<L>,
) -> Result<Vec<Ranked>, SearchEnd>
    requires kept { AreKept plan.now parts.now.rows.items }
    requires all { FilledAreKept plan.now.jobs parts.now.rows.items }
    requires left { parts.now.left ≤ plan.now.task.budget }
    ensures found { IfOk result (λ list. ascending comes_before (ranked_queries list) ≡ ascending comes_before (plan_answers plan.now)) }
    ensures room { IfOk result (λ list. length (plan_answers plan.now) ≤ parts.now.left) }
    ensures over { result ≡ Err SearchEnd.OverBudget → parts.now.left < length (plan_answers plan.now) }
{
    plan.is_planned();
    let mut out = Vec::new(alloc);
    for root in plan.roots() {
        let hits = found_at(alloc, plan, parts.rows.as_slice(), *root, steps)?;
        push_hits(&mut out, hits)?;
        if parts.left < out.len() as u64 {
            return Err(SearchEnd::OverBudget);
        }
    }
    Ok(out)
}

// The answers of the roots of a plan, best first, where the steps are counted.
fn searched<L: Ledger>(
    alloc: Global,
    plan: &Plan<'_>,
    blank: Blank,
) -> Result<Vec<Ranked>, SearchEnd>
    requires name { blank.name ≡ L.name }
    requires parts { blank.parts ≡ L.parts }
    requires some { 0 < blank.parts }
    ensures found { IfOk result (λ list. map ranked_query list.items ≡ ascending comes_before (plan_answers plan.now)) }
    ensures within { IfOk result (λ list. plan_need plan.now ≤ plan.now.task.budget) }
    ensures over { result ≡ Err SearchEnd.OverBudget → plan.now.task.budget < plan_need plan.now }
{
    let mut steps = Steps::<L>::open(blank);
    let parts = fill_parts(alloc, plan, &mut steps)?;
    let mut list = found(alloc, plan, &parts, &mut steps)?;
    sort(&mut list)?;
    Ok(list)
}

/// The answers of the roots of a plan, best first. Each part is filled once, for all roots that have it.
///
/// `OverBudget` comes exactly where the rows of the parts and the answers are together more than the task's budget.
pub fn search(alloc: Global, plan: &Plan<'_>) -> Result<Vec<Ranked>, SearchEnd>
    ensures found { IfOk result (λ list. map ranked_query list.items ≡ ascending comes_before (plan_answers plan.now)) }
    ensures within { IfOk result (λ list. plan_need plan.now ≤ plan.now.task.budget) }
    ensures over { result ≡ Err SearchEnd.OverBudget → plan.now.task.budget < plan_need plan.now }
{
    searched::<Brand>(alloc, plan, Blank::new(1))
}
