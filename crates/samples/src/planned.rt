//! A part of a plan, filled, and a root over it, searched.

ghost use Rattle.std.specs.Prelude.{◌≡◌, ◌<◌, length};

use crate::fault::Failed;
use fill_core::{Plan, Row, RowsBelow, Steps, fill_node};
use root_search::{Hits, search_root};
use std::alloc::Global;
use std::sync::ledger::{Blank, Ledger};

// The row of a node that has no children.
fn filled<L: Ledger>(
    alloc: Global,
    plan: &Plan<'_>,
    number: u32,
    steps: &mut Steps<L>,
) -> Result<Row, Failed>
    requires { number < length plan.now.graph.nodes }
{
    let node = plan.graph().node(number);
    if node.left.is_some() || node.right.is_some() {
        return Err(Failed::BadSample);
    }
    let below = RowsBelow {
        left: None,
        right: None,
    };
    Ok(fill_node(alloc, plan, number, &below, steps)?)
}

// The answers of a root whose only child has this row.
fn found<L: Ledger>(
    alloc: Global,
    plan: &Plan<'_>,
    number: u32,
    row: &Row,
    steps: &mut Steps<L>,
) -> Result<Hits, Failed>
    requires { number < length plan.now.graph.nodes }
{
    let node = plan.graph().node(number);
    let Some(child) = node.left else {
        return Err(Failed::BadSample);
    };
    if node.right.is_some() || !row.fits(plan, child) {
        return Err(Failed::BadSample);
    }
    let below = RowsBelow {
        left: Some(row),
        right: None,
    };
    Ok(search_root(alloc, plan, number, &below, steps)?)
}

fn shown(rt: &impl Print, row: &Row, hits: &Hits) -> Result<(), Failed> {
    println!(rt;
        "node {}: {} entries, weight {}",
        row.node(),
        row.entries().len(),
        row.weight()
    )?;
    println!(rt; "{} answers", hits.list().len())?;
    Ok(())
}

/// The row of a plan's first node, and the answers of its second one as a root over it.
pub fn searched<L: Ledger>(
    rt: &impl Print,
    alloc: Global,
    plan: &Plan<'_>,
    blank: Blank,
) -> Result<(), Failed>
    requires name { blank.name ≡ L.name }
    requires parts { blank.parts ≡ L.parts }
    requires some { 0 < blank.parts }
{
    if plan.graph().len() < 2 {
        return Err(Failed::BadSample);
    }
    let mut steps = Steps::<L>::open(blank);
    let row = filled(alloc, plan, 0, &mut steps)?;
    let hits = found(alloc, plan, 1, &row, &mut steps)?;
    shown(rt, &row, &hits)
}
