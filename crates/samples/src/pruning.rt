//! The abstract rows of skeletons, whether they serve an output, and the jobs of a search.

ghost use Rattle.std.specs.Prelude.{◌≡◌};
ghost use Rattle.query_core.specs.Grammar.{skeletons};
ghost use Rattle.skeleton_graph.specs.Nodes.{trees_of};

use crate::fault::Failed;
use crate::make::{Shape, Tree, node, task};
use crate::planned::searched;
use crate::show::Abstract;
use crate::tell::tell;
use fill_core::Plan;
use over_eval::{AbsRow, live, over, serves};
use predicate_core::Pred;
use query_core::{Agg, Node, Pairing, node_types};
use skeleton_graph::{Graph, GraphFault, build};
use std::alloc::Global;
use std::marker::Brand;
use std::sync::ledger::Blank;
use std::thread::Threads;
use table_core::Task;

const SHAPE: Shape = Shape {
    inputs: &[
        ("t", "a#\n1\n2\n-"),
        ("u", "a#\n1"),
        ("v", "a#\n9223372036854775807\n1"),
    ],
    output: "a#\n2",
    numbers: [2, 2, 1, 25, 1],
    ..Shape::LEAST
};

// Its base, and the filter over that, are live.
const TWO_LIVE: Shape = Shape {
    inputs: &[("t", "id v#\na 1\na 2")],
    output: "id\na",
    constants: "1",
    numbers: [1, 1, 1, 25, 10],
    ..Shape::LEAST
};

const T: &Tree = &Tree::Base(0);

const U: &Tree = &Tree::Base(1);

const V: &Tree = &Tree::Base(2);

const FILTERED: &Tree = &Tree::Filter(T, Pred::Always);

const LARGEST: &Tree = &Tree::Group(FILTERED, &[], Agg::Max(0));

const TREES: &[Tree] = &[
    Tree::Pair(Pairing::Left, U, U, Pred::Always),
    Tree::Group(FILTERED, &[], Agg::Max(0)),
    Tree::Group(FILTERED, &[0], Agg::CountAll),
    Tree::Group(LARGEST, &[0], Agg::CountAll),
    Tree::Group(V, &[], Agg::Sum(0)),
];

// Each abstract row.
fn listed(rt: &impl Print, rows: &[AbsRow]) -> Result<(), Failed> {
    for row in rows {
        print!(rt; "{} ", Abstract(row.cells()))?;
    }
    Ok(())
}

// Whether the abstract rows of a tree can serve the output.
fn served(alloc: Global, task: &Task, tree: &Node, rows: &[AbsRow]) -> Result<bool, Failed> {
    let types = node_types(alloc, task.parts().inputs.as_slice(), tree)?;
    Ok(serves(alloc, types.as_slice(), rows, task.output())?)
}

fn told(
    rt: &impl Print,
    alloc: Global,
    task: &Task,
    tree: &Node,
    rows: &[AbsRow],
) -> Result<(), Failed> {
    listed(rt, rows)?;
    tell(rt, "", &served(alloc, task, tree, rows)?, "")
}

// The abstract rows of a tree, and whether they can serve the output.
fn shown(rt: &impl Print, alloc: Global, task: &Task, tree: &Node) -> Result<(), Failed> {
    match over(alloc, task.parts(), tree)? {
        Some(rows) => told(rt, alloc, task, tree, rows.as_slice()),
        None => tell(rt, "", &"never", ""),
    }
}

fn of_tree(rt: &impl Print, alloc: Global, task: &Task, tree: &Tree) -> Result<(), Failed> {
    shown(rt, alloc, task, &node(alloc, tree)?)
}

fn trees(rt: &impl Print, alloc: Global, task: &Task) -> Result<(), Failed> {
    for tree in TREES {
        of_tree(rt, alloc, task, tree)?;
    }
    Ok(())
}

// The live skeletons of a graph, and the jobs of a search of them.
fn planned<R: Print + Threads + Sync>(
    rt: &R,
    alloc: Global,
    task: &Task,
    graph: Graph,
) -> Result<(), Failed>
    requires { trees_of graph.nodes ≡ skeletons task.now }
{
    let roots = live(rt, alloc, task, &graph)?;
    println!(rt; "{:?}", roots.as_slice())?;
    let plan = Plan::new(alloc, task, graph, roots)?;
    println!(rt; "{:?}", plan.jobs())?;
    searched::<Brand>(rt, alloc, &plan, Blank::new(1))
}

// Those of the graph of a task.
fn jobs<R: Print + Threads + Sync>(rt: &R, alloc: Global, task: &Task) -> Result<(), Failed> {
    match build(alloc, task) {
        Ok(graph) => planned(rt, alloc, task, graph),
        Err(GraphFault::TooMany { .. }) => Err(Failed::BadSample),
        Err(GraphFault::OutOfMemory) => Err(Failed::NoMemory),
    }
}

pub fn samples<R: Print + Threads + Sync>(rt: &R, alloc: Global) -> Result<(), Failed> {
    trees(rt, alloc, &task(alloc, &SHAPE)?)?;
    jobs(rt, alloc, &task(alloc, &TWO_LIVE)?)
}
