//! Skeletons, as a graph.

ghost use Rattle.std.specs.Prelude.{◌<◌, length};

use crate::fault::Failed;
use crate::make::{Shape, task};
use crate::tell::tell_both;
use query_core::Agg;
use skeleton_graph::{Graph, GraphFault, Kind, build};
use std::alloc::Global;
use table_core::{AggSet, Task};

const LEAST: Shape = Shape {
    inputs: &[("t", "k n#")],
    ..Shape::LEAST
};

const SIX: Shape = Shape {
    numbers: [1, 2, 1, 1, 1],
    ..LEAST
};

const WIDE: &str = "a# b# c# d# e# f#";

const CASES: &[Shape] = &[
    LEAST,
    Shape {
        numbers: [1, 1, 1, 1, 1],
        ..LEAST
    },
    SIX,
    Shape {
        inputs: &[("t", "k n#"), ("u", "k n#")],
        ..SIX
    },
    Shape {
        numbers: [2, 1, 1, 1, 1],
        ..LEAST
    },
    Shape {
        aggregates: AggSet {
            count_all: true,
            sum: true,
            ..AggSet::NONE
        },
        numbers: [1, 1, 1, 1, 1],
        ..LEAST
    },
    Shape {
        inputs: &[("a", WIDE), ("b", WIDE), ("c", WIDE), ("d", WIDE)],
        aggregates: AggSet {
            count_all: true,
            count: true,
            count_distinct: true,
            sum: true,
            min: true,
            max: true,
        },
        numbers: [4, 3, 1, 1, 1],
        ..LEAST
    },
];

// The name of a node's kind.
fn name(kind: &Kind) -> &'static str {
    match kind {
        Kind::Base(_) => "base",
        Kind::Filter => "filter",
        Kind::Join => "join",
        Kind::Left => "left",
        Kind::Group(_, Agg::CountAll) => "count",
        Kind::Group(_, Agg::Sum(_)) => "sum",
        Kind::Group(..) => "group",
        Kind::UnionAll => "all",
        Kind::Union => "union",
    }
}

// The kinds of a graph's nodes in order.
fn kinds(rt: &impl Print, graph: &Graph) -> Result<(), Failed> {
    for k in 0..graph.len() {
        print!(rt; "{} ", name(&graph.node(k).kind))?;
    }
    println!(rt; "skeletons")?;
    Ok(())
}

// The graph of a task, none where there are too many skeletons.
fn graph(alloc: Global, task: &Task) -> Result<Option<Graph>, Failed> {
    match build(alloc, task) {
        Ok(graph) => Ok(Some(graph)),
        Err(GraphFault::TooMany { .. }) => Ok(None),
        Err(GraphFault::OutOfMemory) => Err(Failed::NoMemory),
    }
}

fn graph_of(alloc: Global, shape: &Shape) -> Result<Option<Graph>, Failed> {
    graph(alloc, &task(alloc, shape)?)
}

fn told(rt: &impl Print, graph: &Option<Graph>) -> Result<(), Failed> {
    match graph {
        Some(graph) => kinds(rt, graph),
        None => {
            println!(rt; "more than 100000 skeletons")?;
            Ok(())
        }
    }
}

fn listed(rt: &impl Print, alloc: Global, shape: &Shape) -> Result<(), Failed> {
    told(rt, &graph_of(alloc, shape)?)
}

// The uses of a node, each the number of the user and its side.
fn uses(rt: &impl Print, graph: &Graph, k: u32) -> Result<(), Failed>
    requires { k < length graph.now.nodes }
{
    print!(rt; "  used by")?;
    for (user, side) in graph.uses(k) {
        print!(rt; " {user}.{side}")?;
    }
    Ok(())
}

// The tree of a node, and the types of its columns.
fn tree(rt: &impl Print, alloc: Global, graph: &Graph, k: u32) -> Result<(), Failed>
    requires { k < length graph.now.nodes }
{
    tell_both(rt, &graph.tree(alloc, k)?, " ", &graph.types(k))
}

// The nodes above a node.
fn above(rt: &impl Print, alloc: Global, graph: &Graph, k: u32) -> Result<(), Failed>
    requires { k < length graph.now.nodes }
{
    println!(rt; ", below {:?}", graph.above(alloc, k)?.as_slice())?;
    Ok(())
}

// A node: its tree and the types of its columns, its uses, and the nodes above it.
fn node(rt: &impl Print, alloc: Global, graph: &Graph, k: u32) -> Result<(), Failed>
    requires { k < length graph.now.nodes }
{
    tree(rt, alloc, graph, k)?;
    uses(rt, graph, k)?;
    above(rt, alloc, graph, k)
}

// The nodes of a graph.
fn nodes(rt: &impl Print, alloc: Global, graph: &Graph) -> Result<(), Failed> {
    for k in 0..graph.len() {
        node(rt, alloc, graph, k)?;
    }
    Ok(())
}

fn of_some(rt: &impl Print, alloc: Global, graph: &Option<Graph>) -> Result<(), Failed> {
    match graph {
        Some(graph) => nodes(rt, alloc, graph),
        None => Err(Failed::BadSample),
    }
}

pub fn samples(rt: &impl Print, alloc: Global) -> Result<(), Failed> {
    for shape in CASES {
        listed(rt, alloc, shape)?;
    }
    of_some(rt, alloc, &graph_of(alloc, &SIX)?)
}
