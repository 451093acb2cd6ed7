//! The types of a tree's columns, or what is wrong with it.

use crate::fault::Failed;
use crate::make::{Shape, Tree, node, parts, table};
use crate::tell::tell_both;
use predicate_core::{Atom, Pred};
use query_core::{
    Agg, Node, Pairing, Uniting, columns, group_types, input_types, names_columns, names_inputs,
    node_types, picked_types, table_types, types_agree,
};
use sqlite_items::{Boxed, Items};
use std::alloc::Global;
use table_core::{Table, TaskParts};
use value_core::{CmpOp, ColType};

const SHAPE: Shape = Shape {
    inputs: &[("l", "k n#"), ("r", "k")],
    constants: "2",
    ..Shape::LEAST
};

const LEFT: &Tree = &Tree::Base(0);

const RIGHT: &Tree = &Tree::Base(1);

const SAME: Pred = Pred::One(Atom::Cols(0, CmpOp::Eq, 2));

const JOINED: &Tree = &Tree::Pair(Pairing::Join, LEFT, RIGHT, SAME);

// The last three have a leaf that names no input before a column that isn't there, and that before types that differ.
const TREES: &[Tree] = &[
    Tree::Filter(LEFT, Pred::One(Atom::Const(1, CmpOp::Eq, 0))),
    Tree::Filter(LEFT, Pred::One(Atom::Const(0, CmpOp::Eq, 0))),
    Tree::Filter(LEFT, Pred::One(Atom::Cols(0, CmpOp::Lt, 1))),
    Tree::Filter(LEFT, Pred::One(Atom::Const(1, CmpOp::Eq, 1))),
    Tree::Filter(LEFT, Pred::One(Atom::IsNull(2))),
    Tree::Group(LEFT, &[0], Agg::Sum(1)),
    Tree::Group(LEFT, &[1, 0], Agg::Max(0)),
    Tree::Group(LEFT, &[], Agg::CountDistinct(0)),
    Tree::Group(LEFT, &[], Agg::Sum(0)),
    Tree::Group(LEFT, &[2], Agg::CountAll),
    Tree::Pair(Pairing::Join, LEFT, RIGHT, SAME),
    Tree::Pair(Pairing::Left, RIGHT, LEFT, SAME),
    Tree::Unite(Uniting::All, RIGHT, RIGHT),
    Tree::Unite(
        Uniting::Firsts,
        &Tree::Filter(LEFT, Pred::One(Atom::NotNull(2))),
        &Tree::Base(2),
    ),
    Tree::Unite(
        Uniting::Firsts,
        &Tree::Filter(LEFT, Pred::One(Atom::NotNull(2))),
        RIGHT,
    ),
    Tree::Unite(
        Uniting::Firsts,
        &Tree::Filter(LEFT, Pred::One(Atom::NotNull(1))),
        RIGHT,
    ),
];

// The types of a tree's columns, or the first thing that is wrong with it.
fn typed(rt: &impl Print, alloc: Global, task: &TaskParts, node: &Node) -> Result<(), Failed> {
    match columns(alloc, task, node) {
        Ok(types) => tell_both(rt, node, ": ", &types.as_slice()),
        Err(fault) => tell_both(rt, node, ": ", &fault),
    }
}

// Which of the three things are right with a tree.
fn checked(rt: &impl Print, alloc: Global, task: &TaskParts, node: &Node) -> Result<(), Failed> {
    let inputs = names_inputs(task, node);
    let columns = names_columns(alloc, task, node)?;
    let types = types_agree(alloc, task, node)?;
    println!(rt; "  inputs: {inputs}, columns: {columns}, types: {types}")?;
    Ok(())
}

// A tree's copy in a box.
fn boxed(alloc: Global, node: &Node) -> Result<Boxed<Node>, Failed> {
    Ok(node.boxed(alloc)?)
}

fn boxed_tree(alloc: Global, tree: &Tree) -> Result<Boxed<Node>, Failed> {
    boxed(alloc, &node(alloc, tree)?)
}

fn told(rt: &impl Print, alloc: Global, task: &TaskParts, node: &Node) -> Result<(), Failed> {
    typed(rt, alloc, task, node)?;
    checked(rt, alloc, task, node)
}

fn shown(rt: &impl Print, alloc: Global, task: &TaskParts, tree: &Tree) -> Result<(), Failed> {
    told(rt, alloc, task, boxed_tree(alloc, tree)?.get())
}

// Types, and what they are of.
fn named(rt: &impl Print, name: &str, types: &[ColType]) -> Result<(), Failed> {
    println!(rt; "{name}: {types:?}")?;
    Ok(())
}

// The types of a table's columns.
fn of_table(alloc: Global) -> Result<Items<ColType>, Failed> {
    Ok(table_types(alloc, &table(alloc, "t", "k n#")?)?)
}

fn picked(rt: &impl Print, alloc: Global, types: &[ColType]) -> Result<(), Failed> {
    let picked = picked_types(alloc, types, &[1, 0, 1])?;
    named(rt, "picked", picked.as_slice())
}

fn grouped(rt: &impl Print, alloc: Global, types: &[ColType]) -> Result<(), Failed> {
    let grouped = group_types(alloc, types, &[0], &Agg::Min(1))?;
    named(rt, "grouped", grouped.as_slice())
}

// The types of a table's columns, and of what is made of them.
fn types(rt: &impl Print, alloc: Global, types: &[ColType]) -> Result<(), Failed> {
    named(rt, "table", types)?;
    picked(rt, alloc, types)?;
    grouped(rt, alloc, types)
}

// The types of an input's columns.
fn input(rt: &impl Print, alloc: Global, inputs: &[Table]) -> Result<(), Failed> {
    named(rt, "input", input_types(alloc, inputs, 1)?.as_slice())
}

fn copied(alloc: Global, node: &Node) -> Result<Node, Failed> {
    Ok(node.copy(alloc)?)
}

// A copy of a tree in which nothing is wrong.
fn copied_tree(alloc: Global) -> Result<Node, Failed> {
    copied(alloc, &node(alloc, JOINED)?)
}

// The types of a tree's columns, in which nothing is wrong.
fn right(rt: &impl Print, alloc: Global, inputs: &[Table], node: &Node) -> Result<(), Failed> {
    named(rt, "tree", node_types(alloc, inputs, node)?.as_slice())
}

fn all(rt: &impl Print, alloc: Global, task: &TaskParts, trees: &[Tree]) -> Result<(), Failed> {
    for tree in trees {
        shown(rt, alloc, task, tree)?;
    }
    Ok(())
}

fn of_inputs(rt: &impl Print, alloc: Global, inputs: &[Table]) -> Result<(), Failed> {
    input(rt, alloc, inputs)?;
    right(rt, alloc, inputs, &copied_tree(alloc)?)
}

fn of_task(rt: &impl Print, alloc: Global, task: &TaskParts) -> Result<(), Failed> {
    of_inputs(rt, alloc, task.inputs.as_slice())?;
    all(rt, alloc, task, TREES)
}

pub fn samples(rt: &impl Print, alloc: Global) -> Result<(), Failed> {
    types(rt, alloc, of_table(alloc)?.as_slice())?;
    of_task(rt, alloc, &parts(alloc, &SHAPE)?)
}
