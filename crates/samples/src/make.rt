//! Values, tables, tasks and trees from short descriptions.

use crate::fault::Failed;
use predicate_core::Pred;
use query_core::{Agg, Node, Pairing, Query, Uniting};
use sqlite_items::{Boxed, Items};
use std::alloc::Global;
use table_core::{AggSet, Column, Table, Task, TaskParts, Tuple};
use value_core::{Bytes, ColType, Value, Word, read_int};

/// The value of a word: NULL where it is a dash, a number where it spells one, else the text.
pub fn value(alloc: Global, word: &str) -> Result<Value, Failed> {
    if word == "-" {
        return Ok(Value::Null);
    }
    match read_int(word.as_bytes()) {
        Some(number) => Ok(Value::Int(number)),
        None => Ok(Value::Text(Word::of(alloc, word.as_bytes())?)),
    }
}

/// The values of a line's words.
pub fn values(alloc: Global, line: &str) -> Result<Vec<Value>, Failed> {
    let mut values = Vec::new(alloc);
    for word in line.split_whitespace() {
        values.push(value(alloc, word)?)?;
    }
    Ok(values)
}

/// The row of a line's words.
pub fn row(alloc: Global, line: &str) -> Result<Tuple, Failed> {
    Ok(Tuple::of(values(alloc, line)?))
}

// A column of numbers where its name ends in `#`, which is no part of it, else of texts.
fn column(alloc: Global, word: &str) -> Result<Column, Failed> {
    let (name, kind) = match word.as_bytes().split_last() {
        Some((b'#', name)) => (name, ColType::Int),
        _ => (word.as_bytes(), ColType::Text),
    };
    let name = Word::of(alloc, name)?;
    Ok(Column { name, kind })
}

fn columns(alloc: Global, line: &str) -> Result<Vec<Column>, Failed> {
    let mut columns = Vec::new(alloc);
    for word in line.split_whitespace() {
        columns.push(column(alloc, word)?)?;
    }
    Ok(columns)
}

/// The table of a text's lines: the words of the first name its columns, and each other line is a row.
pub fn table(alloc: Global, name: &str, text: &str) -> Result<Table, Failed> {
    let name = Word::of(alloc, name.as_bytes())?;
    let mut lines = text.lines();
    let columns = columns(alloc, lines.next().unwrap_or(""))?;
    let mut table = Table::new(alloc, name, columns);
    for line in lines {
        table.push_row(row(alloc, line)?)?;
    }
    Ok(table)
}

/// What a task is made of: its inputs, each with its name, the output, the constants, the aggregates, and the numbers of
/// operators, leaves, atoms, queries that are shown, and the budget.
#[derive(Clone, Copy)]
pub struct Shape {
    pub inputs: &'static [(&'static str, &'static str)],
    pub output: &'static str,
    pub constants: &'static str,
    pub aggregates: AggSet,
    pub numbers: [u32; 5],
}

impl Shape {
    /// The least task.
    pub const LEAST: Shape = Shape {
        inputs: &[("t", "a#")],
        output: "a#",
        constants: "",
        aggregates: AggSet::NONE,
        numbers: [0, 1, 1, 1, 1],
    };
}

fn inputs(alloc: Global, inputs: &[(&str, &str)]) -> Result<Items<Table>, Failed> {
    let mut tables = Items::new(alloc);
    for (name, text) in inputs {
        tables.push(table(alloc, name, text)?)?;
    }
    Ok(tables)
}

/// The parts of a task.
pub fn parts(alloc: Global, shape: &Shape) -> Result<TaskParts, Failed> {
    let [ops, leaves, atoms, show, budget] = shape.numbers;
    Ok(TaskParts {
        inputs: inputs(alloc, shape.inputs)?,
        output: table(alloc, "output", shape.output)?,
        constants: Items::from_vec(values(alloc, shape.constants)?),
        aggregates: shape.aggregates,
        ops,
        leaves,
        atoms,
        show,
        budget: u64::from(budget),
    })
}

/// A task within its limits.
pub fn task(alloc: Global, shape: &Shape) -> Result<Task, Failed> {
    Ok(Task::new(parts(alloc, shape)?)?)
}

/// A tree that a constant can hold.
pub enum Tree {
    Base(u32),
    Filter(&'static Tree, Pred),
    Pair(Pairing, &'static Tree, &'static Tree, Pred),
    Group(&'static Tree, &'static [usize], Agg),
    Unite(Uniting, &'static Tree, &'static Tree),
}

fn filter(alloc: Global, child: Node, pred: Pred) -> Result<Node, Failed> {
    Ok(Node::Filter(Boxed::new(alloc, child)?, pred))
}

fn pair(alloc: Global, kind: Pairing, a: Node, b: Node, pred: Pred) -> Result<Node, Failed> {
    let a = Boxed::new(alloc, a)?;
    let b = Boxed::new(alloc, b)?;
    Ok(Node::pair(kind, a, b, pred))
}

fn group(alloc: Global, child: Node, keys: &[usize], agg: Agg) -> Result<Node, Failed> {
    let child = Boxed::new(alloc, child)?;
    Ok(Node::Group(child, Items::from_slice(alloc, keys)?, agg))
}

fn unite(alloc: Global, kind: Uniting, a: Node, b: Node) -> Result<Node, Failed> {
    let a = Boxed::new(alloc, a)?;
    let b = Boxed::new(alloc, b)?;
    Ok(Node::unite(kind, a, b))
}

/// The tree of a constant.
pub fn node(alloc: Global, tree: &Tree) -> Result<Node, Failed> {
    match tree {
        Tree::Base(table) => Ok(Node::Base(*table)),
        Tree::Filter(child, pred) => filter(alloc, node(alloc, child)?, *pred),
        Tree::Pair(kind, a, b, pred) => {
            let a = node(alloc, a)?;
            pair(alloc, *kind, a, node(alloc, b)?, *pred)
        }
        Tree::Group(child, keys, agg) => group(alloc, node(alloc, child)?, keys, *agg),
        Tree::Unite(kind, a, b) => {
            let a = node(alloc, a)?;
            unite(alloc, *kind, a, node(alloc, b)?)
        }
    }
}

/// The query of a tree that gives these columns.
pub fn query(alloc: Global, tree: &Tree, map: &[usize], distinct: bool) -> Result<Query, Failed> {
    let map = Items::from_slice(alloc, map)?;
    let body = node(alloc, tree)?;
    Ok(Query {
        body,
        map,
        distinct,
    })
}

/// Files, each with its name.
pub type Files = &'static [(&'static str, &'static str)];

/// A folder of these files, in memory.
pub fn files(alloc: Global, files: Files) -> Result<Vec<(Bytes, Bytes)>, Failed> {
    let mut out = Vec::new(alloc);
    for (name, text) in files {
        let name = Bytes::of(alloc, name.as_bytes())?;
        out.push((name, Bytes::of(alloc, text.as_bytes())?))?;
    }
    Ok(out)
}

/// The numbers of the reads or the writes that fail: this one alone, or none where it is 0.
pub fn fails(alloc: Global, number: u64) -> Result<Vec<u64>, Failed> {
    Ok(Vec::from_slice(alloc, &[number])?)
}
