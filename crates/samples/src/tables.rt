//! Rows, tables as bags, and the limits of tasks.

use crate::fault::Failed;
use crate::make::{Shape, parts, row, table};
use crate::show::{Grid, Head};
use std::alloc::Global;
use table_core::{BadPart, Table, Task, count, has_double, same_bag};

// Rows of which the first alone fits two columns of texts.
const ROWS: &[&str] = &["- -", "", "1", "- - -", "1 2", "- 2"];

// A row, as it is pushed onto a table.
fn pushed(rt: &impl Print, alloc: Global, words: &str) -> Result<(), Failed> {
    let mut table = table(alloc, "t", "a b\n- -\nx y")?.copy(alloc)?;
    match table.push_row(row(alloc, words)?) {
        Ok(()) => println!(rt; "pushed: {}", Grid(&table))?,
        Err(fault) => println!(rt; "refused: {fault}, {}", Grid(&table))?,
    }
    Ok(())
}

// Columns of numbers to compare.
const BAGS: &[(&str, &str)] = &[
    ("a#", "a#"),
    ("a#\n1\n2", "a#\n2\n1"),
    ("a#\n1\n2\n1", "a#\n2\n1\n1"),
    ("a#\n1\n1\n2", "a#\n1\n2\n2"),
    ("a#\n1\n2", "a#\n1\n2\n2"),
    ("a#\n-\n1\n-", "a#\n1\n-\n-"),
    ("a#\n-", "a#\n1"),
    ("a# b#", "a#"),
];

// Whether two tables are one bag, and whether the first has a double.
fn bags(rt: &impl Print, left: &Table, right: &Table) -> Result<(), Failed> {
    let same = [same_bag(left, right), same_bag(right, left)];
    let double = has_double(left);
    println!(rt;
        "{} and {}: {same:?}, double: {double}",
        Grid(left),
        Grid(right)
    )?;
    Ok(())
}

fn compared(rt: &impl Print, alloc: Global, left: &str, right: &str) -> Result<(), Failed> {
    let left = table(alloc, "l", left)?;
    let right = table(alloc, "r", right)?;
    bags(rt, &left, &right)
}

// How often a row stands in a table.
fn counted(rt: &impl Print, alloc: Global, word: &str) -> Result<(), Failed> {
    let row = row(alloc, word)?.copy(alloc)?;
    let count = count(&table(alloc, "t", "a#\n1\n-\n1")?, &row);
    println!(rt; "{word} stands {count} times")?;
    Ok(())
}

// The copies of a table's columns.
fn columns(rt: &impl Print, alloc: Global) -> Result<(), Failed> {
    let table = table(alloc, "t", "a b#")?;
    for column in table.columns() {
        let copy = column.copy(alloc)?;
        println!(rt; "{}", Head(&copy))?;
    }
    Ok(())
}

const LEAST: Shape = Shape::LEAST;

const SHAPES: &[Shape] = &[
    LEAST,
    Shape {
        inputs: &[("p", "a b c d e f"), ("q", "a"), ("r", "a"), ("s", "a")],
        output: "a b c d",
        constants: "1 2 3 4 5 6",
        numbers: [4, 3, 3, 1000, 400_000],
        ..LEAST
    },
    Shape {
        inputs: &[],
        ..LEAST
    },
    Shape {
        inputs: &[("p", "a"), ("q", "a"), ("r", "a"), ("s", "a"), ("t", "a")],
        ..LEAST
    },
    Shape {
        inputs: &[("p", "a"), ("p", "b")],
        ..LEAST
    },
    Shape {
        inputs: &[("p", "a b c d e f g")],
        ..LEAST
    },
    Shape {
        inputs: &[("p", "a b a")],
        ..LEAST
    },
    Shape {
        inputs: &[("p", "a\n-\n-\n-\n-\n-\n-\n-\n-\n-\n-\n-\n-\n-\n-\n-\n-\n-")],
        ..LEAST
    },
    Shape {
        output: "",
        ..LEAST
    },
    Shape {
        output: "a b c d e",
        ..LEAST
    },
    Shape {
        constants: "-",
        ..LEAST
    },
    Shape {
        constants: "1 1",
        ..LEAST
    },
    Shape {
        constants: "1 2 3 4 5 6 7",
        ..LEAST
    },
    Shape {
        numbers: [5, 1, 1, 1, 1],
        ..LEAST
    },
    Shape {
        numbers: [0, 0, 1, 1, 1],
        ..LEAST
    },
    Shape {
        numbers: [0, 4, 1, 1, 1],
        ..LEAST
    },
    Shape {
        numbers: [0, 1, 0, 1, 1],
        ..LEAST
    },
    Shape {
        numbers: [0, 1, 4, 1, 1],
        ..LEAST
    },
    Shape {
        numbers: [0, 1, 1, 0, 1],
        ..LEAST
    },
    Shape {
        numbers: [0, 1, 1, 1001, 1],
        ..LEAST
    },
    Shape {
        numbers: [0, 1, 1, 1, 0],
        ..LEAST
    },
    Shape {
        numbers: [0, 1, 1, 1, 400_001],
        ..LEAST
    },
];

// The output of a task's copy.
fn accepted(rt: &impl Print, alloc: Global, task: &Task) -> Result<(), Failed> {
    let copy = task.copy(alloc)?;
    println!(rt; "a task with {}", Grid(&copy.parts().output))?;
    Ok(())
}

// A task, or its first part that is out of the limits.
fn limited(rt: &impl Print, alloc: Global, shape: &Shape) -> Result<(), Failed> {
    match Task::new(parts(alloc, shape)?) {
        Ok(task) => accepted(rt, alloc, &task),
        Err(bad) => refused(rt, bad),
    }
}

fn refused(rt: &impl Print, bad: BadPart) -> Result<(), Failed> {
    println!(rt; "part {} is out of its limits", bad.part)?;
    Ok(())
}

// The output of the copy of a task's parts.
fn copied(rt: &impl Print, alloc: Global, shape: &Shape) -> Result<(), Failed> {
    let copy = parts(alloc, shape)?.copy(alloc)?;
    println!(rt; "parts with {}", Grid(&copy.output))?;
    Ok(())
}

pub fn samples(rt: &impl Print, alloc: Global) -> Result<(), Failed> {
    for words in ROWS {
        pushed(rt, alloc, words)?;
    }
    for (left, right) in BAGS {
        compared(rt, alloc, left, right)?;
    }
    for word in ["1", "-", "2"] {
        counted(rt, alloc, word)?;
    }
    columns(rt, alloc)?;
    for shape in SHAPES {
        limited(rt, alloc, shape)?;
    }
    copied(rt, alloc, &LEAST)
}
