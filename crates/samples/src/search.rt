//! The answers of tasks, and the text that lists them.

use crate::fault::Failed;
use crate::make::{Shape, task};
use crate::show::text;
use plain_search::{few, plain};
use std::alloc::Global;
use table_core::{AggSet, Task};

const ONE_OPERATOR: Shape = Shape {
    inputs: &[("t", "id v#\na 1\na 2")],
    output: "id\na",
    constants: "1",
    aggregates: AggSet::NONE,
    numbers: [1, 1, 1, 25, 1],
};

const THREE_ROWS: Shape = Shape {
    inputs: &[("t", "id v#\na 1\nb 2\nc 1")],
    output: "id v#\nc 1",
    constants: "a 1",
    ..ONE_OPERATOR
};

const ALL: AggSet = AggSet {
    count_all: true,
    count: true,
    count_distinct: true,
    sum: true,
    min: true,
    max: true,
};

const WIDE: &str = "a# b# c# d# e# f#";

const SHAPES: &[Shape] = &[
    ONE_OPERATOR,
    Shape {
        numbers: [1, 1, 1, 2, 1],
        ..ONE_OPERATOR
    },
    Shape {
        output: "id v#\na 1\na 2",
        constants: "2",
        ..ONE_OPERATOR
    },
    THREE_ROWS,
    Shape {
        numbers: [1, 1, 2, 25, 1],
        ..THREE_ROWS
    },
    Shape {
        inputs: &[("t", "id\na")],
        output: "id\na\na",
        constants: "",
        numbers: [1, 2, 1, 25, 1],
        ..ONE_OPERATOR
    },
    Shape {
        inputs: &[("l", "id\nx\ny"), ("r", "id v#\nx 7")],
        output: "id v#\nx 7\ny -",
        constants: "",
        numbers: [1, 2, 1, 25, 1],
        ..ONE_OPERATOR
    },
    Shape {
        output: "total#\n3",
        constants: "",
        aggregates: AggSet {
            sum: true,
            ..AggSet::NONE
        },
        ..ONE_OPERATOR
    },
    Shape {
        inputs: &[("p", WIDE), ("q", WIDE), ("r", WIDE), ("s", WIDE)],
        aggregates: ALL,
        numbers: [4, 3, 3, 25, 1],
        ..ONE_OPERATOR
    },
];

// The text of a task's answers, where there are few skeletons.
fn answered(rt: &impl Print, alloc: Global, task: &Task) -> Result<(), Failed> {
    if !few(alloc, task)? {
        println!(rt; "too many skeletons")?;
        return Ok(());
    }
    let answers = plain(alloc, task)?;
    let bytes = sql_print::text(alloc, task, answers.as_slice())?;
    print!(rt; "{}", text(bytes.as_slice()))?;
    Ok(())
}

fn all(rt: &impl Print, alloc: Global, shapes: &[Shape]) -> Result<(), Failed> {
    for shape in shapes {
        answered(rt, alloc, &task(alloc, shape)?)?;
    }
    Ok(())
}

pub fn samples(rt: &impl Print, alloc: Global) -> Result<(), Failed> {
    all(rt, alloc, SHAPES)
}
