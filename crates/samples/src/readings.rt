//! Tasks, read with their tables.

use crate::fault::Failed;
use crate::make::{Files, fails, files};
use crate::show::{Cell, Grid, text};
use crate::tell::tell;
use io_edge::{Folder, MemFolder, SureFolder};
use std::alloc::Global;
use table_core::{Task, TaskParts};
use task_read::{TaskEnd, read_task};

const TASK: (&str, &str) = (
    "task.toml",
    "constants = [2]\nops = 1\nleaves = 1\natoms = 1\n[[input]]\nname = \"t\"\nfile = \"t.csv\"\n[output]\nfile = \"o.csv\"\n",
);

const TWO: (&str, &str) = (
    "task.toml",
    "aggregates = [\"sum\"]\n[[input]]\nname = \"t\"\nfile = \"t.csv\"\n[[input]]\nname = \"u\"\nfile = \"u.csv\"\n[output]\nfile = \"o.csv\"\n",
);

const SAME_NAMES: (&str, &str) = (
    "task.toml",
    "[[input]]\nname = \"t\"\nfile = \"t.csv\"\n[[input]]\nname = \"t\"\nfile = \"u.csv\"\n[output]\nfile = \"o.csv\"\n",
);

const INPUT: (&str, &str) = ("t.csv", "id,v\n1,10\n2,20\n2,\n");

const SECOND: (&str, &str) = ("u.csv", "v\n3\n");

const OUTPUT: (&str, &str) = ("o.csv", "id,v\n2,20\n");

const ONE_INPUT: Files = &[INPUT, OUTPUT, TASK];

const TWO_INPUTS: Files = &[INPUT, OUTPUT, SECOND, TWO];

// Files, and the number of the read that fails.
const CASES: &[(Files, u64)] = &[
    (ONE_INPUT, 0),
    (ONE_INPUT, 1),
    (ONE_INPUT, 2),
    (ONE_INPUT, 3),
    (ONE_INPUT, 4),
    (TWO_INPUTS, 0),
    (TWO_INPUTS, 3),
    (&[INPUT, OUTPUT, SECOND, SAME_NAMES], 0),
    (&[INPUT, OUTPUT], 0),
    (&[TASK, OUTPUT], 0),
    (&[TASK, INPUT], 0),
    (&[TASK, ("t.csv", "id,v\n1\n")], 0),
    (&[TASK, INPUT, ("o.csv", "a,b,c,d,e\n")], 0),
    (&[("task.toml", "ops = 2\n"), INPUT, OUTPUT], 0),
];

// The numbers of a task.
fn numbers(rt: &impl Print, parts: &TaskParts) -> Result<(), Failed> {
    let numbers = [parts.ops, parts.leaves, parts.atoms, parts.show];
    print!(rt; "a task: {numbers:?}, ")?;
    println!(rt; "{}, {:?}", parts.budget, parts.aggregates)?;
    Ok(())
}

// The parts of a task.
fn parts(rt: &impl Print, parts: &TaskParts) -> Result<(), Failed> {
    numbers(rt, parts)?;
    for input in parts.inputs.as_slice() {
        tell(rt, "  ", &Grid(input), "")?;
    }
    tell(rt, "  ", &Grid(&parts.output), "")?;
    for constant in parts.constants.as_slice() {
        tell(rt, "  constant ", &Cell(constant), "")?;
    }
    Ok(())
}

// A task, or why there is none.
fn told(rt: &impl Print, read: &Result<Task, TaskEnd>) -> Result<(), Failed> {
    match read {
        Ok(task) => parts(rt, task.parts()),
        Err(TaskEnd::ReadFault { file }) => tell(rt, "can't read ", &text(file.as_slice()), ""),
        Err(TaskEnd::Bad(_)) => tell(rt, "", &"something is wrong", ""),
        Err(TaskEnd::OutOfMemory) => Err(Failed::NoMemory),
    }
}

// The task of a folder.
fn task<F: Folder>(rt: &impl Print, alloc: Global, folder: &mut F) -> Result<(), Failed> {
    told(rt, &read_task(alloc, folder, b"task.toml"))
}

// A folder of files of which one read fails.
fn failing(alloc: Global, held: Files, fail: u64) -> Result<MemFolder, Failed> {
    let fails = fails(alloc, fail)?;
    Ok(MemFolder::new(alloc, files(alloc, held)?, fails)?)
}

fn case(rt: &impl Print, alloc: Global, case: &(Files, u64)) -> Result<(), Failed> {
    task(rt, alloc, &mut failing(alloc, case.0, case.1)?)
}

// The task of files that are always read.
fn sure(rt: &impl Print, alloc: Global, held: Files) -> Result<(), Failed> {
    task(rt, alloc, &mut SureFolder::new(files(alloc, held)?))
}

pub fn samples(rt: &impl Print, alloc: Global) -> Result<(), Failed> {
    for it in CASES {
        case(rt, alloc, it)?;
    }
    sure(rt, alloc, ONE_INPUT)?;
    sure(rt, alloc, &[TASK, OUTPUT])
}
