ghost use Rattle.std.specs.Prelude.{◌≡◌, IfOk, Some, None, Ok, Err, OnOk, ◌++◌};

use crate::agg_set::AggSet;
use crate::limits::{MOST_ATOMS, first_bad_part};
use crate::table::Table;
use sqlite_items::Items;
use std::alloc::Global;
use std::marker::Model;
use value_core::{OutOfMemory, Value};

/// What a task is made of.
#[derive(Debug, Drop)]
pub struct TaskParts {
    pub inputs: Items<Table>,
    pub output: Table,
    pub constants: Items<Value>,
    pub aggregates: AggSet,
    pub ops: u32,
    pub leaves: u32,
    pub atoms: u32,
    pub show: u32,
    pub budget: u64,
}

/// The first part of a task that is out of its limits, from 1 to 9 in the order of the fields.
#[derive(Clone, Copy, Debug, PartialEq, Eq)]
pub struct BadPart {
    pub part: u8,
}

/// A task whose parts are all within their limits.
#[derive(Debug, Drop)]
pub struct Task {
    parts: TaskParts,
}

impl Model for Task {
    ghost use Rattle.std.specs.Prelude.{◌≡◌, None};
    ghost use Rattle.table_core.specs.declared.task.TaskParts.{TaskParts};

    ghost Value = { TaskParts };

    ghost use Rattle.table_core.specs.Limits.{first_bad_part};

    ghost view = { λ t. t.parts };

    ghost invariant = { λ t. first_bad_part t.parts ≡ None };
}

// Appends copies of these tables.
fn push_tables(alloc: Global, out: &mut Items<Table>, tables: &[Table]) -> Result<(), OutOfMemory>
    ensures { OnOk result (out.new ≡ out.old ++ tables.now) }
{
    for table in tables {
        out.push(table.copy(alloc)?)?;
    }
    Ok(())
}

// Appends copies of these values.
fn push_values(alloc: Global, out: &mut Items<Value>, values: &[Value]) -> Result<(), OutOfMemory>
    ensures { OnOk result (out.new ≡ out.old ++ values.now) }
{
    for value in values {
        out.push(value.copy(alloc)?)?;
    }
    Ok(())
}

impl TaskParts {
    /// Equal parts.
    pub fn copy(&self, alloc: Global) -> Result<TaskParts, OutOfMemory>
        ensures { IfOk result (λ parts. parts ≡ self.now) }
    {
        let mut inputs = Items::new(alloc);
        push_tables(alloc, &mut inputs, self.inputs.as_slice())?;
        let output = self.output.copy(alloc)?;
        let mut constants = Items::new(alloc);
        push_values(alloc, &mut constants, self.constants.as_slice())?;
        Ok(TaskParts {
            inputs,
            output,
            constants,
            aggregates: self.aggregates,
            ops: self.ops,
            leaves: self.leaves,
            atoms: self.atoms,
            show: self.show,
            budget: self.budget,
        })
    }
}

impl Task {
    ghost use Rattle.std.specs.Prelude.{◌≡◌, ◌≤◌, IfOk, Some, None, Ok, Err, MatchOption};
    ghost use Rattle.table_core.specs.Limits.{first_bad_part};

    /// The task of these parts, which are dropped where one is out of its limits.
    pub fn new(parts: TaskParts) -> Result<Task, BadPart>
        ensures { MatchOption (first_bad_part parts) (result ≡ Ok parts) (λ n. result ≡ Err (record { part = n })) }
    {
        match first_bad_part(&parts) {
            None => Ok(Task { parts }),
            Some(part) => Err(BadPart { part }),
        }
    }

    pub fn parts(&self) -> &TaskParts
        ensures parts { result.now ≡ self.now }
        ensures within { first_bad_part result.now ≡ None }
    {
        &self.parts
    }

    pub fn inputs(&self) -> &[Table]
        ensures { result.now ≡ self.now.inputs }
    {
        self.parts.inputs.as_slice()
    }

    pub fn output(&self) -> &Table
        ensures { result.now ≡ self.now.output }
    {
        &self.parts.output
    }

    pub fn constants(&self) -> &[Value]
        ensures { result.now ≡ self.now.constants }
    {
        self.parts.constants.as_slice()
    }

    /// The most atoms of a predicate.
    #[tactic(auto, using(crate::proofs::LimitLaws::atoms_within))]
    pub fn atoms(&self) -> u32
        ensures value { result ≡ self.now.atoms }
        ensures some { 1 ≤ result }
        ensures few { result ≤ MOST_ATOMS }
    {
        self.parts.atoms
    }

    /// An equal task.
    pub fn copy(&self, alloc: Global) -> Result<Task, OutOfMemory>
        ensures { IfOk result (λ task. task ≡ self.now) }
    {
        Ok(Task {
            parts: self.parts.copy(alloc)?,
        })
    }
}
