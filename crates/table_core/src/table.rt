ghost use Rattle.std.specs.Prelude.{◌≡◌, ◌∷◌, ◌++◌, [], IfOk, OnOk, OnErr, IfErr, IfSome, Err, Some, None, true};
ghost use Rattle.table_core.specs.Rows.{wrong_cell, push_fault, are_typed, empty_table, with_rows};

use crate::column::Column;
use crate::tuple::Tuple;
use std::alloc::Global;
use std::marker::Model;
use thiserror::Error;
use value_core::{OutOfMemory, Value, Word};

/// Why a row isn't pushed: another number of cells, a cell of a wrong type, or no memory.
#[derive(Debug, Drop, Error)]
pub enum PushFault {
    #[error("a row of {got} cells")]
    Width { got: usize },
    #[error("a cell of a wrong type in column {column}")]
    WrongType { column: usize },
    #[error("out of memory")]
    OutOfMemory,
}

/// A named table of typed columns: each cell is NULL or of its column's type.
#[derive(Debug, Drop)]
pub struct Table {
    name: Word,
    columns: Vec<Column>,
    tuples: Vec<Tuple>,
}

impl Model for Table {
    ghost use Rattle.std.specs.Prelude.{◌≡◌, true};
    ghost use Rattle.table_core.specs.Rows.{TableData, are_typed};

    ghost Value = { TableData };

    ghost view = { λ t. record { name = t.name; columns = t.columns.items; rows = t.tuples.items } };

    ghost invariant = { λ t. are_typed t.columns.items t.tuples.items ≡ true };
}

// The least column whose cell isn't of its type.
fn wrong_cell(columns: &[Column], cells: &[Value]) -> Option<usize>
    ensures { result ≡ wrong_cell 0 columns.now cells.now }
{
    for (at, column) in columns.iter().enumerate() {
        if at >= cells.len() {
            return None;
        }
        if !column.kind.fits(&cells[at]) {
            return Some(at);
        }
    }
    None
}

// Why a row can't stand under these columns.
fn fault_of(columns: &[Column], cells: &[Value]) -> Option<PushFault>
    ensures { result ≡ push_fault columns.now cells.now }
{
    if cells.len() != columns.len() {
        return Some(PushFault::Width { got: cells.len() });
    }
    match wrong_cell(columns, cells) {
        Some(column) => Some(PushFault::WrongType { column }),
        None => None,
    }
}

// Appends copies of these columns.
fn push_columns(alloc: Global, out: &mut Vec<Column>, columns: &[Column]) -> Result<(), OutOfMemory>
    ensures { OnOk result (out.new.items ≡ out.old.items ++ columns.now) }
{
    for column in columns {
        out.push(column.copy(alloc)?)?;
    }
    Ok(())
}

// Appends copies of these rows.
fn push_tuples(alloc: Global, out: &mut Vec<Tuple>, tuples: &[Tuple]) -> Result<(), OutOfMemory>
    ensures { OnOk result (out.new.items ≡ out.old.items ++ tuples.now) }
{
    for tuple in tuples {
        out.push(tuple.copy(alloc)?)?;
    }
    Ok(())
}

impl Table {
    /// A table without rows.
    pub fn new(alloc: Global, name: Word, columns: Vec<Column>) -> Table
        ensures { result ≡ empty_table name columns.items }
    {
        Table {
            name,
            columns,
            tuples: Vec::new(alloc),
        }
    }

    /// The table of these rows, each of which fits the columns.
    pub fn with_rows(name: Word, columns: Vec<Column>, tuples: Vec<Tuple>) -> Table
        requires { are_typed columns.items tuples.items ≡ true }
        ensures { result ≡ with_rows (empty_table name columns.items) tuples.items }
    {
        Table {
            name,
            columns,
            tuples,
        }
    }

    /// Appends a row. A row that is refused is dropped, and the table stays as it was.
    pub fn push_row(&mut self, tuple: Tuple) -> Result<(), PushFault>
        ensures ok { OnOk result (self.new ≡ with_rows self.old (self.old.rows ++ tuple ∷ [])) }
        ensures err { OnErr result (self.new ≡ self.old) }
        ensures refused { IfSome (push_fault self.old.columns tuple) (λ fault. result ≡ Err fault) }
        ensures fits { push_fault self.old.columns tuple ≡ None → IfErr result (λ fault. fault ≡ PushFault.OutOfMemory) }
    {
        if let Some(fault) = fault_of(self.columns.as_slice(), tuple.cells()) {
            return Err(fault);
        }
        match self.tuples.push(tuple) {
            Ok(()) => Ok(()),
            Err(_) => Err(PushFault::OutOfMemory),
        }
    }

    pub fn name(&self) -> &Word
        ensures { result.now ≡ self.now.name }
    {
        &self.name
    }

    pub fn columns(&self) -> &[Column]
        ensures { result.now ≡ self.now.columns }
    {
        self.columns.as_slice()
    }

    pub fn tuples(&self) -> &[Tuple]
        ensures rows { result.now ≡ self.now.rows }
        ensures typed { are_typed self.now.columns result.now ≡ true }
    {
        self.tuples.as_slice()
    }

    /// An equal table.
    pub fn copy(&self, alloc: Global) -> Result<Table, OutOfMemory>
        ensures { IfOk result (λ t. t ≡ self.now) }
    {
        let name = self.name.copy(alloc)?;
        let mut columns = Vec::new(alloc);
        push_columns(alloc, &mut columns, self.columns.as_slice())?;
        let mut tuples = Vec::new(alloc);
        push_tuples(alloc, &mut tuples, self.tuples.as_slice())?;
        Ok(Table {
            name,
            columns,
            tuples,
        })
    }
}
