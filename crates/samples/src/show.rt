//! How the samples print what has no text of its own.

use over_cells::AbsCell;
use std::{fmt, str};
use table_core::{Column, Table, Tuple};
use toml_keys::KeyFault;
use value_core::Value;

/// The text of some bytes.
pub fn text(bytes: &[u8]) -> &str {
    str::from_utf8(bytes).unwrap_or("not UTF-8")
}

/// A value: a dash for NULL, a number, or a text in quotes.
#[derive(Clone, Copy)]
pub struct Cell<'a>(pub &'a Value);

impl fmt::Display for Cell<'_> {
    fn fmt<W: fmt::Write>(&self, f: &mut fmt::Formatter<W>) -> fmt::Result {
        match self.0 {
            Value::Null => write!(f, "-"),
            Value::Int(number) => write!(f, "{number}"),
            Value::Text(word) => write!(f, "'{}'", text(word.as_slice())),
        }
    }
}

/// A row: its values between bars.
#[derive(Clone, Copy)]
pub struct Row<'a>(pub &'a Tuple);

impl fmt::Display for Row<'_> {
    fn fmt<W: fmt::Write>(&self, f: &mut fmt::Formatter<W>) -> fmt::Result {
        write!(f, "|")?;
        for value in self.0.cells() {
            write!(f, "{}|", Cell(value))?;
        }
        Ok(())
    }
}

/// Rows, each after a space.
#[derive(Clone, Copy)]
pub struct Rows<'a>(pub &'a [Tuple]);

impl fmt::Display for Rows<'_> {
    fn fmt<W: fmt::Write>(&self, f: &mut fmt::Formatter<W>) -> fmt::Result {
        for row in self.0 {
            write!(f, " {}", Row(row))?;
        }
        Ok(())
    }
}

/// An abstract cell: a value, some values, a span of numbers, or any value; with a question mark where it may be NULL beside these.
#[derive(Clone, Copy)]
pub struct AbstractCell<'a>(pub &'a AbsCell);

// The sign of what may be NULL.
fn mark(null: bool) -> &'static str {
    if null { "?" } else { "" }
}

impl fmt::Display for AbstractCell<'_> {
    fn fmt<W: fmt::Write>(&self, f: &mut fmt::Formatter<W>) -> fmt::Result {
        match self.0 {
            AbsCell::Known(value) => write!(f, "{}", Cell(value)),
            AbsCell::From { values, null } => {
                for value in values.as_slice() {
                    write!(f, "{} ", Cell(value))?;
                }
                write!(f, "{}", mark(*null))
            }
            AbsCell::Within { lo, hi, null } => write!(f, "{lo}..{hi}{}", mark(*null)),
            AbsCell::Any => write!(f, "*"),
        }
    }
}

/// An abstract row: its cells between bars.
#[derive(Clone, Copy)]
pub struct Abstract<'a>(pub &'a [AbsCell]);

impl fmt::Display for Abstract<'_> {
    fn fmt<W: fmt::Write>(&self, f: &mut fmt::Formatter<W>) -> fmt::Result {
        write!(f, "|")?;
        for cell in self.0 {
            write!(f, "{}|", AbstractCell(cell))?;
        }
        Ok(())
    }
}

/// A column: its name and its type.
#[derive(Clone, Copy)]
pub struct Head<'a>(pub &'a Column);

impl fmt::Display for Head<'_> {
    fn fmt<W: fmt::Write>(&self, f: &mut fmt::Formatter<W>) -> fmt::Result {
        write!(f, "{}: {:?}", text(self.0.name.as_slice()), self.0.kind)
    }
}

/// A table: its name, its columns in brackets, and its rows.
#[derive(Clone, Copy)]
pub struct Grid<'a>(pub &'a Table);

impl fmt::Display for Grid<'_> {
    fn fmt<W: fmt::Write>(&self, f: &mut fmt::Formatter<W>) -> fmt::Result {
        write!(f, "{}", text(self.0.name().as_slice()))?;
        for column in self.0.columns() {
            write!(f, " [{}]", Head(column))?;
        }
        write!(f, "{}", Rows(self.0.tuples()))
    }
}

/// What is wrong with a key.
#[derive(Clone, Copy)]
pub struct Key<'a>(pub &'a KeyFault);

impl fmt::Display for Key<'_> {
    fn fmt<W: fmt::Write>(&self, f: &mut fmt::Formatter<W>) -> fmt::Result {
        match self.0 {
            KeyFault::UnknownKey { key } => write!(f, "unknown {}", text(key.as_slice())),
            KeyFault::MissingKey { key } => write!(f, "missing {}", text(key.as_slice())),
            KeyFault::BadKey { key } => write!(f, "bad {}", text(key.as_slice())),
        }
    }
}
