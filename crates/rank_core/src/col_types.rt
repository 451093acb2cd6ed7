ghost use Rattle.std.specs.Prelude.{◌≡◌, ◌+◌, ◌<◌, ◌≤◌, [], ◌∷◌, ◌++◌, length};
ghost use Rattle.table_core.specs.Rows.{types_of};
ghost use Rattle.query_core.specs.Meaning.{group_types};

use query_core::{Agg, agg_type, type_at};
use std::marker::Model;
use table_core::{MOST_COLUMNS, MOST_LEAVES, Table};
use value_core::ColType;

/// The most columns that a tree of a task has: those of its leaves.
pub(crate) const MOST_TYPES: usize = MOST_LEAVES as usize * MOST_COLUMNS;

/// The types of a tree's columns, which lie in the value itself.
#[derive(Drop)]
pub(crate) struct ColTypes {
    kinds: [ColType; MOST_TYPES],
    len: usize,
}

impl Model for ColTypes {
    ghost use Rattle.std.specs.Prelude.{◌≡◌, ◌≤◌, List, length, take};
    ghost use Rattle.value_core.specs.declared.value.ColType.{ColType};
    ghost use Rattle.rank_core.specs.declared.col_types.TheConstants.{MOST_TYPES};

    ghost Value = { List ColType };

    ghost view = { λ t. take t.len t.kinds };

    ghost invariant = { λ t. (t.len ≤ MOST_TYPES) × (length t.kinds ≡ MOST_TYPES) };
}

impl ColTypes {
    /// The types of no column.
    pub(crate) fn new() -> ColTypes
        ensures { result ≡ [] }
    {
        ColTypes {
            kinds: [ColType::Int; MOST_TYPES],
            len: 0,
        }
    }

    pub(crate) fn as_slice(&self) -> &[ColType]
        ensures value { result.now ≡ self.now }
        ensures fits { length result.now ≤ MOST_TYPES }
    {
        &self.kinds[..self.len]
    }

    /// Appends a type. There must be room.
    pub(crate) fn push(&mut self, kind: ColType)
        requires { length self.old < MOST_TYPES }
        ensures { self.new ≡ self.old ++ kind ∷ [] }
    {
        let len = self.len;
        self.kinds[len] = kind;
        self.len = len + 1;
    }

    /// Appends types. There must be room.
    pub(crate) fn append(&mut self, kinds: &[ColType])
        requires { length self.old + length kinds.now ≤ MOST_TYPES }
        ensures { self.new ≡ self.old ++ kinds.now }
    {
        for kind in kinds {
            self.push(*kind);
        }
    }

    /// The types of a table's columns.
    pub(crate) fn of_table(table: &Table) -> ColTypes
        requires { length table.now.columns ≤ MOST_TYPES }
        ensures { result ≡ types_of table.now }
    {
        let mut types = ColTypes::new();
        for column in table.columns() {
            types.push(column.kind);
        }
        types
    }

    /// The types of a group's columns, where it has at most two keys.
    pub(crate) fn of_group(types: &[ColType], keys: &[usize], agg: &Agg) -> ColTypes
        requires { length keys.now ≤ 2 }
        ensures { result ≡ group_types types.now keys.now agg.now }
    {
        let mut out = ColTypes::new();
        for key in keys {
            out.push(type_at(types, *key));
        }
        out.push(agg_type(types, agg));
        out
    }
}
