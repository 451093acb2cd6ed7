ghost use Rattle.std.specs.Prelude.{◌≡◌, IfOk};

use crate::fault::OutOfMemory;
use crate::word::Word;
use std::alloc::Global;

/// The type of a column. NULL belongs to both.
#[derive(Clone, Copy, Debug, PartialEq, Eq)]
pub enum ColType {
    Int,
    Text,
}

/// NULL, a whole number of 64 bits, or a text.
#[derive(Debug, Drop)]
pub enum Value {
    Null,
    Int(i64),
    Text(Word),
}

impl ColType {
    ghost use Rattle.value_core.specs.Value.{fits, is_of_type};

    /// Whether a value is of this type, which NULL isn't.
    pub fn is_type_of(self, value: &Value) -> bool
        ensures { result ≡ is_of_type self value.now }
    {
        value.kind() == Some(self)
    }

    /// Whether a value may stand in a column of this type: NULL, or a value of it.
    pub fn fits(self, value: &Value) -> bool
        ensures { result ≡ fits self value.now }
    {
        value.is_null() || self.is_type_of(value)
    }
}

impl Value {
    ghost use Rattle.value_core.specs.Value.{is_null, type_of};

    /// Whether this is NULL.
    pub fn is_null(&self) -> bool
        ensures { result ≡ is_null self.now }
    {
        matches!(self, Value::Null)
    }

    /// The type of this value, which NULL hasn't.
    pub fn kind(&self) -> Option<ColType>
        ensures { result ≡ type_of self.now }
    {
        match self {
            Value::Null => None,
            Value::Int(_) => Some(ColType::Int),
            Value::Text(_) => Some(ColType::Text),
        }
    }

    /// An equal value.
    pub fn copy(&self, alloc: Global) -> Result<Value, OutOfMemory>
        ensures { IfOk result (λ v. v ≡ self.now) }
    {
        match self {
            Value::Null => Ok(Value::Null),
            Value::Int(number) => Ok(Value::Int(*number)),
            Value::Text(word) => Ok(Value::Text(word.copy(alloc)?)),
        }
    }
}
