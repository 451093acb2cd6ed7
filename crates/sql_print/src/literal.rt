ghost use Rattle.std.specs.Prelude.{◌≡◌, ◌++◌, OnOk};
ghost use Rattle.sql_print.specs.Sql.{literal, operator};

use crate::push::{push_bytes, push_integer, push_quoted};
use std::alloc::Global;
use value_core::{CmpOp, OutOfMemory, Value};

// Appends a value as SQL writes it.
pub fn push_value(alloc: Global, out: &mut Vec<u8>, value: &Value) -> Result<(), OutOfMemory>
    ensures { OnOk result (out.new.items ≡ out.old.items ++ literal value.now) }
{
    match value {
        Value::Null => push_bytes(out, b"NULL"),
        Value::Int(number) => push_integer(alloc, out, *number),
        Value::Text(text) => push_quoted(out, b'\'', text.as_slice()),
    }
}

// A comparison as SQL writes it.
pub fn operator(op: CmpOp) -> &'static [u8]
    ensures { result.now ≡ operator op }
{
    match op {
        CmpOp::Eq => b"=",
        CmpOp::Ne => b"<>",
        CmpOp::Lt => b"<",
        CmpOp::Le => b"<=",
        CmpOp::Gt => b">",
        CmpOp::Ge => b">=",
    }
}
