ghost use Rattle.std.specs.Prelude.{◌≡◌};
ghost use Rattle.std.specs.Bool.{Decides};
ghost use Rattle.std.specs.Cmp.{IsTotalOrder};
ghost use Rattle.value_core.specs.Value.{order, same, compare};

use crate::value::Value;
use std::cmp::Ordering;

/// The truth of a condition: a comparison with NULL is unknown.
#[derive(Clone, Copy, Debug, PartialEq, Eq)]
pub enum Truth {
    Yes,
    No,
    Unknown,
}

/// `=`, `<>`, `<`, `<=`, `>` or `>=`.
#[derive(Clone, Copy, Debug, PartialEq, Eq)]
pub enum CmpOp {
    Eq,
    Ne,
    Lt,
    Le,
    Gt,
    Ge,
}

impl CmpOp {
    ghost use Rattle.value_core.specs.Value.{holds};

    // Whether the comparison holds of two values that stand in this order.
    fn holds(self, order: Ordering) -> bool
        ensures { result ≡ holds self order }
    {
        match self {
            CmpOp::Eq => order.is_eq(),
            CmpOp::Ne => order.is_ne(),
            CmpOp::Lt => order.is_lt(),
            CmpOp::Le => order.is_le(),
            CmpOp::Gt => order.is_gt(),
            CmpOp::Ge => order.is_ge(),
        }
    }
}

/// The total order of values: NULL, then numbers by size, then texts by their bytes.
pub fn order(a: &Value, b: &Value) -> Ordering
    ensures { result ≡ order a.now b.now }
{
    match (a, b) {
        (Value::Null, Value::Null) => Ordering::Equal,
        (Value::Null, _) => Ordering::Less,
        (Value::Int(_), Value::Null) => Ordering::Greater,
        (Value::Int(n), Value::Int(m)) => n.cmp(m),
        (Value::Int(_), Value::Text(_)) => Ordering::Less,
        (Value::Text(s), Value::Text(t)) => s.as_slice().cmp(t.as_slice()),
        (Value::Text(_), _) => Ordering::Greater,
    }
}

/// Whether two values are the same, NULL being the same as NULL.
pub fn same(a: &Value, b: &Value) -> bool
    ensures { result ≡ same a.now b.now }
{
    order(a, b) == Ordering::Equal
}

/// The law of `order`: it is a total order.
#[tactic(auto, using(crate::proofs::ValueLaws::order_total))]
pub fn order_is_total()
    ensures { IsTotalOrder order }
{}

/// The law of `same`: it tells exactly the values that are equal.
#[tactic(auto, using(crate::proofs::ValueLaws::same_decides))]
pub fn same_is_equality(a: &Value, b: &Value)
    ensures { Decides (same a.now b.now) (a.now ≡ b.now) }
{}

/// SQL's comparison: unknown exactly where a side is NULL.
pub fn compare(op: CmpOp, a: &Value, b: &Value) -> Truth
    ensures { result ≡ compare op a.now b.now }
{
    if a.is_null() || b.is_null() {
        return Truth::Unknown;
    }
    if op.holds(order(a, b)) {
        Truth::Yes
    } else {
        Truth::No
    }
}
