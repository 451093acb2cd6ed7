ghost use Rattle.std.specs.Prelude.{◌≡◌};
ghost use Rattle.predicate_core.specs.Truth.{both, either, truth, keeps};

use crate::atom::{Atom, atom_truth};
use value_core::{Truth, Value};

/// A condition on a row: always, one atom, or two or three atoms joined by AND or by OR.
#[derive(Clone, Copy, Debug, PartialEq, Eq)]
pub enum Pred {
    Always,
    One(Atom),
    And2(Atom, Atom),
    Or2(Atom, Atom),
    And3(Atom, Atom, Atom),
    Or3(Atom, Atom, Atom),
}

// AND of two truths.
fn both(a: Truth, b: Truth) -> Truth
    ensures { result ≡ both a b }
{
    match (a, b) {
        (Truth::Yes, _) => b,
        (Truth::No, _) => Truth::No,
        (Truth::Unknown, Truth::No) => Truth::No,
        (Truth::Unknown, _) => Truth::Unknown,
    }
}

// OR of two truths.
fn either(a: Truth, b: Truth) -> Truth
    ensures { result ≡ either a b }
{
    match (a, b) {
        (Truth::Yes, _) => Truth::Yes,
        (Truth::No, _) => b,
        (Truth::Unknown, Truth::Yes) => Truth::Yes,
        (Truth::Unknown, _) => Truth::Unknown,
    }
}

/// The truth of a predicate on a row, given the task's constants.
///
/// A column or a constant that isn't there counts as NULL.
pub fn truth(pred: &Pred, row: &[Value], constants: &[Value]) -> Truth
    ensures { result ≡ truth constants.now pred.now row.now }
{
    match *pred {
        Pred::Always => Truth::Yes,
        Pred::One(a) => atom_truth(a, row, constants),
        Pred::And2(a, b) => both(atom_truth(a, row, constants), atom_truth(b, row, constants)),
        Pred::Or2(a, b) => either(atom_truth(a, row, constants), atom_truth(b, row, constants)),
        Pred::And3(a, b, c) => {
            let rest = both(atom_truth(b, row, constants), atom_truth(c, row, constants));
            both(atom_truth(a, row, constants), rest)
        }
        Pred::Or3(a, b, c) => {
            let rest = either(atom_truth(b, row, constants), atom_truth(c, row, constants));
            either(atom_truth(a, row, constants), rest)
        }
    }
}

/// Whether a predicate keeps a row: exactly where its truth is yes.
pub fn keeps(pred: &Pred, row: &[Value], constants: &[Value]) -> bool
    ensures { result ≡ keeps constants.now pred.now row.now }
{
    match truth(pred, row, constants) {
        Truth::Yes => true,
        Truth::No | Truth::Unknown => false,
    }
}
