ghost use Rattle.std.specs.Prelude.{◌≡◌, ◌++◌, OnOk, IfOk, codes, map};
ghost use Rattle.predicate_core.specs.Truth.{value_at};
ghost use Rattle.sql_print.specs.Sql.{literal, operator, text_at, separated, atom_text, pred_text};

use crate::literal::{operator, push_value};
use crate::push::{push_between, push_bytes};
use predicate_core::{Atom, Pred};
use sqlite_items::Items;
use std::alloc::Global;
use value_core::{Bytes, CmpOp, OutOfMemory, Value};

// A text of a list, empty where there is none.
pub fn text_at(texts: &[Bytes], at: usize) -> &[u8]
    ensures { result.now ≡ text_at texts.now at }
{
    match texts.get(at) {
        Some(text) => text.as_slice(),
        None => &[],
    }
}

// Appends a constant, NULL where there is none.
fn push_constant(
    alloc: Global,
    out: &mut Vec<u8>,
    constants: &[Value],
    at: usize,
) -> Result<(), OutOfMemory>
    ensures { OnOk result (out.new.items ≡ out.old.items ++ literal (value_at constants.now at)) }
{
    match constants.get(at) {
        Some(value) => push_value(alloc, out, value),
        None => push_value(alloc, out, &Value::Null),
    }
}

// Appends a column and a comparison with what follows.
fn push_left(out: &mut Vec<u8>, columns: &[Bytes], i: usize, op: CmpOp) -> Result<(), OutOfMemory>
    ensures { OnOk result (out.new.items ≡ out.old.items ++ text_at columns.now i ++ codes " " ++ operator op ++ codes " ") }
{
    push_bytes(out, text_at(columns, i))?;
    push_bytes(out, b" ")?;
    push_bytes(out, operator(op))?;
    push_bytes(out, b" ")
}

// Appends an atom over columns of these texts.
fn push_atom(
    alloc: Global,
    out: &mut Vec<u8>,
    constants: &[Value],
    columns: &[Bytes],
    atom: Atom,
) -> Result<(), OutOfMemory>
    ensures { OnOk result (out.new.items ≡ out.old.items ++ atom_text constants.now columns.now atom) }
{
    match atom {
        Atom::Cols(i, op, j) => {
            push_left(out, columns, i, op)?;
            push_bytes(out, text_at(columns, j))
        }
        Atom::Const(i, op, k) => {
            push_left(out, columns, i, op)?;
            push_constant(alloc, out, constants, k)
        }
        Atom::IsNull(i) => {
            push_bytes(out, text_at(columns, i))?;
            push_bytes(out, b" IS NULL")
        }
        Atom::NotNull(i) => {
            push_bytes(out, text_at(columns, i))?;
            push_bytes(out, b" IS NOT NULL")
        }
    }
}

// An atom over columns of these texts.
fn atom_text(
    alloc: Global,
    constants: &[Value],
    columns: &[Bytes],
    atom: Atom,
) -> Result<Bytes, OutOfMemory>
    ensures { IfOk result (λ text. text ≡ atom_text constants.now columns.now atom) }
{
    let mut out = Vec::new(alloc);
    push_atom(alloc, &mut out, constants, columns, atom)?;
    Ok(Bytes::from_vec(out))
}

// The texts of these atoms.
fn atom_texts(
    alloc: Global,
    constants: &[Value],
    columns: &[Bytes],
    atoms: &[Atom],
) -> Result<Items<Bytes>, OutOfMemory>
    ensures { IfOk result (λ texts. texts ≡ map (atom_text constants.now columns.now) atoms.now) }
{
    let mut texts = Items::new(alloc);
    for atom in atoms {
        texts.push(atom_text(alloc, constants, columns, *atom)?)?;
    }
    Ok(texts)
}

// Appends these atoms, joined by a separator.
fn push_atoms(
    alloc: Global,
    out: &mut Vec<u8>,
    constants: &[Value],
    columns: &[Bytes],
    separator: &[u8],
    atoms: &[Atom],
) -> Result<(), OutOfMemory>
    ensures { OnOk result (out.new.items ≡ out.old.items ++ separated separator.now (map (atom_text constants.now columns.now) atoms.now)) }
{
    let texts = atom_texts(alloc, constants, columns, atoms)?;
    push_between(out, separator, texts.as_slice())
}

// Appends a predicate over columns of these texts.
pub fn push_pred(
    alloc: Global,
    out: &mut Vec<u8>,
    constants: &[Value],
    columns: &[Bytes],
    pred: &Pred,
) -> Result<(), OutOfMemory>
    ensures { OnOk result (out.new.items ≡ out.old.items ++ pred_text constants.now columns.now pred.now) }
{
    match *pred {
        Pred::Always => push_bytes(out, b"1 = 1"),
        Pred::One(a) => push_atom(alloc, out, constants, columns, a),
        Pred::And2(a, b) => push_atoms(alloc, out, constants, columns, b" AND ", &[a, b]),
        Pred::Or2(a, b) => push_atoms(alloc, out, constants, columns, b" OR ", &[a, b]),
        Pred::And3(a, b, c) => push_atoms(alloc, out, constants, columns, b" AND ", &[a, b, c]),
        Pred::Or3(a, b, c) => push_atoms(alloc, out, constants, columns, b" OR ", &[a, b, c]),
    }
}
