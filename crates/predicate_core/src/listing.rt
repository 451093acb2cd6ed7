ghost use Rattle.std.specs.Prelude.{◌≡◌, ◌∷◌, ◌++◌, ◌+◌, ◌<◌, ◌≤◌, length, drop, if◌then◌else◌, IfOk, OnOk, [], map};
ghost use Rattle.predicate_core.specs.Atoms.{comparisons, column_with_columns, columns_compared, column_with_constants, constants_compared, null_tests, atom_list};
ghost use Rattle.value_core.specs.Value.{same_type, is_of_type};
ghost use Rattle.predicate_core.specs.declared.atom.Atom.TheVariants.{Cols, Const, IsNull, NotNull};

use crate::atom::Atom;
use sqlite_items::Items;
use std::alloc::{AllocError, Global};
use value_core::{CmpOp, ColType, OutOfMemory, Value};

// Appends column i compared with column j in the six ways.
fn push_columns(atoms: &mut Items<Atom>, i: usize, j: usize) -> Result<(), AllocError>
    ensures { OnOk result (atoms.new ≡ atoms.old ++ map (λ op. Cols i op j) comparisons) }
{
    atoms.push(Atom::Cols(i, CmpOp::Eq, j))?;
    atoms.push(Atom::Cols(i, CmpOp::Ne, j))?;
    atoms.push(Atom::Cols(i, CmpOp::Lt, j))?;
    atoms.push(Atom::Cols(i, CmpOp::Le, j))?;
    atoms.push(Atom::Cols(i, CmpOp::Gt, j))?;
    atoms.push(Atom::Cols(i, CmpOp::Ge, j))
}

// Appends column i compared with constant k in the six ways.
fn push_constant(atoms: &mut Items<Atom>, i: usize, k: usize) -> Result<(), AllocError>
    ensures { OnOk result (atoms.new ≡ atoms.old ++ map (λ op. Const i op k) comparisons) }
{
    atoms.push(Atom::Const(i, CmpOp::Eq, k))?;
    atoms.push(Atom::Const(i, CmpOp::Ne, k))?;
    atoms.push(Atom::Const(i, CmpOp::Lt, k))?;
    atoms.push(Atom::Const(i, CmpOp::Le, k))?;
    atoms.push(Atom::Const(i, CmpOp::Gt, k))?;
    atoms.push(Atom::Const(i, CmpOp::Ge, k))
}

// Appends column i compared with column j, if they are of one type.
fn push_column_pair(
    atoms: &mut Items<Atom>,
    i: usize,
    t: ColType,
    j: usize,
    u: ColType,
) -> Result<(), AllocError>
    ensures { OnOk result (atoms.new ≡ atoms.old ++ (if same_type t u then map (λ op. Cols i op j) comparisons else [])) }
{
    if t == u {
        push_columns(atoms, i, j)
    } else {
        Ok(())
    }
}

// Appends column i compared with constant k, if that is of the column's type.
fn push_column_constant(
    atoms: &mut Items<Atom>,
    i: usize,
    t: ColType,
    k: usize,
    value: &Value,
) -> Result<(), AllocError>
    ensures { OnOk result (atoms.new ≡ atoms.old ++ (if is_of_type t value.now then map (λ op. Const i op k) comparisons else [])) }
{
    if t.is_type_of(value) {
        push_constant(atoms, i, k)
    } else {
        Ok(())
    }
}

// Appends column i compared with each later column of its type.
fn push_later_columns(
    atoms: &mut Items<Atom>,
    types: &[ColType],
    i: usize,
    t: ColType,
) -> Result<(), AllocError>
    requires { i < length types.now }
    ensures { OnOk result (atoms.new ≡ atoms.old ++ column_with_columns i t (i + 1) (drop (i + 1) types.now)) }
{
    for j in i + 1..types.len() {
        push_column_pair(atoms, i, t, j, types[j])?;
    }
    Ok(())
}

// Appends each two columns of one type compared.
fn push_columns_compared(atoms: &mut Items<Atom>, types: &[ColType]) -> Result<(), AllocError>
    ensures { OnOk result (atoms.new ≡ atoms.old ++ columns_compared 0 types.now) }
{
    for i in 0..types.len() {
        push_later_columns(atoms, types, i, types[i])?;
    }
    Ok(())
}

// Appends column i compared with each constant of its type.
fn push_constants(
    atoms: &mut Items<Atom>,
    constants: &[Value],
    i: usize,
    t: ColType,
) -> Result<(), AllocError>
    ensures { OnOk result (atoms.new ≡ atoms.old ++ column_with_constants i t 0 constants.now) }
{
    for k in 0..constants.len() {
        push_column_constant(atoms, i, t, k, &constants[k])?;
    }
    Ok(())
}

// Appends each column compared with each constant of its type.
fn push_constants_compared(
    atoms: &mut Items<Atom>,
    constants: &[Value],
    types: &[ColType],
) -> Result<(), AllocError>
    ensures { OnOk result (atoms.new ≡ atoms.old ++ constants_compared 0 constants.now types.now) }
{
    for i in 0..types.len() {
        push_constants(atoms, constants, i, types[i])?;
    }
    Ok(())
}

// Appends column i's tests for NULL.
fn push_null_test(atoms: &mut Items<Atom>, i: usize) -> Result<(), AllocError>
    ensures { OnOk result (atoms.new ≡ atoms.old ++ IsNull i ∷ NotNull i ∷ []) }
{
    atoms.push(Atom::IsNull(i))?;
    atoms.push(Atom::NotNull(i))
}

// Appends each column's tests for NULL.
fn push_null_tests(atoms: &mut Items<Atom>, types: &[ColType]) -> Result<(), AllocError>
    ensures { OnOk result (atoms.new ≡ atoms.old ++ null_tests 0 types.now) }
{
    for i in 0..types.len() {
        push_null_test(atoms, i)?;
    }
    Ok(())
}

// Appends every atom over these columns and constants.
fn push_atoms(
    atoms: &mut Items<Atom>,
    types: &[ColType],
    constants: &[Value],
) -> Result<(), AllocError>
    ensures { OnOk result (atoms.new ≡ atoms.old ++ atom_list types.now constants.now) }
{
    push_columns_compared(atoms, types)?;
    push_constants_compared(atoms, constants, types)?;
    push_null_tests(atoms, types)
}

/// The atoms over columns of these types, in order.
pub fn atoms(
    alloc: Global,
    types: &[ColType],
    constants: &[Value],
) -> Result<Items<Atom>, OutOfMemory>
    ensures { IfOk result (λ atoms. atoms ≡ atom_list types.now constants.now) }
{
    let mut atoms = Items::new(alloc);
    push_atoms(&mut atoms, types, constants)?;
    Ok(atoms)
}
