ghost use Rattle.std.specs.Prelude.{◌≡◌, ◌+◌, ◌≤◌, ◌<◌, ◌∷◌, [], length, drop, map, if◌then◌else◌};
ghost use Rattle.predicate_core.specs.declared.atom.Atom.TheVariants.{Cols, Const, IsNull, NotNull};
ghost use Rattle.predicate_core.specs.declared.search.Search.{Search};
ghost use Rattle.predicate_core.specs.Atoms.{comparisons, column_with_columns, columns_compared, column_with_constants, constants_compared, null_tests, atom_list};
ghost use Rattle.predicate_core.specs.Search.{first_place, searched, started};
ghost use Rattle.value_core.specs.Value.{same_type, is_of_type};

use crate::atom::Atom;
use crate::equal::op_number;
use value_core::{ColType, Value};

/// How far a search for an atom has come: how many atoms it has passed, and the first place at which it met the one that it seeks.
#[derive(Clone, Copy, Debug)]
pub struct Search {
    pub atom: Atom,
    pub count: u64,
    pub place: Option<u64>,
}

// The place found first: the one that was found before, or else this one where the test passes.
fn first_place(place: Option<u64>, met: bool, n: u64) -> Option<u64>
    ensures { result ≡ first_place place met n }
{
    match place {
        Some(k) => Some(k),
        None => { if met { Some(n) } else { None } }
    }
}

// A search that has passed so many atoms more, and met the one that it seeks at this place among them, or not.
fn pass(s: Search, size: u64, met: bool, at: u64) -> Search
    requires few { s.count + size ≤ 100000 }
    requires within { at ≤ size }
    ensures { result ≡ record { atom = s.atom; count = s.count + size; place = first_place s.place met (s.count + at) } }
{
    Search {
        atom: s.atom,
        count: s.count + size,
        place: first_place(s.place, met, s.count + at),
    }
}

// A search that has passed column i compared with column j in the six ways.
fn pass_columns(s: Search, i: usize, j: usize) -> Search
    requires few { s.count + 6 ≤ 100000 }
    ensures { result ≡ searched s (map (λ op. Cols i op j) comparisons) }
{
    match s.atom {
        Atom::Cols(a, op, b) => pass(s, 6, a == i && b == j, op_number(op) as u64),
        _ => pass(s, 6, false, 0),
    }
}

// A search that has passed column i compared with constant k in the six ways.
fn pass_constant(s: Search, i: usize, k: usize) -> Search
    requires few { s.count + 6 ≤ 100000 }
    ensures { result ≡ searched s (map (λ op. Const i op k) comparisons) }
{
    match s.atom {
        Atom::Const(a, op, b) => pass(s, 6, a == i && b == k, op_number(op) as u64),
        _ => pass(s, 6, false, 0),
    }
}

// A search that has passed column i's tests for NULL.
fn pass_null_test(s: Search, i: usize) -> Search
    requires few { s.count + 2 ≤ 100000 }
    ensures { result ≡ searched s (IsNull i ∷ NotNull i ∷ []) }
{
    match s.atom {
        Atom::IsNull(a) => pass(s, 2, a == i, 0),
        Atom::NotNull(a) => pass(s, 2, a == i, 1),
        _ => pass(s, 2, false, 0),
    }
}

// A search that has passed column i compared with column j, if they are of one type.
fn pass_column_pair(s: Search, i: usize, t: ColType, j: usize, u: ColType) -> Search
    requires few { s.count + length (if same_type t u then map (λ op. Cols i op j) comparisons else []) ≤ 100000 }
    ensures { result ≡ searched s (if same_type t u then map (λ op. Cols i op j) comparisons else []) }
{
    if t == u { pass_columns(s, i, j) } else { s }
}

// A search that has passed column i compared with constant k, if that is of the column's type.
fn pass_column_constant(s: Search, i: usize, t: ColType, k: usize, value: &Value) -> Search
    requires few { s.count + length (if is_of_type t value.now then map (λ op. Const i op k) comparisons else []) ≤ 100000 }
    ensures { result ≡ searched s (if is_of_type t value.now then map (λ op. Const i op k) comparisons else []) }
{
    if t.is_type_of(value) {
        pass_constant(s, i, k)
    } else {
        s
    }
}

// A search that has passed column i compared with each later column of its type.
fn pass_later_columns(s: Search, types: &[ColType], i: usize, t: ColType) -> Search
    requires here { i < length types.now }
    requires few { s.count + length (column_with_columns i t (i + 1) (drop (i + 1) types.now)) ≤ 100000 }
    ensures { result ≡ searched s (column_with_columns i t (i + 1) (drop (i + 1) types.now)) }
{
    let mut search = s;
    for j in i + 1..types.len() {
        search = pass_column_pair(search, i, t, j, types[j]);
    }
    search
}

// A search that has passed each two columns of one type compared.
fn pass_columns_compared(s: Search, types: &[ColType]) -> Search
    requires few { s.count + length (columns_compared 0 types.now) ≤ 100000 }
    ensures { result ≡ searched s (columns_compared 0 types.now) }
{
    let mut search = s;
    for i in 0..types.len() {
        search = pass_later_columns(search, types, i, types[i]);
    }
    search
}

// A search that has passed column i compared with each constant of its type.
fn pass_constants(s: Search, constants: &[Value], i: usize, t: ColType) -> Search
    requires few { s.count + length (column_with_constants i t 0 constants.now) ≤ 100000 }
    ensures { result ≡ searched s (column_with_constants i t 0 constants.now) }
{
    let mut search = s;
    for k in 0..constants.len() {
        search = pass_column_constant(search, i, t, k, &constants[k]);
    }
    search
}

// A search that has passed each column compared with each constant of its type.
fn pass_constants_compared(s: Search, constants: &[Value], types: &[ColType]) -> Search
    requires few { s.count + length (constants_compared 0 constants.now types.now) ≤ 100000 }
    ensures { result ≡ searched s (constants_compared 0 constants.now types.now) }
{
    let mut search = s;
    for i in 0..types.len() {
        search = pass_constants(search, constants, i, types[i]);
    }
    search
}

// A search that has passed each column's tests for NULL.
fn pass_null_tests(s: Search, types: &[ColType]) -> Search
    requires few { s.count + length (null_tests 0 types.now) ≤ 100000 }
    ensures { result ≡ searched s (null_tests 0 types.now) }
{
    let mut search = s;
    for i in 0..types.len() {
        search = pass_null_test(search, i);
    }
    search
}

/// The search for an atom among all over columns of these types and these constants, at its end.
pub fn search_atoms(types: &[ColType], constants: &[Value], atom: Atom) -> Search
    requires few { length (atom_list types.now constants.now) ≤ 100000 }
    ensures { result ≡ searched (started atom) (atom_list types.now constants.now) }
{
    let start = Search {
        atom,
        count: 0,
        place: None,
    };
    let columns = pass_columns_compared(start, types);
    let all = pass_constants_compared(columns, constants, types);
    pass_null_tests(all, types)
}
