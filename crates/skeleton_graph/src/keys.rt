ghost use Rattle.std.specs.Prelude.{◌≡◌, ◌∷◌, ◌++◌, [], ◌==◌, ◌<◌, ◌+◌, not, drop, slice_index, IfOk, OnOk, map, length, filter, if◌then◌else◌};
ghost use Rattle.std.specs.List.{range_with_len, list_any};
ghost use Rattle.value_core.specs.Value.{same_type};
ghost use Rattle.predicate_core.specs.Atoms.{pairs};
ghost use Rattle.query_core.specs.Meaning.{type_at};
ghost use Rattle.query_core.specs.Grammar.{key_lists, free_columns, int_columns, allowed, agg_list};
ghost use Rattle.query_core.specs.declared.agg.Agg.TheVariants.{CountAll, Count, CountDistinct, Sum, Min, Max};

use query_core::{Agg, same_type, type_at};
use sqlite_items::Items;
use std::alloc::Global;
use table_core::AggSet;
use value_core::{ColType, OutOfMemory, copied};

// Appends a list of one key.
fn push_key(alloc: Global, out: &mut Items<Items<usize>>, key: usize) -> Result<(), OutOfMemory>
    ensures { OnOk result (out.new ≡ out.old ++ (key ∷ []) ∷ []) }
{
    Ok(out.push(copied(alloc, &[key])?)?)
}

// Appends the lists of single keys.
fn push_single_keys(
    alloc: Global,
    out: &mut Items<Items<usize>>,
    columns: &[usize],
) -> Result<(), OutOfMemory>
    ensures { OnOk result (out.new ≡ out.old ++ map (λ i. i ∷ []) columns.now) }
{
    for key in columns {
        push_key(alloc, out, *key)?;
    }
    Ok(())
}

// Appends a list of two keys.
fn push_two_keys(
    alloc: Global,
    out: &mut Items<Items<usize>>,
    first: usize,
    second: usize,
) -> Result<(), OutOfMemory>
    ensures { OnOk result (out.new ≡ out.old ++ (first ∷ second ∷ []) ∷ []) }
{
    Ok(out.push(copied(alloc, &[first, second])?)?)
}

// Appends the lists of the key at a place and a later one.
fn push_pairs_from(
    alloc: Global,
    out: &mut Items<Items<usize>>,
    columns: &[usize],
    place: usize,
) -> Result<(), OutOfMemory>
    requires { place < length columns.now }
    ensures { OnOk result (out.new ≡ out.old ++ map (λ j. slice_index columns.now place ∷ j ∷ []) (drop (place + 1) columns.now)) }
{
    let first = columns[place];
    for i in place + 1..columns.len() {
        push_two_keys(alloc, out, first, columns[i])?;
    }
    Ok(())
}

// Appends the lists of two keys.
fn push_key_pairs(
    alloc: Global,
    out: &mut Items<Items<usize>>,
    columns: &[usize],
) -> Result<(), OutOfMemory>
    ensures { OnOk result (out.new ≡ out.old ++ map (λ p. p.0 ∷ p.1 ∷ []) (pairs columns.now)) }
{
    for place in 0..columns.len() {
        push_pairs_from(alloc, out, columns, place)?;
    }
    Ok(())
}

// The numbers below this one.
fn below(alloc: Global, width: usize) -> Result<Items<usize>, OutOfMemory>
    ensures { IfOk result (λ out. out ≡ range_with_len 0 width) }
{
    let mut out = Items::new(alloc);
    for i in 0..width {
        out.push(i)?;
    }
    Ok(out)
}

/// The key lists over so many columns: none, single columns, pairs of ascending columns.
pub fn key_lists(alloc: Global, width: usize) -> Result<Items<Items<usize>>, OutOfMemory>
    ensures { IfOk result (λ out. out ≡ key_lists width) }
{
    let columns = below(alloc, width)?;
    let mut out = Items::new(alloc);
    out.push(Items::new(alloc))?;
    push_single_keys(alloc, &mut out, columns.as_slice())?;
    push_key_pairs(alloc, &mut out, columns.as_slice())?;
    Ok(out)
}

// Whether a column is a key.
fn is_key(keys: &[usize], column: usize) -> bool
    ensures { result ≡ list_any (λ k. k == column) keys.now }
{
    keys.iter().any(|k| *k == column)
}

// Appends a column, unless it is a key.
fn push_free(out: &mut Items<usize>, keys: &[usize], column: usize) -> Result<(), OutOfMemory>
    ensures { OnOk result (out.new ≡ out.old ++ filter (λ i. not (list_any (λ k. k == i) keys.now)) (column ∷ [])) }
{
    if is_key(keys, column) {
        Ok(())
    } else {
        Ok(out.push(column)?)
    }
}

// The columns that are no keys, of so many.
fn free_columns(alloc: Global, width: usize, keys: &[usize]) -> Result<Items<usize>, OutOfMemory>
    ensures { IfOk result (λ out. out ≡ free_columns width keys.now) }
{
    let columns = below(alloc, width)?;
    let mut out = Items::new(alloc);
    for column in columns.as_slice() {
        push_free(&mut out, keys, *column)?;
    }
    Ok(out)
}

// Whether a column has whole numbers.
fn is_int(types: &[ColType], column: usize) -> bool
    ensures { result ≡ same_type (type_at types.now column) ColType.Int }
{
    same_type(type_at(types, column), ColType::Int)
}

// Appends a column, if it has whole numbers.
fn push_int(out: &mut Items<usize>, types: &[ColType], column: usize) -> Result<(), OutOfMemory>
    ensures { OnOk result (out.new ≡ out.old ++ filter (λ i. same_type (type_at types.now i) ColType.Int) (column ∷ [])) }
{
    if is_int(types, column) {
        Ok(out.push(column)?)
    } else {
        Ok(())
    }
}

// Those of some columns that have whole numbers.
fn int_columns(
    alloc: Global,
    types: &[ColType],
    columns: &[usize],
) -> Result<Items<usize>, OutOfMemory>
    ensures { IfOk result (λ out. out ≡ int_columns types.now columns.now) }
{
    let mut out = Items::new(alloc);
    for column in columns {
        push_int(&mut out, types, *column)?;
    }
    Ok(out)
}

// Appends COUNT(*), where it is allowed.
fn push_count_all(out: &mut Items<Agg>, flag: bool) -> Result<(), OutOfMemory>
    ensures { OnOk result (out.new ≡ out.old ++ allowed flag (CountAll ∷ [])) }
{
    if flag {
        Ok(out.push(Agg::CountAll)?)
    } else {
        Ok(())
    }
}

// Appends COUNT over each of these columns.
fn push_counts(out: &mut Items<Agg>, columns: &[usize]) -> Result<(), OutOfMemory>
    ensures { OnOk result (out.new ≡ out.old ++ map Count columns.now) }
{
    for column in columns {
        out.push(Agg::Count(*column))?;
    }
    Ok(())
}

// Appends COUNT(DISTINCT) over each of these columns.
fn push_distinct_counts(out: &mut Items<Agg>, columns: &[usize]) -> Result<(), OutOfMemory>
    ensures { OnOk result (out.new ≡ out.old ++ map CountDistinct columns.now) }
{
    for column in columns {
        out.push(Agg::CountDistinct(*column))?;
    }
    Ok(())
}

// Appends SUM over each of these columns.
fn push_sums(out: &mut Items<Agg>, columns: &[usize]) -> Result<(), OutOfMemory>
    ensures { OnOk result (out.new ≡ out.old ++ map Sum columns.now) }
{
    for column in columns {
        out.push(Agg::Sum(*column))?;
    }
    Ok(())
}

// Appends MIN over each of these columns.
fn push_mins(out: &mut Items<Agg>, columns: &[usize]) -> Result<(), OutOfMemory>
    ensures { OnOk result (out.new ≡ out.old ++ map Min columns.now) }
{
    for column in columns {
        out.push(Agg::Min(*column))?;
    }
    Ok(())
}

// Appends MAX over each of these columns.
fn push_maxes(out: &mut Items<Agg>, columns: &[usize]) -> Result<(), OutOfMemory>
    ensures { OnOk result (out.new ≡ out.old ++ map Max columns.now) }
{
    for column in columns {
        out.push(Agg::Max(*column))?;
    }
    Ok(())
}

// These columns, where something over them is allowed, else none.
fn where_allowed(flag: bool, columns: &[usize]) -> &[usize]
    ensures { result.now ≡ allowed flag columns.now }
{
    if flag { columns } else { &[] }
}

// Appends the counts that are allowed.
fn push_all_counts(out: &mut Items<Agg>, set: &AggSet, columns: &[usize]) -> Result<(), OutOfMemory>
    ensures { OnOk result (out.new ≡ out.old ++ (allowed set.now.count_all (CountAll ∷ []) ++ (allowed set.now.count (map Count columns.now) ++ allowed set.now.count_distinct (map CountDistinct columns.now)))) }
{
    push_count_all(out, set.count_all)?;
    push_counts(out, where_allowed(set.count, columns))?;
    push_distinct_counts(out, where_allowed(set.count_distinct, columns))
}

// Appends the sums, minima and maxima that are allowed.
fn push_values(
    out: &mut Items<Agg>,
    set: &AggSet,
    ints: &[usize],
    columns: &[usize],
) -> Result<(), OutOfMemory>
    ensures { OnOk result (out.new ≡ out.old ++ (allowed set.now.sum (map Sum ints.now) ++ (allowed set.now.min (map Min columns.now) ++ allowed set.now.max (map Max columns.now)))) }
{
    push_sums(out, where_allowed(set.sum, ints))?;
    push_mins(out, where_allowed(set.min, columns))?;
    push_maxes(out, where_allowed(set.max, columns))
}

/// The aggregates that are allowed over columns of these types, with these keys.
pub fn agg_list(
    alloc: Global,
    set: &AggSet,
    types: &[ColType],
    keys: &[usize],
) -> Result<Items<Agg>, OutOfMemory>
    ensures { IfOk result (λ out. out ≡ agg_list set.now types.now keys.now) }
{
    let columns = free_columns(alloc, types.len(), keys)?;
    let ints = int_columns(alloc, types, columns.as_slice())?;
    let mut out = Items::new(alloc);
    push_all_counts(&mut out, set, columns.as_slice())?;
    push_values(&mut out, set, ints.as_slice(), columns.as_slice())?;
    Ok(out)
}
