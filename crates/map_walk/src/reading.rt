ghost use Rattle.std.specs.Prelude.{◌≡◌, ◌==◌, length, map, replicate, IfOk};
ghost use Rattle.map_walk.specs.Readings.{readings_by, has_reading_by};
ghost use Rattle.map_walk.specs.Walk.{first_target, start_by};

use crate::candidate::Candidate;
use crate::offer::{Offer, columns_of};
use crate::open::is_open;
use crate::target::{Reading, Target, are_enough};
use crate::walk::{goes_on, walk};
use bag_eval::first_rows;
use bit_rows::BitRow;
use query_core::table_types;
use sqlite_items::Items;
use std::alloc::Global;
use table_core::{Table, Tuple, count_in};
use value_core::{ColType, OutOfMemory};

/// What a walk begins with: the targets of the empty map, and the offers for each column of an output.
#[derive(Debug, Drop)]
pub(crate) struct Begun {
    pub targets: Items<Target>,
    pub columns: Items<Items<Offer>>,
}

// A row of so many bits that are all the same.
fn same_bits(alloc: Global, bit: bool, len: usize) -> Result<BitRow, OutOfMemory>
    ensures { IfOk result (λ row. row ≡ replicate len bit) }
{
    let bits = Vec::from_elem(alloc, bit, len)?;
    BitRow::of(alloc, bits.as_slice())
}

// A row of an output as a target of a map of this width without its columns, over so many candidates.
fn first_target(
    alloc: Global,
    width: usize,
    candidates: usize,
    output: &[Tuple],
    row: &Tuple,
) -> Result<Target, OutOfMemory>
    ensures { IfOk result (λ t. t ≡ first_target width candidates output.now row.now) }
{
    let mask = same_bits(alloc, row.cells().len() == width, candidates)?;
    let copies = count_in(output, row.cells());
    Ok(Target { mask, copies })
}

// Rows of an output as targets of a map of this width without its columns, over so many candidates.
fn first_targets(
    alloc: Global,
    width: usize,
    candidates: usize,
    output: &[Tuple],
    rows: &[Tuple],
) -> Result<Items<Target>, OutOfMemory>
    ensures { IfOk result (λ ts. ts ≡ map (first_target width candidates output.now) rows.now) }
{
    let mut out = Items::new(alloc);
    for row in rows {
        out.push(first_target(alloc, width, candidates, output, row)?)?;
    }
    Ok(out)
}

// What the walk over the maps from a body to an output begins with. None where a row of the output has too few candidates.
fn start<C: Candidate>(
    alloc: Global,
    types: &[ColType],
    candidates: &[C],
    output: &Table,
) -> Result<Option<Begun>, OutOfMemory>
    ensures { IfOk result (λ s. s ≡ start_by C.has types.now candidates.now output.now) }
{
    let wanted = table_types(alloc, output)?;
    let tuples = output.tuples();
    let rows = first_rows(alloc, tuples)?;
    let rows = rows.as_slice();
    let targets = first_targets(alloc, wanted.len(), candidates.len(), tuples, rows)?;
    if !are_enough(targets.as_slice()) {
        return Ok(None);
    }
    let columns = columns_of(alloc, types, candidates, rows, wanted.as_slice())?;
    Ok(Some(Begun { targets, columns }))
}

/// The maps of the grammar from a body with columns of these types to an output, by which each row of the output has enough of
/// the candidates, with their targets.
pub fn readings<C: Candidate>(
    alloc: Global,
    types: &[ColType],
    candidates: &[C],
    output: &Table,
) -> Result<Items<Reading>, OutOfMemory>
    ensures { IfOk result (λ rs. rs ≡ readings_by C.has types.now candidates.now output.now) }
{
    let mut out = Items::new(alloc);
    let Some(start) = start(alloc, types, candidates, output)? else {
        return Ok(out);
    };
    let Begun { targets, columns } = start;
    let begun = Reading {
        picks: Items::new(alloc),
        targets,
    };
    walk(alloc, columns.as_slice(), begun, &mut out)?;
    Ok(out)
}

/// Whether there is such a map. It stops at the first.
pub fn has_reading<C: Candidate>(
    alloc: Global,
    types: &[ColType],
    candidates: &[C],
    output: &Table,
) -> Result<bool, OutOfMemory>
    ensures { IfOk result (λ b. b ≡ has_reading_by C.has types.now candidates.now output.now) }
{
    if !is_open(types, candidates, output) {
        return Ok(false);
    }
    let Some(start) = start(alloc, types, candidates, output)? else {
        return Ok(false);
    };
    goes_on(alloc, start.columns.as_slice(), start.targets.as_slice())
}
