ghost use Rattle.std.specs.Prelude.{◌≡◌, ◌++◌, ◌∷◌, [], IfOk, map};
ghost use Rattle.map_walk.specs.Walk.{cell_mask, offer_of, columns_of};

use crate::candidate::{Candidate, has_at};
use crate::places::places_of;
use bit_rows::BitRow;
use sqlite_items::Items;
use std::alloc::Global;
use table_core::Tuple;
use value_core::{ColType, OutOfMemory, Value};

/// A body column for a column of the output: which candidates may have there the value of each row of the output.
#[derive(Debug, Drop)]
pub(crate) struct Offer {
    pub at: usize,
    pub masks: Items<BitRow>,
}

// Which candidates may have at a place the value that a row has at another.
fn cell_mask<C: Candidate>(
    alloc: Global,
    candidates: &[C],
    place: usize,
    at: usize,
    row: &[Value],
) -> Result<BitRow, OutOfMemory>
    ensures { IfOk result (λ mask. mask ≡ cell_mask C.has candidates.now place at row.now) }
{
    let mut bits = Vec::with_capacity(alloc, candidates.len())?;
    for candidate in candidates {
        bits.push(has_at(candidate, at, row, place))?;
    }
    BitRow::of(alloc, bits.as_slice())
}

// Which candidates may have at a place the value that each of some rows has at another.
fn cell_masks<C: Candidate>(
    alloc: Global,
    candidates: &[C],
    rows: &[Tuple],
    place: usize,
    at: usize,
) -> Result<Items<BitRow>, OutOfMemory>
    ensures { IfOk result (λ masks. masks ≡ map (cell_mask C.has candidates.now place at) rows.now) }
{
    let mut masks = Items::new(alloc);
    for row in rows {
        masks.push(cell_mask(alloc, candidates, place, at, row.cells())?)?;
    }
    Ok(masks)
}

// The body column at a place as an offer for a column of the output.
fn offer_of<C: Candidate>(
    alloc: Global,
    candidates: &[C],
    rows: &[Tuple],
    place: usize,
    at: usize,
) -> Result<Offer, OutOfMemory>
    ensures { IfOk result (λ offer. offer ≡ offer_of C.has candidates.now rows.now place at) }
{
    let masks = cell_masks(alloc, candidates, rows, place, at)?;
    Ok(Offer { at, masks })
}

// The body columns at these places as offers for a column of the output.
fn offers_at<C: Candidate>(
    alloc: Global,
    candidates: &[C],
    rows: &[Tuple],
    place: usize,
    places: &[usize],
) -> Result<Items<Offer>, OutOfMemory>
    ensures { IfOk result (λ offers. offers ≡ map (offer_of C.has candidates.now rows.now place) places.now) }
{
    let mut offers = Items::new(alloc);
    for at in places {
        offers.push(offer_of(alloc, candidates, rows, place, *at)?)?;
    }
    Ok(offers)
}

/// For each column of an output, of these types and with these rows, the body columns that may be selected for it.
pub(crate) fn columns_of<C: Candidate>(
    alloc: Global,
    types: &[ColType],
    candidates: &[C],
    rows: &[Tuple],
    wanted: &[ColType],
) -> Result<Items<Items<Offer>>, OutOfMemory>
    ensures { IfOk result (λ columns. columns ≡ columns_of C.has types.now candidates.now rows.now 0 wanted.now) }
{
    let mut columns = Items::new(alloc);
    for place in 0..wanted.len() {
        let places = places_of(alloc, wanted[place], types)?;
        columns.push(offers_at(alloc, candidates, rows, place, places.as_slice())?)?;
    }
    Ok(columns)
}
