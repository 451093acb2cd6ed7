ghost use Rattle.std.specs.Prelude.{◌≡◌, ◌++◌, true, All, IfOk, OnOk};
ghost use Rattle.std.specs.List.{flat_map, list_any};
ghost use Rattle.map_walk.specs.Narrow.{Fitting, narrowed, next};
ghost use Rattle.map_walk.specs.Targets.{are_enough};
ghost use Rattle.map_walk.specs.Walk.{Fits, walked, goes_on};

use crate::offer::Offer;
use crate::target::{Reading, Target, narrowed, stay_enough};
use sqlite_items::Items;
use std::alloc::Global;
use value_core::OutOfMemory;

/// Appends the readings that go on from one by an offer of each of these columns.
#[cycle(walk)]
pub(crate) fn walk(
    alloc: Global,
    columns: &[Items<Offer>],
    begun: Reading,
    out: &mut Items<Reading>,
) -> Result<(), OutOfMemory>
    requires fits { Fits begun.targets columns.now }
    requires enough { are_enough begun.targets ≡ true }
    ensures { OnOk result (out.new ≡ out.old ++ walked begun columns.now) }
{
    match columns.split_first() {
        None => Ok(out.push(begun)?),
        Some((offers, rest)) => walk_each(alloc, offers.as_slice(), rest, &begun, out),
    }
}

// Appends the readings that go on from one by one of these offers, and one of each further column.
#[cycle(walk)]
fn walk_each(
    alloc: Global,
    offers: &[Offer],
    rest: &[Items<Offer>],
    begun: &Reading,
    out: &mut Items<Reading>,
) -> Result<(), OutOfMemory>
    requires offers { All (λ o. Fitting begun.now.targets o.masks) offers.now }
    requires rest { Fits begun.now.targets rest.now }
    ensures { OnOk result (out.new ≡ out.old ++ flat_map (λ o. walked (next begun.now o) rest.now) offers.now) }
{
    for offer in offers {
        walk_on(alloc, offer, rest, begun, out)?;
    }
    Ok(())
}

// Appends the readings that go on from one by this offer, and one of each further column: none where it leaves too few candidates.
#[cycle(walk)]
fn walk_on(
    alloc: Global,
    offer: &Offer,
    rest: &[Items<Offer>],
    begun: &Reading,
    out: &mut Items<Reading>,
) -> Result<(), OutOfMemory>
    requires offer { Fitting begun.now.targets offer.now.masks }
    requires rest { Fits begun.now.targets rest.now }
    ensures { OnOk result (out.new ≡ out.old ++ walked (next begun.now offer.now) rest.now) }
{
    if !stay_enough(begun.targets.as_slice(), offer.masks.as_slice()) {
        return Ok(());
    }
    let next = begun.next(alloc, offer)?;
    walk(alloc, rest, next, out)
}

/// Whether some reading goes on from these targets by an offer of each of these columns. It stops at the first.
#[cycle(goes_on)]
pub(crate) fn goes_on(
    alloc: Global,
    columns: &[Items<Offer>],
    targets: &[Target],
) -> Result<bool, OutOfMemory>
    requires fits { Fits targets.now columns.now }
    requires enough { are_enough targets.now ≡ true }
    ensures { IfOk result (λ b. b ≡ goes_on targets.now columns.now) }
{
    match columns.split_first() {
        None => Ok(true),
        Some((offers, rest)) => some_goes_on(alloc, offers.as_slice(), rest, targets),
    }
}

// Whether some reading goes on from these targets by one of these offers, and one of each further column.
#[cycle(goes_on)]
fn some_goes_on(
    alloc: Global,
    offers: &[Offer],
    rest: &[Items<Offer>],
    targets: &[Target],
) -> Result<bool, OutOfMemory>
    requires offers { All (λ o. Fitting targets.now o.masks) offers.now }
    requires rest { Fits targets.now rest.now }
    ensures { IfOk result (λ b. b ≡ list_any (λ o. goes_on (narrowed targets.now o.masks) rest.now) offers.now) }
{
    for offer in offers {
        if goes_on_by(alloc, offer, rest, targets)? {
            return Ok(true);
        }
    }
    Ok(false)
}

// Whether some reading goes on from these targets by this offer, and one of each further column.
#[cycle(goes_on)]
fn goes_on_by(
    alloc: Global,
    offer: &Offer,
    rest: &[Items<Offer>],
    targets: &[Target],
) -> Result<bool, OutOfMemory>
    requires offer { Fitting targets.now offer.now.masks }
    requires rest { Fits targets.now rest.now }
    ensures { IfOk result (λ b. b ≡ goes_on (narrowed targets.now offer.now.masks) rest.now) }
{
    if !stay_enough(targets, offer.masks.as_slice()) {
        return Ok(false);
    }
    let left = narrowed(alloc, targets, offer.masks.as_slice())?;
    goes_on(alloc, rest, left.as_slice())
}
