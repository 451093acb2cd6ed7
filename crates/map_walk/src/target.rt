ghost use Rattle.std.specs.Prelude.{◌≡◌, length, nat_le, IfOk};
ghost use Rattle.map_walk.specs.Narrow.{Fitting, narrow, narrowed, next};
ghost use Rattle.map_walk.specs.Targets.{ones, are_enough};

use crate::offer::Offer;
use bit_rows::BitRow;
use sqlite_items::Items;
use std::alloc::Global;
use value_core::{OutOfMemory, concatenated};

/// A row of an output under a map: which candidates may be it, and how many copies of it the output has.
#[derive(Debug, Drop)]
pub struct Target {
    pub mask: BitRow,
    pub copies: usize,
}

impl Target {
    // Whether it has at least as many candidates as copies.
    fn is_enough(&self) -> bool
        ensures { result ≡ nat_le self.now.copies (ones self.now.mask) }
    {
        self.copies <= self.mask.ones()
    }

    // Whether it has at least as many candidates as copies where only these of its candidates are left.
    fn stays_enough(&self, mask: &BitRow) -> bool
        requires { length self.now.mask ≡ length mask.now }
        ensures { result ≡ nat_le (narrow self.now mask.now).copies (ones (narrow self.now mask.now).mask) }
    {
        self.copies <= self.mask.ones_and(mask)
    }

    // The target of which only these candidates are left.
    fn narrow(&self, alloc: Global, mask: &BitRow) -> Result<Target, OutOfMemory>
        requires { length self.now.mask ≡ length mask.now }
        ensures { IfOk result (λ t. t ≡ narrow self.now mask.now) }
    {
        let mask = self.mask.and(alloc, mask)?;
        Ok(Target {
            mask,
            copies: self.copies,
        })
    }
}

/// Whether each target has at least as many candidates as copies.
pub(crate) fn are_enough(targets: &[Target]) -> bool
    ensures { result ≡ are_enough targets.now }
{
    targets.iter().all(|target| target.is_enough())
}

/// Whether each target has at least as many candidates as copies where only its own of these masks are left. It takes no memory.
pub(crate) fn stay_enough(targets: &[Target], masks: &[BitRow]) -> bool
    requires { Fitting targets.now masks.now }
    ensures { result ≡ are_enough (narrowed targets.now masks.now) }
{
    for i in 0..targets.len() {
        if !targets[i].stays_enough(&masks[i]) {
            return false;
        }
    }
    true
}

/// The targets of which only their own of these masks are left.
pub(crate) fn narrowed(
    alloc: Global,
    targets: &[Target],
    masks: &[BitRow],
) -> Result<Items<Target>, OutOfMemory>
    requires { Fitting targets.now masks.now }
    ensures { IfOk result (λ out. out ≡ narrowed targets.now masks.now) }
{
    let mut out = Items::new(alloc);
    for i in 0..targets.len() {
        out.push(targets[i].narrow(alloc, &masks[i])?)?;
    }
    Ok(out)
}

/// A map by which each row of an output has enough candidates, with its targets.
#[derive(Debug, Drop)]
pub struct Reading {
    pub picks: Items<usize>,
    pub targets: Items<Target>,
}

impl Reading {
    // The map with one column more, and what that leaves of its targets.
    pub(crate) fn next(&self, alloc: Global, offer: &Offer) -> Result<Reading, OutOfMemory>
        requires { Fitting self.now.targets offer.now.masks }
        ensures { IfOk result (λ r. r ≡ next self.now offer.now) }
    {
        Ok(Reading {
            picks: concatenated(alloc, self.picks.as_slice(), &[offer.at])?,
            targets: narrowed(alloc, self.targets.as_slice(), offer.masks.as_slice())?,
        })
    }
}
