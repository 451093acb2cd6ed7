ghost use Rattle.std.specs.Prelude.{◌≡◌, option_copied, IfOk};
ghost use Rattle.query_core.specs.View.{tree};
ghost use Rattle.map_walk.specs.Supply.{pair_supplies};
ghost use Rattle.over_eval.specs.Told.{are_wide, told_of, kept_rows, part_rows, told, told_both, told_over, may_open};

use crate::below::OverBelow;
use crate::row::AbsRow;
use map_walk::{Supply, SupplyPair, group_opens, opens, pair_opens, supplies};
use query_core::{Node, Pairing};
use sqlite_items::Items;
use std::alloc::Global;
use table_core::Table;
use value_core::{ColType, OutOfMemory};

/// What is kept of a skeleton that is a part of others: its abstract rows, and how much each of its columns has of each column of the
/// output. Nothing is told of the columns where a row has another number of cells.
#[derive(Debug, Drop)]
pub struct KeptPart {
    pub rows: Items<AbsRow>,
    pub supplies: Option<Items<Items<Supply>>>,
}

/// What is kept of a skeleton's parts: of its left part or its only one, and of its right part. None of a part that never has rows, and of one that isn't there.
#[derive(Clone, Copy, Debug)]
pub struct KeptBelow<'a> {
    pub left: Option<&'a KeptPart>,
    pub right: Option<&'a KeptPart>,
}

// Whether all abstract rows have so many cells.
fn are_wide(width: usize, over: &[AbsRow]) -> bool
    ensures { result ≡ are_wide width over.now }
{
    over.iter().all(|row| row.cells().len() == width)
}

// What is told of so many columns of abstract rows.
fn told_of(
    alloc: Global,
    width: usize,
    over: &[AbsRow],
    output: &Table,
) -> Result<Option<Items<Items<Supply>>>, OutOfMemory>
    ensures { IfOk result (λ s. s ≡ told_of width output.now over.now) }
{
    if !are_wide(width, over) {
        return Ok(None);
    }
    Ok(Some(supplies(alloc, width, over, output)?))
}

impl KeptPart {
    /// Abstract rows of so many columns, and what is told of them.
    pub fn of(
        alloc: Global,
        width: usize,
        rows: Items<AbsRow>,
        output: &Table,
    ) -> Result<KeptPart, OutOfMemory>
        ensures { IfOk result (λ part. part ≡ kept_rows width output.now rows) }
    {
        let supplies = told_of(alloc, width, rows.as_slice(), output)?;
        Ok(KeptPart { rows, supplies })
    }
}

/// The rows that are kept of a part.
pub fn part_rows(part: Option<&KeptPart>) -> Option<&[AbsRow]>
    ensures { option_copied result ≡ part_rows (option_copied part.entry) }
{
    match part {
        Some(part) => Some(part.rows.as_slice()),
        None => None,
    }
}

// What is told of a part.
fn told(part: Option<&KeptPart>) -> Option<&[Items<Supply>]>
    ensures { option_copied result ≡ told (option_copied part.entry) }
{
    match part {
        Some(part) => match &part.supplies {
            Some(supplies) => Some(supplies.as_slice()),
            None => None,
        },
        None => None,
    }
}

impl KeptBelow<'_> {
    /// The rows.
    pub fn rows(&self) -> OverBelow<'_>
        ensures left { option_copied result.left ≡ part_rows (option_copied self.now.left) }
        ensures right { option_copied result.right ≡ part_rows (option_copied self.now.right) }
    {
        OverBelow {
            left: part_rows(self.left),
            right: part_rows(self.right),
        }
    }

    // Whether a pair of the parts, of columns of these types, may have all values of an output.
    fn pair_may_open(&self, kind: Pairing, types: &[ColType], output: &Table) -> bool
        ensures { result ≡ may_open types.now (told_both (pair_supplies kind) (told (option_copied self.now.left)) (told (option_copied self.now.right))) output.now }
    {
        match (told(self.left), told(self.right)) {
            (Some(left), Some(right)) => {
                pair_opens(kind, &SupplyPair { left, right }, types, output)
            }
            _ => true,
        }
    }

    /// Whether a skeleton over the parts, with columns of these types, may have all values of an output, by what is told of the parts.
    /// It takes no memory.
    pub fn may_open(&self, skeleton: &Node, types: &[ColType], output: &Table) -> bool
        ensures { result ≡ may_open types.now (told_over (tree skeleton.now) (told (option_copied self.now.left)) (told (option_copied self.now.right))) output.now }
    {
        match skeleton {
            Node::Base(_) | Node::UnionAll(_, _) | Node::Union(_, _) => true,
            Node::Filter(_, _) => match told(self.left) {
                Some(part) => opens(types, part, output),
                None => true,
            },
            Node::Join(_, _, _) => self.pair_may_open(Pairing::Join, types, output),
            Node::Left(_, _, _) => self.pair_may_open(Pairing::Left, types, output),
            Node::Group(_, keys, _) => match told(self.left) {
                Some(part) => group_opens(types, keys.as_slice(), part, output),
                None => true,
            },
        }
    }
}
