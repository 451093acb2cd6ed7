ghost use Rattle.std.specs.Prelude.{◌≡◌, Some, None, option_copied};

use crate::row::AbsRow;
use sqlite_items::Items;

/// The abstract rows of a skeleton's parts: of its left part or its only one, and of its right part. None of a part that never has rows, and of one that isn't there.
#[derive(Clone, Copy, Debug)]
pub struct OverBelow<'a> {
    pub left: Option<&'a [AbsRow]>,
    pub right: Option<&'a [AbsRow]>,
}

/// Abstract rows of a skeleton's parts, made for it alone.
#[derive(Debug, Drop)]
pub struct OverParts {
    pub left: Option<Items<AbsRow>>,
    pub right: Option<Items<AbsRow>>,
}

/// The rows of a part, where it ever has rows.
pub fn rows_of(part: &Option<Items<AbsRow>>) -> Option<&[AbsRow]>
    ensures { option_copied result ≡ part.now }
{
    match part {
        Some(rows) => Some(rows.as_slice()),
        None => None,
    }
}

impl OverParts {
    /// No part.
    pub fn none() -> OverParts
        ensures { result ≡ record { left = None; right = None } }
    {
        OverParts {
            left: None,
            right: None,
        }
    }

    /// The rows of the only part.
    pub fn one(left: Option<Items<AbsRow>>) -> OverParts
        ensures { result ≡ record { left = left; right = None } }
    {
        OverParts { left, right: None }
    }

    /// The rows.
    pub fn below(&self) -> OverBelow<'_>
        ensures left { option_copied result.left ≡ self.now.left }
        ensures right { option_copied result.right ≡ self.now.right }
    {
        OverBelow {
            left: rows_of(&self.left),
            right: rows_of(&self.right),
        }
    }
}
