ghost use Rattle.std.specs.Prelude.{◌≡◌, nat_le, All, length};
ghost use Rattle.std.specs.List.{list_all, list_any, sum_by};
ghost use Rattle.map_walk.specs.Targets.{ones};
ghost use Rattle.root_search.specs.Targets.{shared};
ghost use Rattle.root_search.specs.Wanted.{AreWide, has_enough, is_within};

use crate::paired::paired_readings;
use crate::target::shared;
use bit_classes::Join;
use bit_rows::BitRow;
use map_walk::{Reading, Target};
use sqlite_items::Items;
use std::alloc::Global;
use std::marker::Model;
use value_core::OutOfMemory;

/// The readings of so many candidate rows, which tell what choices of them may be wanted.
#[derive(Drop)]
pub struct Looked {
    readings: Items<Reading>,
    width: usize,
}

impl Model for Looked {
    ghost use Rattle.root_search.specs.Wanted as wanted;

    ghost Value = { wanted.Looked };

    ghost view = { λ l. record { readings = l.readings; width = l.width } };

    ghost invariant = { λ l. wanted.AreWide l.width l.readings };
}

// Whether these bits keep as many of each target's candidates as it has copies, or more.
fn keep_enough(bits: &BitRow, targets: &[Target]) -> bool
    requires { All (λ t. length bits.now ≡ length t.mask) targets.now }
    ensures { result ≡ list_all (λ t. nat_le t.copies (shared bits.now t.mask)) targets.now }
{
    for i in 0..targets.len() {
        if shared(&targets[i], bits) < targets[i].copies {
            return false;
        }
    }
    true
}

// Whether all that they keep are candidates of targets.
fn keep_no_others(bits: &BitRow, targets: &[Target]) -> bool
    requires { All (λ t. length bits.now ≡ length t.mask) targets.now }
    ensures { result ≡ nat_le (ones bits.now) (sum_by (λ t. shared bits.now t.mask) targets.now) }
{
    let mut left = bits.ones();
    for i in 0..targets.len() {
        left = left.saturating_sub(shared(&targets[i], bits));
    }
    left == 0
}

// Whether by some reading these bits keep enough.
fn some_have_enough(bits: &BitRow, readings: &[Reading]) -> bool
    requires { AreWide (length bits.now) readings.now }
    ensures { result ≡ list_any (has_enough bits.now) readings.now }
{
    for i in 0..readings.len() {
        if keep_enough(bits, readings[i].targets.as_slice()) {
            return true;
        }
    }
    false
}

// Whether by some reading they keep no others.
fn some_are_within(bits: &BitRow, readings: &[Reading]) -> bool
    requires { AreWide (length bits.now) readings.now }
    ensures { result ≡ list_any (is_within bits.now) readings.now }
{
    for i in 0..readings.len() {
        if keep_no_others(bits, readings[i].targets.as_slice()) {
            return true;
        }
    }
    false
}

impl Looked {
    ghost use Rattle.std.specs.Prelude.{◌≡◌, ◌+◌, ◌*◌, IfOk};
    ghost use Rattle.root_search.specs.Wanted.{AreWide, may_want, paired_looked};

    /// These readings of so many candidates.
    pub fn new(readings: Items<Reading>, width: usize) -> Looked
        requires { AreWide width readings }
        ensures { result ≡ record { readings = readings; width = width } }
    {
        Looked { readings, width }
    }

    pub fn readings(&self) -> &[Reading]
        ensures { result.now ≡ self.now.readings }
    {
        self.readings.as_slice()
    }

    /// What they tell of the pairs alone, of the candidates of a left join of so many left and right rows.
    pub fn of_pairs(
        &self,
        alloc: Global,
        lefts: usize,
        rights: usize,
    ) -> Result<Looked, OutOfMemory>
        requires { self.now.width ≡ lefts * rights + lefts }
        ensures { IfOk result (λ l. l ≡ paired_looked lefts rights self.now) }
    {
        let readings = paired_readings(alloc, lefts, rights, self.readings.as_slice())?;
        Ok(Looked::new(readings, self.width - lefts))
    }

    /// Whether predicates that are joined so, and keep candidates of these bits, may be wanted. It takes no memory.
    pub fn may_want(&self, join: Join, bits: &BitRow) -> bool
        ensures { result ≡ may_want self.now join bits.now }
    {
        if bits.len() != self.width {
            return true;
        }
        match join {
            Join::And => some_have_enough(bits, self.readings.as_slice()),
            Join::Or => some_are_within(bits, self.readings.as_slice()),
        }
    }
}
