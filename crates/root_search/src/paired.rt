//! What the readings of the candidates of a left join tell of its pairs alone.

ghost use Rattle.std.specs.Prelude.{◌≡◌, ◌≤◌, ◌+◌, ◌*◌, ◌++◌, All, IfOk, OnOk, length, map, take, drop};
ghost use Rattle.root_search.specs.Wanted.{AreWide, paired, paired_target, paired_reading};

use bit_rows::BitRow;
use map_walk::{Reading, Target};
use sqlite_items::Items;
use std::alloc::Global;
use value_core::{OutOfMemory, copied};

// Appends so many bits from a place on.
#[tactic(auto, using(fill_core::proofs::MaskLaws::take_bit))]
fn push_bits(out: &mut Vec<bool>, bits: &BitRow, from: usize, len: usize) -> Result<(), OutOfMemory>
    requires { from + len ≤ length bits.now }
    ensures { OnOk result (out.new.items ≡ out.old.items ++ take len (drop from bits.now)) }
{
    let _len = bits.len();
    for k in 0..len {
        out.push(bits.bit(from + k).unwrap_or(false))?;
    }
    Ok(())
}

// The bits of the pairs.
fn paired_bits(
    alloc: Global,
    lefts: usize,
    rights: usize,
    bits: &BitRow,
) -> Result<BitRow, OutOfMemory>
    requires { length bits.now ≡ lefts * rights + lefts }
    ensures { IfOk result (λ row. row ≡ paired lefts rights bits.now) }
{
    let _len = bits.len();
    let mut out = Vec::new(alloc);
    let mut from = 0;
    for _left in 0..lefts {
        push_bits(&mut out, bits, from, rights)?;
        from += rights;
        from += 1;
    }
    BitRow::of(alloc, out.as_slice())
}

// A target, told of the pairs.
fn paired_target(
    alloc: Global,
    lefts: usize,
    rights: usize,
    target: &Target,
) -> Result<Target, OutOfMemory>
    requires { length target.now.mask ≡ lefts * rights + lefts }
    ensures { IfOk result (λ t. t ≡ paired_target lefts rights target.now) }
{
    let mask = paired_bits(alloc, lefts, rights, &target.mask)?;
    let padded = target.mask.ones().saturating_sub(mask.ones());
    let copies = target.copies.saturating_sub(padded);
    Ok(Target { mask, copies })
}

// A reading.
fn paired_reading(
    alloc: Global,
    lefts: usize,
    rights: usize,
    reading: &Reading,
) -> Result<Reading, OutOfMemory>
    requires { All (λ t. lefts * rights + lefts ≡ length t.mask) reading.now.targets }
    ensures { IfOk result (λ r. r ≡ paired_reading lefts rights reading.now) }
{
    let mut targets = Items::new(alloc);
    for target in reading.targets.as_slice() {
        targets.push(paired_target(alloc, lefts, rights, target)?)?;
    }
    let picks = copied(alloc, reading.picks.as_slice())?;
    Ok(Reading { picks, targets })
}

/// Each of some readings.
pub fn paired_readings(
    alloc: Global,
    lefts: usize,
    rights: usize,
    readings: &[Reading],
) -> Result<Items<Reading>, OutOfMemory>
    requires { AreWide (lefts * rights + lefts) readings.now }
    ensures { IfOk result (λ rs. rs ≡ map (paired_reading lefts rights) readings.now) }
{
    let mut out = Items::new(alloc);
    for reading in readings {
        out.push(paired_reading(alloc, lefts, rights, reading)?)?;
    }
    Ok(out)
}
