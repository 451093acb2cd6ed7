ghost use Rattle.std.specs.Prelude.{◌≡◌, ◌≤◌, ◌+◌, ◌*◌, ◌++◌, ◌∷◌, [], All, length, map, take, drop, not, IfOk, OnOk, if◌then◌else◌};
ghost use Rattle.std.specs.List.{list_any};
ghost use Rattle.bit_rows.specs.Masked.{masked};
ghost use Rattle.fill_core.specs.Choices.{with_alone, left_choice};

use crate::choice::Choice;
use bit_rows::BitRow;
use sqlite_items::Items;
use std::alloc::Global;
use table_core::Tuple;
use value_core::OutOfMemory;

// Appends a copy of a row, if its bit is set.
fn push_kept(
    alloc: Global,
    out: &mut Items<Tuple>,
    row: &Tuple,
    kept: bool,
) -> Result<(), OutOfMemory>
    ensures { OnOk result (out.new ≡ out.old ++ (if kept then row.now ∷ [] else [])) }
{
    if kept {
        out.push(row.copy(alloc)?)?;
    }
    Ok(())
}

/// The rows at whose places a bit is set.

pub fn masked_rows(
    alloc: Global,
    bits: &BitRow,
    rows: &[Tuple],
) -> Result<Items<Tuple>, OutOfMemory>
    ensures { IfOk result (λ out. out ≡ masked bits.now rows.now) }
{
    let mut out = Items::new(alloc);
    for i in 0..rows.len() {
        push_kept(alloc, &mut out, &rows[i], bits.bit(i).unwrap_or(false))?;
    }
    Ok(out)
}

// Appends the bits of so many pairs from a place on, and behind them whether none is set.
#[tactic(auto, using(crate::proofs::MaskLaws::take_bit, crate::proofs::MaskLaws::none_more))]
fn push_left(
    out: &mut Vec<bool>,
    bits: &BitRow,
    from: usize,
    rights: usize,
) -> Result<(), OutOfMemory>
    requires { from + rights ≤ length bits.now }
    ensures { OnOk result (out.new.items ≡ out.old.items ++ (take rights (drop from bits.now) ++ not (list_any (λ b. b) (take rights (drop from bits.now))) ∷ [])) }
{
    let _len = bits.len();
    let mut alone = true;
    for k in 0..rights {
        let kept = bits.bit(from + k).unwrap_or(false);
        alone = alone && !kept;
        out.push(kept)?;
    }
    Ok(out.push(alone)?)
}

// The bits of the pairs of so many left rows, each with so many right rows, and behind each left row's whether it is alone.
fn with_alone(
    alloc: Global,
    lefts: usize,
    rights: usize,
    bits: &BitRow,
) -> Result<BitRow, OutOfMemory>
    requires { length bits.now ≡ lefts * rights }
    ensures { IfOk result (λ out. out ≡ with_alone lefts rights bits.now) }
{
    let _len = bits.len();
    let mut out = Vec::new(alloc);
    let mut from = 0;
    for _left in 0..lefts {
        push_left(&mut out, bits, from, rights)?;
        from += rights;
    }
    BitRow::of(alloc, out.as_slice())
}

/// The choices of all pairs of so many left and right rows, as choices of each left row's pairs and its padded row.
pub fn left_choices(
    alloc: Global,
    lefts: usize,
    rights: usize,
    choices: &[Choice],
) -> Result<Vec<Choice>, OutOfMemory>
    requires { All (λ c. length c.bits ≡ lefts * rights) choices.now }
    ensures { IfOk result (λ out. out.items ≡ map (left_choice lefts rights) choices.now) }
{
    let mut out = Vec::new(alloc);
    for choice in choices {
        let (pred, bits) = (choice.pred, with_alone(alloc, lefts, rights, &choice.bits)?);
        out.push(Choice { pred, bits })?;
    }
    Ok(out)
}
