ghost use Rattle.std.specs.Prelude.{◌≡◌, ◌+◌, ◌<◌, Err, IfOk};
ghost use Rattle.fill_core.specs.declared.end.FillEnd.TheVariants as ends;

use crate::bits::masked_rows;
use crate::choice::Choice;
use crate::end::FillEnd;
use crate::fillings::Entry;
use crate::offer::Offer;
use crate::parts_seen::{GroupSeen, PairSeen};
use crate::receiver::Receiver;
use bit_classes::Join;
use bit_rows::BitRow;
use predicate_core::Pred;
use sqlite_items::Items;
use std::alloc::Global;
use table_core::Tuple;
use value_core::{ColType, OutOfMemory, concatenated, copied};

/// Keeps the fillings of a node whose columns have these types as entries, which may weigh so much together, where there is a bound.
#[derive(Drop)]
pub struct Keeper<'a> {
    pub types: &'a [ColType],
    pub bound: Option<u64>,
}

/// Entries, and what their weight leaves of a bound, where there is one.
#[derive(Drop)]
pub struct Kept {
    pub entries: Vec<Entry>,
    pub left: Option<u64>,
}

// What an entry of so many rows leaves of what is left of a bound.
fn left_after(left: u64, rows: u64) -> Result<u64, FillEnd>
    ensures left { IfOk result (λ after. after + (rows + 1) ≡ left) }
    ensures heavy { result ≡ Err ends.Heavy → left < rows + 1 }
{
    if left <= rows {
        return Err(FillEnd::Heavy);
    }
    Ok(left - rows - 1)
}

impl Kept {
    ghost use Rattle.std.specs.Prelude.{◌≡◌, ◌+◌, ◌++◌, ◌∷◌, [], length, Err, OnOk};
    ghost use Rattle.fill_core.specs.declared.end.FillEnd.TheVariants as ends;
    ghost use Rattle.fill_core.specs.Bounds.{Leaves, Passes};

    // Keeps an entry more, where what is left of the bound has room for it.
    fn push(&mut self, entry: Entry) -> Result<(), FillEnd>
        ensures kept { OnOk result (self.new.entries.items ≡ self.old.entries.items ++ entry ∷ []) }
        ensures left { OnOk result (Leaves self.old.left self.new.left (length entry.rows + 1)) }
        ensures heavy { result ≡ Err ends.Heavy → Passes self.old.left (length entry.rows + 1) }
    {
        if let Some(left) = self.left {
            self.left = Some(left_after(left, entry.rows.len() as u64)?);
        }
        self.entries.push(entry)?;
        Ok(())
    }
}

impl Offer<'_> {
    ghost use Rattle.std.specs.Prelude.{◌≡◌, ◌++◌, IfOk};
    ghost use Rattle.fill_core.specs.Offers.{as_list, filled_by};
    ghost use Rattle.fill_core.specs.View.{entry_filled};

    /// The predicates of the parts, and behind them that of a choice, where it has one.
    pub fn preds_with(&self, alloc: Global, pred: &Option<Pred>) -> Result<Items<Pred>, OutOfMemory>
        ensures { IfOk result (λ preds. preds ≡ self.now.preds.now ++ as_list pred.now) }
    {
        match pred {
            Some(pred) => concatenated(alloc, self.preds, &[*pred]),
            None => copied(alloc, self.preds),
        }
    }

    // The entry of a choice.
    fn entry(&self, alloc: Global, choice: &Choice) -> Result<Entry, OutOfMemory>
        ensures { IfOk result (λ e. entry_filled self.now.types.now e ≡ filled_by self.now.types.now self.now.preds.now self.now.candidates.now choice.now) }
    {
        Ok(Entry {
            preds: self.preds_with(alloc, &choice.pred)?,
            rows: masked_rows(alloc, &choice.bits, self.candidates)?,
        })
    }
}

impl Receiver for Keeper<'_> {
    ghost use Rattle.std.specs.Prelude.{◌≡◌, ◌+◌, ◌∷◌, [], length, true};
    ghost use Rattle.query_core.specs.Filled.{Filled};
    ghost use Rattle.fill_core.specs.Bounds.{Leaves};
    ghost use Rattle.fill_core.specs.View.{entries_filled, filled_weight, entries_weight};

    type Store = Kept;

    type Findings = ();

    ghost Item = { Filled };

    ghost held = { λ k store. entries_filled k.types.now store.entries.items };

    ghost gives = { λ k f. f ∷ [] };

    ghost weighs = { λ k f. filled_weight f };

    ghost bound = { λ k. k.bound };

    ghost keeps = { λ k store. Leaves k.bound store.left (entries_weight store.entries.items) };

    ghost typed = { λ k types. types ≡ k.types.now };

    ghost accepts = { λ k f. Unit };

    ghost found = { λ k types candidates findings. Unit };

    ghost about = { λ k findings n. Unit };

    ghost may = { λ k findings join bits. true };

    fn is_shut_pair(&self, _seen: &PairSeen<'_>) -> bool {
        false
    }

    fn is_shut_group(&self, _seen: &GroupSeen<'_>) -> bool {
        false
    }

    fn look(
        &self,
        _alloc: Global,
        _types: &[ColType],
        _candidates: &[Tuple],
    ) -> Result<Option<()>, OutOfMemory> {
        Ok(Some(()))
    }

    fn of_pairs(
        &self,
        _alloc: Global,
        _findings: &(),
        _lefts: usize,
        _rights: usize,
    ) -> Result<(), OutOfMemory> {
        Ok(())
    }

    fn may(&self, _findings: &(), _join: Join, _row: &BitRow) -> bool {
        true
    }

    fn take(
        &self,
        alloc: Global,
        offer: &Offer<'_>,
        _findings: &(),
        store: &mut Kept,
    ) -> Result<(), FillEnd> {
        for choice in offer.choices {
            store.push(offer.entry(alloc, choice)?)?;
        }
        Ok(())
    }
}
