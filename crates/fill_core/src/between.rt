ghost use Rattle.std.specs.Prelude.{◌≡◌, ◌≤◌, ◌+◌, ◌*◌, ◌++◌, All, Err, flat_map, length, IfOk, OnOk};
ghost use Rattle.query_core.specs.Filled.{filled_pairs};
ghost use Rattle.query_core.specs.declared.kinds.Pairing.TheVariants as pairing;
ghost use Rattle.fill_core.specs.declared.end.FillEnd.TheVariants as ends;
ghost use Rattle.fill_core.specs.Offers.{Gathered, TooMuch};
ghost use Rattle.fill_core.specs.Sites.{binary_filled, binary_with, binary_types};
ghost use Rattle.fill_core.specs.View.{entry_filled};

use crate::bits::left_choices;
use crate::choice::Hole;
use crate::end::FillEnd;
use crate::fillings::Entry;
use crate::offer::{Offer, Whole};
use crate::parts_seen::PairSeen;
use crate::receiver::Receiver;
use crate::sifter::Sifter;
use crate::site::Binary;
use crate::steps::Steps;
use bag_eval::{cross_and_pad_rows, cross_rows, unite_rows};
use predicate_core::Pred;
use query_core::{Pairing, Uniting};
use sqlite_items::Items;
use std::alloc::Global;
use std::sync::ledger::Ledger;
use table_core::{Task, Tuple};
use value_core::{ColType, OutOfMemory, concatenated};

/// An operator over two parts, with the types of its columns and of its parts'.
#[derive(Drop)]
pub struct Between<'a> {
    pub task: &'a Task,
    pub op: Binary,
    pub types: &'a [ColType],
    pub left: &'a [ColType],
    pub right: &'a [ColType],
}

/// One combination: a left entry and a right one.
#[derive(Drop)]
pub struct Parts<'a> {
    pub left: &'a Entry,
    pub right: &'a Entry,
}

/// A left entry, and the right ones.
#[derive(Drop)]
pub struct Side<'a> {
    pub left: &'a Entry,
    pub rights: &'a [Entry],
}

/// The left entries, and the right ones.
#[derive(Drop)]
pub struct Sides<'a> {
    pub lefts: &'a [Entry],
    pub rights: &'a [Entry],
}

impl Parts<'_> {
    // The predicates of both, the left part's first.
    fn preds(&self, alloc: Global) -> Result<Items<Pred>, OutOfMemory>
        ensures { IfOk result (λ preds. preds ≡ self.now.left.now.preds ++ self.now.right.now.preds) }
    {
        concatenated(
            alloc,
            self.left.preds.as_slice(),
            self.right.preds.as_slice(),
        )
    }
}

impl Between<'_> {
    // The rows of the parts of a pair.
    fn seen<'s>(&'s self, kind: Pairing, parts: &'s Parts<'_>) -> PairSeen<'s>
        ensures kind { result.kind ≡ kind }
        ensures types { result.types.now ≡ self.now.types.now }
        ensures right { result.right.now ≡ self.now.right.now }
        ensures lefts { result.lefts.now ≡ parts.now.left.now.rows }
        ensures rights { result.rights.now ≡ parts.now.right.now.rows }
    {
        PairSeen {
            kind,
            types: self.types,
            left: self.left,
            right: self.right,
            lefts: parts.left.rows.as_slice(),
            rights: parts.right.rows.as_slice(),
        }
    }

    // The hole of a pair, over the pairs of two entries' rows.
    fn hole<'s, 'c>(&'s self, candidates: &'c [Tuple]) -> Hole<'s, 'c>
        ensures task { result.task.now ≡ self.now.task.now }
        ensures types { result.types.now ≡ self.now.types.now }
        ensures candidates { result.candidates.now ≡ candidates.now }
    {
        Hole {
            task: self.task,
            types: self.types,
            candidates,
        }
    }

    // Hands the joins of two entries to a receiver.
    fn hand_joins<R: Receiver>(
        &self,
        alloc: Global,
        parts: &Parts<'_>,
        receiver: &R,
        store: &mut R::Store,
    ) -> Result<(), FillEnd>
        requires same { self.now.types.now ≡ self.now.left.now ++ self.now.right.now }
        requires typed { R.typed receiver.now self.now.types.now }
        requires accepts { All (R.accepts receiver.now) (filled_pairs self.now.task.now pairing.Join (entry_filled self.now.left.now parts.now.left.now) (entry_filled self.now.right.now parts.now.right.now)) }
        requires keeps { R.keeps receiver.now store.old }
        ensures gathered { OnOk result (Gathered (R.held receiver.now) (R.gives receiver.now) store.old store.new (filled_pairs self.now.task.now pairing.Join (entry_filled self.now.left.now parts.now.left.now) (entry_filled self.now.right.now parts.now.right.now))) }
        ensures keeps { OnOk result (R.keeps receiver.now store.new) }
        ensures heavy { result ≡ Err ends.Heavy → TooMuch (R.bound receiver.now) (R.weighs receiver.now) (R.gives receiver.now) (R.held receiver.now store.old) (filled_pairs self.now.task.now pairing.Join (entry_filled self.now.left.now parts.now.left.now) (entry_filled self.now.right.now parts.now.right.now)) }
    {
        if receiver.is_shut_pair(&self.seen(Pairing::Join, parts)) {
            return Ok(());
        }
        let (lefts, rights) = (parts.left.rows.as_slice(), parts.right.rows.as_slice());
        let pairs = cross_rows(alloc, lefts, rights)?;
        let Some(findings) = receiver.look(alloc, self.types, pairs.as_slice())? else {
            return Ok(());
        };
        let preds = parts.preds(alloc)?;
        let hole = self.hole(pairs.as_slice());
        let sifter = Sifter {
            receiver,
            findings: &findings,
            width: pairs.len(),
        };
        let choices = hole.wanted(alloc, &sifter)?;
        let offer = Offer {
            types: self.types,
            preds: preds.as_slice(),
            candidates: pairs.as_slice(),
            choices: choices.as_slice(),
        };
        receiver.take(alloc, &offer, &findings, store)
    }

    // Hands the left joins of two entries to a receiver.
    fn hand_left_joins<R: Receiver>(
        &self,
        alloc: Global,
        parts: &Parts<'_>,
        receiver: &R,
        store: &mut R::Store,
    ) -> Result<(), FillEnd>
        requires same { self.now.types.now ≡ self.now.left.now ++ self.now.right.now }
        requires typed { R.typed receiver.now self.now.types.now }
        requires accepts { All (R.accepts receiver.now) (filled_pairs self.now.task.now pairing.Left (entry_filled self.now.left.now parts.now.left.now) (entry_filled self.now.right.now parts.now.right.now)) }
        requires keeps { R.keeps receiver.now store.old }
        ensures gathered { OnOk result (Gathered (R.held receiver.now) (R.gives receiver.now) store.old store.new (filled_pairs self.now.task.now pairing.Left (entry_filled self.now.left.now parts.now.left.now) (entry_filled self.now.right.now parts.now.right.now))) }
        ensures keeps { OnOk result (R.keeps receiver.now store.new) }
        ensures heavy { result ≡ Err ends.Heavy → TooMuch (R.bound receiver.now) (R.weighs receiver.now) (R.gives receiver.now) (R.held receiver.now store.old) (filled_pairs self.now.task.now pairing.Left (entry_filled self.now.left.now parts.now.left.now) (entry_filled self.now.right.now parts.now.right.now)) }
    {
        if receiver.is_shut_pair(&self.seen(Pairing::Left, parts)) {
            return Ok(());
        }
        let (lefts, rights) = (parts.left.rows.as_slice(), parts.right.rows.as_slice());
        let candidates = cross_and_pad_rows(alloc, self.right.len(), lefts, rights)?;
        let Some(findings) = receiver.look(alloc, self.types, candidates.as_slice())? else {
            return Ok(());
        };
        let preds = parts.preds(alloc)?;
        let pairs = cross_rows(alloc, lefts, rights)?;
        let told = receiver.of_pairs(alloc, &findings, lefts.len(), rights.len())?;
        let sifter = Sifter {
            receiver,
            findings: &told,
            width: pairs.len(),
        };
        let of_pairs = self.hole(pairs.as_slice()).wanted(alloc, &sifter)?;
        let choices = left_choices(alloc, lefts.len(), rights.len(), of_pairs.as_slice())?;
        let offer = Offer {
            types: self.types,
            preds: preds.as_slice(),
            candidates: candidates.as_slice(),
            choices: choices.as_slice(),
        };
        receiver.take(alloc, &offer, &findings, store)
    }

    // Hands what the operator makes of two entries to a receiver.
    fn hand<R: Receiver>(
        &self,
        alloc: Global,
        parts: &Parts<'_>,
        receiver: &R,
        store: &mut R::Store,
    ) -> Result<(), FillEnd>
        requires same { self.now.types.now ≡ binary_types self.now.op self.now.left.now self.now.right.now }
        requires typed { R.typed receiver.now self.now.types.now }
        requires accepts { All (R.accepts receiver.now) (binary_filled self.now.task.now self.now.op self.now.left.now self.now.right.now parts.now.left.now parts.now.right.now) }
        requires keeps { R.keeps receiver.now store.old }
        ensures gathered { OnOk result (Gathered (R.held receiver.now) (R.gives receiver.now) store.old store.new (binary_filled self.now.task.now self.now.op self.now.left.now self.now.right.now parts.now.left.now parts.now.right.now)) }
        ensures keeps { OnOk result (R.keeps receiver.now store.new) }
        ensures heavy { result ≡ Err ends.Heavy → TooMuch (R.bound receiver.now) (R.weighs receiver.now) (R.gives receiver.now) (R.held receiver.now store.old) (binary_filled self.now.task.now self.now.op self.now.left.now self.now.right.now parts.now.left.now parts.now.right.now) }
    {
        match self.op {
            Binary::Pair(Pairing::Join) => self.hand_joins(alloc, parts, receiver, store),
            Binary::Pair(Pairing::Left) => self.hand_left_joins(alloc, parts, receiver, store),
            Binary::Unite(kind) => {
                let preds = parts.preds(alloc)?;
                let (lefts, rights) = (parts.left.rows.as_slice(), parts.right.rows.as_slice());
                let rows = unite_rows(alloc, kind, lefts, rights)?;
                let whole = Whole {
                    types: self.types,
                    preds: preds.as_slice(),
                    rows: rows.as_slice(),
                };
                whole.hand(alloc, receiver, store)
            }
        }
    }

    // Hands what the operator makes of a left entry with each of these right ones to a receiver. Each is a step.
    fn walk_rights<L: Ledger, R: Receiver>(
        &self,
        alloc: Global,
        side: &Side<'_>,
        receiver: &R,
        steps: &mut Steps<L>,
        store: &mut R::Store,
    ) -> Result<(), FillEnd>
        requires same { self.now.types.now ≡ binary_types self.now.op self.now.left.now self.now.right.now }
        requires typed { R.typed receiver.now self.now.types.now }
        requires accepts { All (R.accepts receiver.now) (binary_with self.now.task.now self.now.op self.now.left.now self.now.right.now side.now.rights.now side.now.left.now) }
        requires keeps { R.keeps receiver.now store.old }
        ensures gathered { OnOk result (Gathered (R.held receiver.now) (R.gives receiver.now) store.old store.new (binary_with self.now.task.now self.now.op self.now.left.now self.now.right.now side.now.rights.now side.now.left.now)) }
        ensures keeps { OnOk result (R.keeps receiver.now store.new) }
        ensures heavy { result ≡ Err ends.Heavy → TooMuch (R.bound receiver.now) (R.weighs receiver.now) (R.gives receiver.now) (R.held receiver.now store.old) (binary_with self.now.task.now self.now.op self.now.left.now self.now.right.now side.now.rights.now side.now.left.now) }
        ensures ticks { OnOk result (steps.new ≡ steps.old + length side.now.rights.now) }
        ensures few { steps.new ≤ steps.old + length side.now.rights.now }
    {
        for right in side.rights {
            let left = side.left;
            steps.tick();
            self.hand(alloc, &Parts { left, right }, receiver, store)?;
        }
        Ok(())
    }

    /// Hands what the operator makes of each left entry with each right one to a receiver. Each combination is a step.
    pub fn walk<L: Ledger, R: Receiver>(
        &self,
        alloc: Global,
        sides: &Sides<'_>,
        receiver: &R,
        steps: &mut Steps<L>,
        store: &mut R::Store,
    ) -> Result<(), FillEnd>
        requires same { self.now.types.now ≡ binary_types self.now.op self.now.left.now self.now.right.now }
        requires typed { R.typed receiver.now self.now.types.now }
        requires accepts { All (R.accepts receiver.now) (flat_map (binary_with self.now.task.now self.now.op self.now.left.now self.now.right.now sides.now.rights.now) sides.now.lefts.now) }
        requires keeps { R.keeps receiver.now store.old }
        ensures gathered { OnOk result (Gathered (R.held receiver.now) (R.gives receiver.now) store.old store.new (flat_map (binary_with self.now.task.now self.now.op self.now.left.now self.now.right.now sides.now.rights.now) sides.now.lefts.now)) }
        ensures keeps { OnOk result (R.keeps receiver.now store.new) }
        ensures heavy { result ≡ Err ends.Heavy → TooMuch (R.bound receiver.now) (R.weighs receiver.now) (R.gives receiver.now) (R.held receiver.now store.old) (flat_map (binary_with self.now.task.now self.now.op self.now.left.now self.now.right.now sides.now.rights.now) sides.now.lefts.now) }
        ensures ticks { OnOk result (steps.new ≡ steps.old + length sides.now.lefts.now * length sides.now.rights.now) }
        ensures few { steps.new ≤ steps.old + length sides.now.lefts.now * length sides.now.rights.now }
    {
        for left in sides.lefts {
            let rights = sides.rights;
            self.walk_rights(alloc, &Side { left, rights }, receiver, steps, store)?;
        }
        Ok(())
    }
}
