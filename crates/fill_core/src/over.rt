ghost use Rattle.std.specs.Prelude.{◌≡◌, ◌≤◌, ◌+◌, All, Err, flat_map, length, OnOk};
ghost use Rattle.query_core.specs.Filled.{filled_filters, filled_groups};
ghost use Rattle.fill_core.specs.declared.end.FillEnd.TheVariants as ends;
ghost use Rattle.fill_core.specs.Offers.{Gathered, TooMuch};
ghost use Rattle.fill_core.specs.Sites.{unary_filled, unary_types};
ghost use Rattle.fill_core.specs.View.{entry_filled};

use crate::choice::Hole;
use crate::end::FillEnd;
use crate::fillings::Entry;
use crate::offer::{Offer, Whole};
use crate::parts_seen::GroupSeen;
use crate::receiver::Receiver;
use crate::sifter::Sifter;
use crate::site::Unary;
use crate::steps::Steps;
use bag_eval::group_tuples;
use query_core::Agg;
use std::alloc::Global;
use std::sync::ledger::Ledger;
use table_core::Task;
use value_core::ColType;

/// An operator over one part, with the types of its columns and of its part's.
#[derive(Drop)]
pub struct Over<'a> {
    pub task: &'a Task,
    pub op: &'a Unary<'a>,
    pub types: &'a [ColType],
    pub child: &'a [ColType],
}

// Hands the standard filters over an entry, whose columns have these types, to a receiver.
fn hand_filters<R: Receiver>(
    alloc: Global,
    over: &Over<'_>,
    child: &Entry,
    receiver: &R,
    store: &mut R::Store,
) -> Result<(), FillEnd>
    requires typed { R.typed receiver.now over.now.child.now }
    requires accepts { All (R.accepts receiver.now) (filled_filters over.now.task.now (entry_filled over.now.child.now child.now)) }
    requires keeps { R.keeps receiver.now store.old }
    ensures gathered { OnOk result (Gathered (R.held receiver.now) (R.gives receiver.now) store.old store.new (filled_filters over.now.task.now (entry_filled over.now.child.now child.now))) }
    ensures keeps { OnOk result (R.keeps receiver.now store.new) }
    ensures heavy { result ≡ Err ends.Heavy → TooMuch (R.bound receiver.now) (R.weighs receiver.now) (R.gives receiver.now) (R.held receiver.now store.old) (filled_filters over.now.task.now (entry_filled over.now.child.now child.now)) }
{
    let rows = child.rows.as_slice();
    let Some(findings) = receiver.look(alloc, over.child, rows)? else {
        return Ok(());
    };
    let hole = Hole {
        task: over.task,
        types: over.child,
        candidates: rows,
    };
    let sifter = Sifter {
        receiver,
        findings: &findings,
        width: rows.len(),
    };
    let choices = hole.wanted_drops(alloc, &sifter)?;
    let offer = Offer {
        types: over.child,
        preds: child.preds.as_slice(),
        candidates: rows,
        choices: choices.as_slice(),
    };
    receiver.take(alloc, &offer, &findings, store)
}

impl Over<'_> {
    // Hands what the operator makes of an entry to a receiver.
    fn hand<R: Receiver>(
        &self,
        alloc: Global,
        child: &Entry,
        receiver: &R,
        store: &mut R::Store,
    ) -> Result<(), FillEnd>
        requires same { self.now.types.now ≡ unary_types self.now.op.now self.now.child.now }
        requires typed { R.typed receiver.now self.now.types.now }
        requires accepts { All (R.accepts receiver.now) (unary_filled self.now.task.now self.now.op.now self.now.child.now child.now) }
        requires keeps { R.keeps receiver.now store.old }
        ensures gathered { OnOk result (Gathered (R.held receiver.now) (R.gives receiver.now) store.old store.new (unary_filled self.now.task.now self.now.op.now self.now.child.now child.now)) }
        ensures keeps { OnOk result (R.keeps receiver.now store.new) }
        ensures heavy { result ≡ Err ends.Heavy → TooMuch (R.bound receiver.now) (R.weighs receiver.now) (R.gives receiver.now) (R.held receiver.now store.old) (unary_filled self.now.task.now self.now.op.now self.now.child.now child.now) }
    {
        match self.op {
            Unary::Filter => hand_filters(alloc, self, child, receiver, store),
            Unary::Group(keys, agg) => {
                let rows = child.rows.as_slice();
                let seen = GroupSeen {
                    types: self.types,
                    keys,
                    child: self.child,
                    rows,
                };
                if receiver.is_shut_group(&seen) {
                    return Ok(());
                }
                let Some(groups) = group_tuples(alloc, keys, agg, rows)? else {
                    return Ok(());
                };
                let whole = Whole {
                    types: self.types,
                    preds: child.preds.as_slice(),
                    rows: groups.as_slice(),
                };
                whole.hand(alloc, receiver, store)
            }
        }
    }

    /// Hands what the operator makes of each of these entries to a receiver. Each is a step.
    pub fn walk<L: Ledger, R: Receiver>(
        &self,
        alloc: Global,
        children: &[Entry],
        receiver: &R,
        steps: &mut Steps<L>,
        store: &mut R::Store,
    ) -> Result<(), FillEnd>
        requires same { self.now.types.now ≡ unary_types self.now.op.now self.now.child.now }
        requires typed { R.typed receiver.now self.now.types.now }
        requires accepts { All (R.accepts receiver.now) (flat_map (unary_filled self.now.task.now self.now.op.now self.now.child.now) children.now) }
        requires keeps { R.keeps receiver.now store.old }
        ensures gathered { OnOk result (Gathered (R.held receiver.now) (R.gives receiver.now) store.old store.new (flat_map (unary_filled self.now.task.now self.now.op.now self.now.child.now) children.now)) }
        ensures keeps { OnOk result (R.keeps receiver.now store.new) }
        ensures heavy { result ≡ Err ends.Heavy → TooMuch (R.bound receiver.now) (R.weighs receiver.now) (R.gives receiver.now) (R.held receiver.now store.old) (flat_map (unary_filled self.now.task.now self.now.op.now self.now.child.now) children.now) }
        ensures ticks { OnOk result (steps.new ≡ steps.old + length children.now) }
        ensures few { steps.new ≤ steps.old + length children.now }
    {
        for child in children {
            steps.tick();
            self.hand(alloc, child, receiver, store)?;
        }
        Ok(())
    }
}
