ghost use Rattle.std.specs.Prelude.{◌≡◌, ◌≤◌, ◌+◌, ◌∷◌, [], All, Err, IfOk, OnOk};
ghost use Rattle.query_core.specs.Filled.{filled_base};
ghost use Rattle.fill_core.specs.declared.end.FillEnd.TheVariants as ends;
ghost use Rattle.fill_core.specs.Offers.{Gathered, TooMuch};
ghost use Rattle.fill_core.specs.Sites.{site_filled, site_combos, site_types, unary_types, binary_types};

use crate::between::{Between, Sides};
use crate::end::FillEnd;
use crate::fillings::Fillings;
use crate::offer::Whole;
use crate::over::Over;
use crate::receiver::Receiver;
use crate::steps::Steps;
use bag_eval::input_rows;
use query_core::{Agg, Pairing, Uniting, group_types, input_types};
use sqlite_items::Items;
use std::alloc::Global;
use std::sync::ledger::Ledger;
use table_core::Task;
use value_core::{ColType, OutOfMemory, concatenated, copied};

/// An operator over one part.
#[derive(Clone, Copy, Debug)]
pub enum Unary<'a> {
    Filter,
    Group(&'a [usize], Agg),
}

/// An operator over two parts.
#[derive(Clone, Copy, Debug, PartialEq, Eq)]
pub enum Binary {
    Pair(Pairing),
    Unite(Uniting),
}

/// A node over the rows of its parts.
#[derive(Clone, Copy, Debug)]
pub enum Site<'a> {
    Base(u32),
    Over(Unary<'a>, &'a Fillings),
    Between(Binary, &'a Fillings, &'a Fillings),
}

// The types of an operator's columns, by its part's.
fn unary_types(
    alloc: Global,
    op: &Unary<'_>,
    child: &[ColType],
) -> Result<Items<ColType>, OutOfMemory>
    ensures { IfOk result (λ types. types ≡ unary_types op.now child.now) }
{
    match op {
        Unary::Filter => copied(alloc, child),
        Unary::Group(keys, agg) => group_types(alloc, child, keys, agg),
    }
}

// The types of an operator's columns, by its parts'.
fn binary_types(
    alloc: Global,
    op: Binary,
    left: &[ColType],
    right: &[ColType],
) -> Result<Items<ColType>, OutOfMemory>
    ensures { IfOk result (λ types. types ≡ binary_types op left.now right.now) }
{
    match op {
        Binary::Pair(_) => concatenated(alloc, left, right),
        Binary::Unite(_) => copied(alloc, left),
    }
}

// Hands an input to a receiver.
fn hand_base<R: Receiver>(
    alloc: Global,
    task: &Task,
    table: u32,
    receiver: &R,
    store: &mut R::Store,
) -> Result<(), FillEnd>
    requires typed { R.typed receiver.now (filled_base task.now table).types }
    requires accepts { R.accepts receiver.now (filled_base task.now table) }
    requires keeps { R.keeps receiver.now store.old }
    ensures gathered { OnOk result (Gathered (R.held receiver.now) (R.gives receiver.now) store.old store.new (filled_base task.now table ∷ [])) }
    ensures keeps { OnOk result (R.keeps receiver.now store.new) }
    ensures heavy { result ≡ Err ends.Heavy → TooMuch (R.bound receiver.now) (R.weighs receiver.now) (R.gives receiver.now) (R.held receiver.now store.old) (filled_base task.now table ∷ []) }
{
    let types = input_types(alloc, task.inputs(), table as usize)?;
    let rows = input_rows(alloc, task.inputs(), table as usize)?;
    let whole = Whole {
        types: types.as_slice(),
        preds: &[],
        rows: rows.as_slice(),
    };
    whole.hand(alloc, receiver, store)
}

impl Site<'_> {
    /// The types of its columns.
    pub fn types(&self, alloc: Global, task: &Task) -> Result<Items<ColType>, OutOfMemory>
        ensures { IfOk result (λ types. types ≡ site_types task.now self.now) }
    {
        match self {
            Site::Base(table) => input_types(alloc, task.inputs(), *table as usize),
            Site::Over(op, child) => unary_types(alloc, op, child.types.as_slice()),
            Site::Between(op, a, b) => {
                binary_types(alloc, *op, a.types.as_slice(), b.types.as_slice())
            }
        }
    }

    /// Hands all of its fillings to a receiver, in order. Each combination of its parts' entries is a step.
    pub fn walk<L: Ledger, R: Receiver>(
        &self,
        alloc: Global,
        task: &Task,
        receiver: &R,
        steps: &mut Steps<L>,
        store: &mut R::Store,
    ) -> Result<(), FillEnd>
        requires typed { R.typed receiver.now (site_types task.now self.now) }
        requires accepts { All (R.accepts receiver.now) (site_filled task.now self.now) }
        requires keeps { R.keeps receiver.now store.old }
        ensures gathered { OnOk result (Gathered (R.held receiver.now) (R.gives receiver.now) store.old store.new (site_filled task.now self.now)) }
        ensures keeps { OnOk result (R.keeps receiver.now store.new) }
        ensures heavy { result ≡ Err ends.Heavy → TooMuch (R.bound receiver.now) (R.weighs receiver.now) (R.gives receiver.now) (R.held receiver.now store.old) (site_filled task.now self.now) }
        ensures ticks { OnOk result (steps.new ≡ steps.old + site_combos self.now) }
        ensures few { steps.new ≤ steps.old + site_combos self.now }
    {
        let types = self.types(alloc, task)?;
        let types = types.as_slice();
        match self {
            Site::Base(table) => {
                steps.tick();
                hand_base(alloc, task, *table, receiver, store)
            }
            Site::Over(op, row) => {
                let child = row.types.as_slice();
                let over = Over {
                    task,
                    op,
                    types,
                    child,
                };
                over.walk(alloc, row.entries.as_slice(), receiver, steps, store)
            }
            Site::Between(op, a, b) => {
                let (op, left, right) = (*op, a.types.as_slice(), b.types.as_slice());
                let between = Between {
                    task,
                    op,
                    types,
                    left,
                    right,
                };
                let (lefts, rights) = (a.entries.as_slice(), b.entries.as_slice());
                between.walk(alloc, &Sides { lefts, rights }, receiver, steps, store)
            }
        }
    }
}
