ghost use Rattle.std.specs.Prelude.{◌≡◌, ◌≤◌, ◌<◌, ◌+◌, true, option_copied, Err, IfOk, OnOk};
ghost use Rattle.query_core.specs.Filled.{standard_fillings};
ghost use Rattle.query_core.specs.Meaning.{columns};
ghost use Rattle.query_core.specs.View.{tree};
ghost use Rattle.table_core.specs.declared.task.TaskParts.{TaskParts};
ghost use Rattle.fill_core.specs.Bounds.{combos_of, IsWithin, Passes};
ghost use Rattle.fill_core.specs.declared.end.FillEnd.TheVariants as ends;
ghost use Rattle.fill_core.specs.Sites.{site_combos, site_filled, site_types};
ghost use Rattle.fill_core.specs.View.{AreFillingsOf, ArePartsOf, has_parts, weight, weight_of};

use crate::end::FillEnd;
use crate::fillings::Fillings;
use crate::keeper::{Keeper, Kept};
use crate::site::{Binary, Site, Unary};
use crate::steps::Steps;
use query_core::{Node, Pairing, Uniting};
use sqlite_items::Items;
use std::alloc::Global;
use std::marker::Brand;
use std::sync::ledger::{Blank, Ledger};
use table_core::Task;
use value_core::OutOfMemory;

/// The rows of a skeleton's parts: of its left part or its only one, and of its right part.
#[derive(Clone, Copy, Debug)]
pub struct Below<'a> {
    pub left: Option<&'a Fillings>,
    pub right: Option<&'a Fillings>,
}

/// The root of a skeleton over the rows of its parts.
pub fn site_of<'a>(skeleton: &'a Node, below: &Below<'a>) -> Site<'a>
    requires parts { has_parts (tree skeleton.now) (option_copied below.now.left) (option_copied below.now.right) ≡ true }
    ensures filled { (task : TaskParts) → ArePartsOf task (tree skeleton.now) (option_copied below.now.left) (option_copied below.now.right) → site_filled task result ≡ standard_fillings task (tree skeleton.now) }
    ensures combos { (task : TaskParts) → ArePartsOf task (tree skeleton.now) (option_copied below.now.left) (option_copied below.now.right) → site_combos result ≡ combos_of task (tree skeleton.now) }
    ensures types { (task : TaskParts) → ArePartsOf task (tree skeleton.now) (option_copied below.now.left) (option_copied below.now.right) → site_types task result ≡ columns task.inputs (tree skeleton.now) }
{
    match (skeleton, below.left, below.right) {
        (Node::Base(table), _, _) => Site::Base(*table),
        (Node::Filter(_, _), Some(child), _) => Site::Over(Unary::Filter, child),
        (Node::Group(_, keys, agg), Some(child), _) => {
            Site::Over(Unary::Group(keys.as_slice(), *agg), child)
        }
        (Node::Join(_, _, _), Some(left), Some(right)) => {
            Site::Between(Binary::Pair(Pairing::Join), left, right)
        }
        (Node::Left(_, _, _), Some(left), Some(right)) => {
            Site::Between(Binary::Pair(Pairing::Left), left, right)
        }
        (Node::UnionAll(_, _), Some(left), Some(right)) => {
            Site::Between(Binary::Unite(Uniting::All), left, right)
        }
        (Node::Union(_, _), Some(left), Some(right)) => {
            Site::Between(Binary::Unite(Uniting::Firsts), left, right)
        }
        _ => unreachable!(),
    }
}

/// How nodes are filled: of which task, and how much a node's fillings may weigh, where there is a bound.
#[derive(Drop)]
pub struct Filler<'a> {
    pub task: &'a Task,
    pub bound: Option<u64>,
}

impl Filler<'_> {
    /// The standard fillings of a skeleton that have rows, in order, over those of its parts.
    ///
    /// `Heavy` comes only where they weigh more than the bound. Each combination of the parts' entries is a step.
    #[tactic(auto, using(crate::proofs::SiteLaws::singles))]
    pub fn fill_over<L: Ledger>(
        &self,
        alloc: Global,
        skeleton: &Node,
        below: &Below<'_>,
        steps: &mut Steps<L>,
    ) -> Result<Fillings, FillEnd>
        requires { ArePartsOf self.now.task.now (tree skeleton.now) (option_copied below.now.left) (option_copied below.now.right) }
        ensures filled { IfOk result (λ fillings. AreFillingsOf self.now.task.now (tree skeleton.now) fillings) }
        ensures within { IfOk result (λ fillings. IsWithin self.now.bound (weight fillings)) }
        ensures heavy { result ≡ Err ends.Heavy → Passes self.now.bound (weight_of self.now.task.now (tree skeleton.now)) }
        ensures ticks { OnOk result (steps.new ≡ steps.old + combos_of self.now.task.now (tree skeleton.now)) }
        ensures few { steps.new ≤ steps.old + combos_of self.now.task.now (tree skeleton.now) }
    {
        let site = site_of(skeleton, below);
        let types = site.types(alloc, self.task)?;
        let mut kept = Kept {
            entries: Vec::new(alloc),
            left: self.bound,
        };
        let keeper = Keeper {
            types: types.as_slice(),
            bound: self.bound,
        };
        site.walk(alloc, self.task, &keeper, steps, &mut kept)?;
        let Kept { entries, left: _ } = kept;
        let entries = Items::from_vec(entries);
        Ok(Fillings { types, entries })
    }
}

// The same, of a task without a bound, where nobody counts the steps.
fn filled_alone<L: Ledger>(
    alloc: Global,
    task: &Task,
    skeleton: &Node,
    below: &Below<'_>,
    blank: Blank,
) -> Result<Fillings, OutOfMemory>
    requires name { blank.name ≡ L.name }
    requires parts { blank.parts ≡ L.parts }
    requires some { 0 < blank.parts }
    requires below { ArePartsOf task.now (tree skeleton.now) (option_copied below.now.left) (option_copied below.now.right) }
    ensures { IfOk result (λ fillings. AreFillingsOf task.now (tree skeleton.now) fillings) }
{
    let filler = Filler { task, bound: None };
    let mut steps = Steps::<L>::open(blank);
    match filler.fill_over(alloc, skeleton, below, &mut steps) {
        Ok(fillings) => Ok(fillings),
        Err(FillEnd::OutOfMemory) => Err(OutOfMemory),
        Err(FillEnd::Heavy) => unreachable!(),
    }
}

/// The standard fillings of a skeleton that have rows, in order, over those of its parts, whatever they weigh.
pub fn fill_all(
    alloc: Global,
    task: &Task,
    skeleton: &Node,
    below: &Below<'_>,
) -> Result<Fillings, OutOfMemory>
    requires { ArePartsOf task.now (tree skeleton.now) (option_copied below.now.left) (option_copied below.now.right) }
    ensures { IfOk result (λ fillings. AreFillingsOf task.now (tree skeleton.now) fillings) }
{
    filled_alone::<Brand>(alloc, task, skeleton, below, Blank::new(1))
}
