ghost use Rattle.std.specs.Prelude.{◌≡◌, ◌≤◌, ◌+◌, ◌++◌, length, slice_get, Some, Err, option_copied, OnOk};
ghost use Rattle.query_core.specs.Grammar.{skeletons};
ghost use Rattle.query_core.specs.View.{tree};
ghost use Rattle.rank_core.specs.View.{ranked_queries};
ghost use Rattle.fill_core.specs.Bounds.{combos_of, IsWithin};
ghost use Rattle.fill_core.specs.View.{ArePartsOf};
ghost use Rattle.fill_core.specs.declared.end.FillEnd.TheVariants as ends;
ghost use Rattle.root_search.specs.Answers.{root_answers, TooMany};

use crate::finder::Root;
use crate::laws::fillings_are_of_grammar;
use fill_core::{Below, FillEnd, Steps, site_of};
use rank_core::Ranked;
use std::alloc::Global;
use std::sync::ledger::Ledger;

impl Root<'_> {
    /// Appends the answers of the skeleton over the fillings of its parts, in the grammar's order. They are read off bits.
    ///
    /// `Heavy` comes only where there are then more answers than the bound. Each combination of the parts' entries is a step.
    pub fn push_answers<L: Ledger>(
        &self,
        alloc: Global,
        below: &Below<'_>,
        steps: &mut Steps<L>,
        out: &mut Vec<Ranked>,
    ) -> Result<(), FillEnd>
        requires skeleton { slice_get (skeletons self.now.task.now) self.now.number ≡ Some (tree self.now.skeleton.now) }
        requires parts { ArePartsOf self.now.task.now (tree self.now.skeleton.now) (option_copied below.now.left) (option_copied below.now.right) }
        requires room { IsWithin self.now.bound (length out.old.items) }
        ensures found { OnOk result (ranked_queries out.new ≡ ranked_queries out.old ++ root_answers self.now.task.now (self.now.number, tree self.now.skeleton.now)) }
        ensures within { OnOk result (IsWithin self.now.bound (length out.new.items)) }
        ensures heavy { result ≡ Err ends.Heavy → TooMany self.now.bound (ranked_queries out.old) (root_answers self.now.task.now (self.now.number, tree self.now.skeleton.now)) }
        ensures ticks { OnOk result (steps.new ≡ steps.old + combos_of self.now.task.now (tree self.now.skeleton.now)) }
        ensures few { steps.new ≤ steps.old + combos_of self.now.task.now (tree self.now.skeleton.now) }
    {
        fillings_are_of_grammar(self.task);
        let site = site_of(self.skeleton, below);
        site.walk(alloc, self.task, self, steps, out)
    }
}
