ghost use Rattle.std.specs.Prelude.{◌≡◌, ◌+◌, ◌*◌, ℕ, Bool, List, Option, All, length, Ok, Err, Some, None, true, IfOk, IfSome, OnOk};
ghost use Rattle.value_core.specs.declared.value.ColType as values;
ghost use Rattle.table_core.specs.Rows.{Row};
ghost use Rattle.query_core.specs.Filled.{Filled};
ghost use Rattle.query_core.specs.Groups.{grouped};
ghost use Rattle.query_core.specs.declared.agg.Agg as aggs;
ghost use Rattle.bit_classes.specs.declared.join.Join as joins;
ghost use Rattle.fill_core.specs.declared.end.FillEnd.TheVariants as ends;
ghost use Rattle.fill_core.specs.Offers.{filled_by_all, pair_candidates, Gathered, GivesNothing, WholeGivesNothing, Sifts, SiftsPairs, TooMuch};

use crate::end::FillEnd;
use crate::offer::Offer;
use crate::parts_seen::{GroupSeen, PairSeen};
use bit_classes::Join;
use bit_rows::BitRow;
use std::alloc::Global;
use table_core::Tuple;
use value_core::{ColType, OutOfMemory};

/// What gathers something of the fillings of a node, combination by combination of its parts' entries.
pub trait Receiver {
    /// What it gathers into.
    type Store;

    /// What it finds out about candidate rows before any choice of them is made.
    type Findings: Drop;

    // What a store holds, and what is gathered of a filling.
    ghost Item: { Type 0 };

    ghost held: { Self → Self.Store → List Item };

    ghost gives: { Self → Filled → List Item };

    // How much each item weighs, and how much all may weigh, where there is a bound; and a store that tells the bound is kept.
    ghost weighs: { Self → Item → ℕ };

    ghost bound: { Self → Option ℕ };

    ghost keeps: { Self → Self.Store → Type 0 };

    // The types of columns, and the fillings, that it may be handed.
    ghost typed: { Self → List values.ColType → Type 0 };

    ghost accepts: { Self → Filled → Type 0 };

    // What its findings are about candidate rows of columns of these types.
    ghost found: { Self → List values.ColType → List Row → Self.Findings → Type 0 };

    // Of how many candidates its findings tell.
    ghost about: { Self → Self.Findings → ℕ → Type 0 };

    // Of which bits of these candidates predicates that AND joins may be wanted, and of which those that OR joins, by its findings.
    ghost may: { Self → Self.Findings → joins.Join → List Bool → Bool };

    /// Whether no choice of what a pair chooses from gives it anything, told by the pair's parts alone. It may say so, and needn't.
    fn is_shut_pair(&self, seen: &PairSeen<'_>) -> bool
        requires typed { typed self.now seen.now.types.now }
        ensures { result ≡ true → GivesNothing (gives self.now) seen.now.types.now (pair_candidates seen.now.kind (length seen.now.right.now) seen.now.lefts.now seen.now.rights.now) };

    /// The same of all of the groups of some rows, whatever their aggregate is.
    fn is_shut_group(&self, seen: &GroupSeen<'_>) -> bool
        requires typed { typed self.now seen.now.types.now }
        ensures { result ≡ true → (agg : aggs.Agg) (groups : List Row) → grouped seen.now.keys.now agg seen.now.rows.now ≡ Some groups → WholeGivesNothing (gives self.now) seen.now.types.now groups };

    /// Looks at the candidate rows of a combination. None where no choice of them gives it anything.
    fn look(
        &self,
        alloc: Global,
        types: &[ColType],
        candidates: &[Tuple],
    ) -> Result<Option<Self::Findings>, OutOfMemory>
        requires typed { typed self.now types.now }
        ensures found { IfOk result (λ findings. IfSome findings (found self.now types.now candidates.now)) }
        ensures about { IfOk result (λ findings. IfSome findings (λ f. about self.now f (length candidates.now))) }
        ensures sifts { IfOk result (λ findings. IfSome findings (λ f. Sifts (gives self.now) types.now candidates.now (may self.now f))) }
        ensures nothing { result ≡ Ok None → GivesNothing (gives self.now) types.now candidates.now };

    /// What it found out about the candidate rows of a left join of so many left and right rows, told of their pairs alone.
    fn of_pairs(
        &self,
        alloc: Global,
        findings: &Self::Findings,
        lefts: usize,
        rights: usize,
    ) -> Result<Self::Findings, OutOfMemory>
        requires { about self.now findings.now (lefts * rights + lefts) }
        ensures { IfOk result (λ f. (types : List values.ColType) (candidates : List Row) → length candidates ≡ lefts * rights + lefts → found self.now types candidates findings.now → SiftsPairs (gives self.now) types candidates lefts rights (may self.now f)) };

    /// Whether predicates that are joined so, and keep candidates of these bits, may be wanted, by what it found out. It takes no memory.
    fn may(&self, findings: &Self::Findings, join: Join, row: &BitRow) -> bool
        ensures { result ≡ may self.now findings.now join row.now };

    /// Gathers from the fillings that a node has over one combination, on whose candidate rows it has looked.
    fn take(
        &self,
        alloc: Global,
        offer: &Offer<'_>,
        findings: &Self::Findings,
        store: &mut Self::Store,
    ) -> Result<(), FillEnd>
        requires wide { All (λ c. length c.bits ≡ length offer.now.candidates.now) offer.now.choices.now }
        requires typed { typed self.now offer.now.types.now }
        requires accepts { All (accepts self.now) (filled_by_all offer.now.types.now offer.now.preds.now offer.now.candidates.now offer.now.choices.now) }
        requires found { found self.now offer.now.types.now offer.now.candidates.now findings.now }
        requires keeps { keeps self.now store.old }
        ensures gathered { OnOk result (Gathered (held self.now) (gives self.now) store.old store.new (filled_by_all offer.now.types.now offer.now.preds.now offer.now.candidates.now offer.now.choices.now)) }
        ensures keeps { OnOk result (keeps self.now store.new) }
        ensures heavy { result ≡ Err ends.Heavy → TooMuch (bound self.now) (weighs self.now) (gives self.now) (held self.now store.old) (filled_by_all offer.now.types.now offer.now.preds.now offer.now.candidates.now offer.now.choices.now) };
}
