use crate::choice::Choice;
use crate::end::FillEnd;
use crate::receiver::Receiver;
use predicate_core::Pred;
use std::alloc::Global;
use table_core::Tuple;
use value_core::ColType;

/// What a node offers over one combination of its parts' entries: the types of its columns, the parts' predicates, its
/// candidate rows, and what it may keep of them.
#[derive(Drop)]
pub struct Offer<'a> {
    pub types: &'a [ColType],
    pub preds: &'a [Pred],
    pub candidates: &'a [Tuple],
    pub choices: &'a [Choice],
}

/// A filling whose node has no predicate: it keeps all of its rows.
#[derive(Drop)]
pub struct Whole<'a> {
    pub types: &'a [ColType],
    pub preds: &'a [Pred],
    pub rows: &'a [Tuple],
}

impl Whole<'_> {
    ghost use Rattle.std.specs.Prelude.{◌≡◌, ◌∷◌, [], Err, OnOk};
    ghost use Rattle.fill_core.specs.declared.end.FillEnd.TheVariants as ends;
    ghost use Rattle.fill_core.specs.Offers.{Gathered, TooMuch};

    /// Hands it to a receiver.
    #[tactic(auto, using(crate::proofs::OfferLaws::whole_is, crate::proofs::OfferLaws::whole_wide, crate::proofs::OfferLaws::all_of_one))]
    pub fn hand<R: Receiver>(
        &self,
        alloc: Global,
        receiver: &R,
        store: &mut R::Store,
    ) -> Result<(), FillEnd>
        requires typed { R.typed receiver.now self.now.types.now }
        requires accepts { R.accepts receiver.now (record { types = self.now.types.now; preds = self.now.preds.now; rows = self.now.rows.now }) }
        requires keeps { R.keeps receiver.now store.old }
        ensures gathered { OnOk result (Gathered (R.held receiver.now) (R.gives receiver.now) store.old store.new (record { types = self.now.types.now; preds = self.now.preds.now; rows = self.now.rows.now } ∷ [])) }
        ensures keeps { OnOk result (R.keeps receiver.now store.new) }
        ensures heavy { result ≡ Err ends.Heavy → TooMuch (R.bound receiver.now) (R.weighs receiver.now) (R.gives receiver.now) (R.held receiver.now store.old) (record { types = self.now.types.now; preds = self.now.preds.now; rows = self.now.rows.now } ∷ []) }
    {
        let Some(findings) = receiver.look(alloc, self.types, self.rows)? else {
            return Ok(());
        };
        let every = [Choice::every(alloc, self.rows.len())?];
        let offer = Offer {
            types: self.types,
            preds: self.preds,
            candidates: self.rows,
            choices: &every,
        };
        receiver.take(alloc, &offer, &findings, store)
    }
}
