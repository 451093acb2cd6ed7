ghost use Rattle.bit_classes.specs.Laws.{VectorsOfPreds};

use predicate_core::Atom;
use value_core::Value;

/// The law that ties vectors to predicates: the vectors of the predicates in order, of which classes are listed, are those that
/// the vectors of the atoms give.
#[tactic(auto, using(crate::proofs::PredLaws::vectors_of_preds))]
pub fn vectors_are_of_preds(constants: &[Value], atoms: &[Atom], bound: u32)
    ensures { VectorsOfPreds constants.now atoms.now bound }
{}
