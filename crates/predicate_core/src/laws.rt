ghost use Rattle.std.specs.Prelude.{◌≡◌};
ghost use Rattle.std.specs.Bool.{Decides};
ghost use Rattle.predicate_core.specs.Atoms.{atom_list};
ghost use Rattle.predicate_core.specs.Equal.{same_pred};
ghost use Rattle.predicate_core.specs.Laws.{EachOnce, PredsOnce, NumberedByPlace, KeepsByAtoms};

use crate::atom::Atom;
use crate::pred::Pred;
use value_core::{ColType, Value};

/// The law of `same_pred`: it tells exactly the predicates that are equal.
#[tactic(auto, using(crate::proofs::SameLaws::same_pred_decides))]
pub fn same_pred_is_equality(p: &Pred, q: &Pred)
    ensures { Decides (same_pred p.now q.now) (p.now ≡ q.now) }
{}

/// The law of `atoms`: each stands once in their list.
#[tactic(auto, using(crate::proofs::OnceLaws::atoms_once))]
pub fn atoms_are_once(types: &[ColType], constants: &[Value])
    ensures { EachOnce (atom_list types.now constants.now) }
{}

/// The law of `preds`: over atoms of which each stands once, each predicate stands once.
#[tactic(auto, using(crate::proofs::OnceLaws::preds_once))]
pub fn preds_are_once(atoms: &[Atom], bound: u32)
    ensures { PredsOnce atoms.now bound }
{}

/// The law of a predicate's number: its first place in the list is its only one.
#[tactic(auto, using(crate::proofs::OnceLaws::numbered_by_place))]
pub fn numbers_are_places(types: &[ColType], constants: &[Value], bound: u32)
    ensures { NumberedByPlace types.now constants.now bound }
{}

/// The law of `keeps`: an AND keeps what each of its atoms keeps, an OR what one of them keeps.
#[tactic(auto, using(crate::proofs::KeepsLaws::keeps_by_atoms))]
pub fn keeps_is_by_atoms(constants: &[Value], row: &[Value], a: Atom, b: Atom, c: Atom)
    ensures { KeepsByAtoms constants.now row.now a b c }
{}
