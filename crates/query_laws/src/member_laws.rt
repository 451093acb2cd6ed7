ghost use Rattle.std.specs.Prelude.{List};
ghost use Rattle.value_core.specs.declared.value.Value.{Value};
ghost use Rattle.value_core.specs.declared.value.ColType.{ColType};
ghost use Rattle.query_laws.specs.Laws.{FaultsDecide, AtomsAscend};

use table_core::Task;

/// The law of membership: a query is one of the grammar exactly where nothing is wrong with it.
pub fn faults_decide_membership(task: &Task)
    ensures { FaultsDecide task.now }
{
    let _ = task.parts();
}

/// The law of the order of atoms: each atom of a hole's list stands before each later one.
#[tactic(auto, using(crate::proofs::AtomLaws::atoms_ascend))]
pub fn atoms_are_in_order()
    ensures { (types : List ColType) (constants : List Value) → AtomsAscend types constants }
{}
