ghost use Rattle.std.specs.Prelude.{ℕ, Bool, List};
ghost use Rattle.value_core.specs.declared.value.ColType.{ColType};
ghost use Rattle.table_core.specs.Rows.{Row, TableData};
ghost use Rattle.map_walk.specs.declared.target.Target.{Target};
ghost use Rattle.root_search.specs.Laws.{GivenByBits, NoneByFew, ReadingsFit, FillingsFit, AnswersByRoots};

use query_laws::faults_decide_membership;
use table_core::{Task, TaskParts};

/// The law of answers by bits: the candidates that some bits keep give an output exactly where the bits give its targets.
#[tactic(auto, using(crate::proofs::BitLaws::given_by_bits))]
pub fn bits_give_what_rows_give()
    ensures { (picks : List ℕ) (distinct : Bool) (bits : List Bool) (candidates output : List Row) → GivenByBits picks distinct bits candidates output }
{}

/// The law of maps with too few candidates: no bits give their targets.
#[tactic(auto, using(crate::proofs::BitLaws::none_by_few))]
pub fn too_few_give_nothing()
    ensures { (distinct : Bool) (wanted : ℕ) (bits : List Bool) (targets : List Target) → NoneByFew distinct wanted bits targets }
{}

/// The law of readings: each has the targets of its map, whose masks have the length of bits of the candidates.
#[tactic(auto, using(crate::proofs::ReadingLaws::readings_fit))]
pub fn readings_have_their_targets()
    ensures { (types : List ColType) (candidates : List Row) (table : TableData) (bits : List Bool) → ReadingsFit types candidates table bits }
{}

/// The law of the queries of standard fillings: each is of the grammar.
#[tactic(auto, using(crate::proofs::AnswerLaws::fillings_fit))]
pub fn fillings_are_of_grammar(task: &Task)
    ensures { FillingsFit task.now }
{
    faults_decide_membership(task);
}

/// The law of a task's answers: they are those of its skeletons' standard fillings, in order.
#[tactic(auto, using(crate::proofs::AnswerLaws::answers_are))]
pub fn answers_are_by_roots(task: &TaskParts)
    ensures { AnswersByRoots task.now }
{}
