ghost use Rattle.predicate_core.specs.Laws.{EachOnce};
ghost use Rattle.query_laws.specs.StandardForm.{FormsAreQueries, FormsAreStandard, FormsGiveTheSame, StandardStays, answered, AnswersAreForms};

use table_core::TaskParts;

/// The law of the standard form: each query of the grammar has one there, which is standard and gives the same rows; a standard query is its own.
#[tactic(auto, using(crate::proofs::StandardQueryLaws::forms_are_queries, crate::proofs::StandardQueryLaws::forms_are_standard, crate::proofs::StandardQueryLaws::forms_give_the_same, crate::proofs::StandardQueryLaws::standard_stays))]
pub fn queries_have_standard_forms(task: &TaskParts)
    ensures listed { FormsAreQueries task.now }
    ensures standard { FormsAreStandard task.now }
    ensures same_rows { FormsGiveTheSame task.now }
    ensures own { StandardStays task.now }
{}

/// The law of what the answers are: the standard forms of the queries of the grammar that give the output, each once.
#[tactic(auto, using(crate::proofs::StandardAnswerLaws::answers_once))]
pub fn answers_are_standard_forms(task: &TaskParts)
    ensures forms { AnswersAreForms task.now }
    ensures once { EachOnce (answered task.now) }
{}
