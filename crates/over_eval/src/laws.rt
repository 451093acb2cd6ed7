ghost use Rattle.over_eval.specs.Laws.{RowsAreCovered, OnlyLiveAnswer, AnswersOfLive, NeverByRowlessPart};

use table_core::TaskParts;

/// The law of abstract rows: whatever fills a skeleton, each of its rows has an abstract row of its own that covers it.
pub fn rows_are_covered(task: &TaskParts)
    ensures { RowsAreCovered task.now }
{}

/// The law of live skeletons: what is not live has no answer, so the answers are those of the live skeletons alone.
pub fn what_is_not_live_has_no_answer(task: &TaskParts)
    ensures none { OnlyLiveAnswer task.now }
    ensures live { AnswersOfLive task.now }
{}

/// The law of what never has rows: exactly a tree in which a part without a hole has none.
pub fn never_where_a_part_has_no_rows(task: &TaskParts)
    ensures { NeverByRowlessPart task.now }
{}
