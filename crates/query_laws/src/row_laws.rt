ghost use Rattle.std.specs.Prelude.{ℕ, Bool, List};
ghost use Rattle.table_core.specs.Rows.{Row};
ghost use Rattle.query_core.specs.declared.agg.Agg.{Agg};
ghost use Rattle.query_laws.specs.Laws.{AreFirstCopies, GroupsByKey, GroupsHaveMembers, GroupsByMembers, MembersOfKept, GroupsOfPart};

/// The law of first copies: each row once, at its first place, in the rows' order.
#[tactic(auto, using(crate::proofs::RowLaws::first_copies))]
pub fn firsts_are_first_copies()
    ensures { (rows : List Row) → AreFirstCopies rows }
{}

/// The law of groups by their keys: each key stands once, and each row is a member of its own key's group alone.
#[tactic(auto, using(crate::proofs::RowLaws::groups_by_key))]
pub fn groups_are_by_key()
    ensures { (keys : List ℕ) (rows : List Row) → GroupsByKey keys rows }
{}

/// The law of groups with key columns: each has a member.
#[tactic(auto, using(crate::proofs::RowLaws::groups_members))]
pub fn groups_have_members()
    ensures { (first : ℕ) (others : List ℕ) (rows : List Row) → GroupsHaveMembers first others rows }
{}

/// The law of the rows of groups: each is its key and what the aggregate gives for the key's members.
#[tactic(auto, using(crate::proofs::RowLaws::groups_by_members))]
pub fn groups_are_by_members()
    ensures { (keys : List ℕ) (agg : Agg) (rows : List Row) → GroupsByMembers keys agg rows }
{}

/// The law of the members of a filtered table: they are the members that the filter keeps.
#[tactic(auto, using(crate::proofs::RowLaws::members_of_kept))]
pub fn members_of_the_kept()
    ensures { (keys : List ℕ) (rows : List Row) (key : Row) (test : Row → Bool) → MembersOfKept keys rows key test }
{}

/// The law of the groups of a part of a table: each aggregate is that of a part of a group's members.
#[tactic(auto, using(crate::proofs::RowLaws::groups_of_part))]
pub fn groups_of_a_part()
    ensures { (keys : List ℕ) (agg : Agg) (part rows : List Row) → GroupsOfPart keys agg part rows }
{}
