ghost use Rattle.std.specs.Prelude.{◌≡◌, ◌<◌, ◌^◌, ◌∷◌, [], length, map, flat_map, ◌++◌, Err, IfOk, OnOk};
ghost use Rattle.skeleton_graph.specs.Seen.{Lists, base_part, base_parts, filter_on, pair_on, pairs_between, pairs_at, pairs_on, first_kinds, last_kinds, group_on, keyed_on, groups_on, last_seen, seen_at, next_parts};
ghost use Rattle.skeleton_graph.specs.View.{see, sees, see_levels};
ghost use Rattle.skeleton_graph.specs.declared.fault.ListFault.TheVariants.{TooMany};

use crate::fault::ListFault;
use crate::keys::{agg_list, key_lists};
use crate::meeting::Meeting;
use crate::part::{Part, Placed};
use crate::room::room_for_more;
use query_core::{Agg, Pairing, Uniting};
use sqlite_items::Items;
use std::alloc::Global;
use table_core::TaskParts;
use value_core::OutOfMemory;

/// What a level is listed over: the task, and for how many skeletons there is room.
#[derive(Drop)]
pub struct Ground<'a> {
    pub alloc: Global,
    pub task: &'a TaskParts,
    pub room: usize,
}

// Appends a skeleton, where there is room for it.
fn push(ground: &Ground<'_>, out: &mut Vec<Part>, part: Part) -> Result<(), ListFault>
    ensures { Lists ground.now.room out.old.items out.new.items (part ∷ []) result }
{
    room_for_more(ground.room, out.len())?;
    Ok(out.push(part)?)
}

// Appends the filter over a skeleton, where it takes one.
fn push_filter(ground: &Ground<'_>, child: &Placed, out: &mut Vec<Part>) -> Result<(), ListFault>
    ensures { Lists ground.now.room out.old.items out.new.items (filter_on (see child.now)) result }
{
    if child.takes_filter() {
        push(ground, out, child.filter(ground.alloc)?)
    } else {
        Ok(())
    }
}

// Appends the filters over these skeletons.
fn push_filters(ground: &Ground<'_>, last: &[Placed], out: &mut Vec<Part>) -> Result<(), ListFault>
    ensures { Lists ground.now.room out.old.items out.new.items (flat_map filter_on (sees last.now)) result }
{
    for child in last {
        push_filter(ground, child, out)?;
    }
    Ok(())
}

// Appends the skeleton of two parts, where they may meet so.
fn push_pair(
    ground: &Ground<'_>,
    how: Meeting,
    a: &Placed,
    b: &Placed,
    out: &mut Vec<Part>,
) -> Result<(), ListFault>
    ensures { Lists ground.now.room out.old.items out.new.items (pair_on ground.now.task.now how (see a.now) (see b.now)) result }
{
    if a.may_meet(ground.task, how, b) {
        push(ground, out, a.with(ground.alloc, how, b)?)
    } else {
        Ok(())
    }
}

// Appends those of a part with each of these.
fn push_pairs_with(
    ground: &Ground<'_>,
    how: Meeting,
    a: &Placed,
    rights: &[Placed],
    out: &mut Vec<Part>,
) -> Result<(), ListFault>
    ensures { Lists ground.now.room out.old.items out.new.items (flat_map (pair_on ground.now.task.now how (see a.now)) (sees rights.now)) result }
{
    for b in rights {
        push_pair(ground, how, a, b, out)?;
    }
    Ok(())
}

// Appends those of each of these parts with each of those.
fn push_pairs_between(
    ground: &Ground<'_>,
    how: Meeting,
    lefts: &[Placed],
    rights: &[Placed],
    out: &mut Vec<Part>,
) -> Result<(), ListFault>
    ensures { Lists ground.now.room out.old.items out.new.items (pairs_between ground.now.task.now how (sees lefts.now) (sees rights.now)) result }
{
    for a in lefts {
        push_pairs_with(ground, how, a, rights, out)?;
    }
    Ok(())
}

// Appends the group over a skeleton with these keys and this aggregate.
fn push_group(
    ground: &Ground<'_>,
    child: &Placed,
    keys: &[usize],
    agg: &Agg,
    out: &mut Vec<Part>,
) -> Result<(), ListFault>
    ensures { Lists ground.now.room out.old.items out.new.items (group_on (see child.now) keys.now agg.now ∷ []) result }
{
    push(ground, out, child.group(ground.alloc, keys, agg)?)
}

// Appends a group over a skeleton for each of these aggregates.
fn push_groups_of(
    ground: &Ground<'_>,
    child: &Placed,
    keys: &[usize],
    aggs: &[Agg],
    out: &mut Vec<Part>,
) -> Result<(), ListFault>
    ensures { Lists ground.now.room out.old.items out.new.items (map (group_on (see child.now) keys.now) aggs.now) result }
{
    for agg in aggs {
        push_group(ground, child, keys, agg, out)?;
    }
    Ok(())
}

// Appends the groups over a skeleton with these keys.
fn push_keyed(
    ground: &Ground<'_>,
    child: &Placed,
    keys: &[usize],
    out: &mut Vec<Part>,
) -> Result<(), ListFault>
    ensures { Lists ground.now.room out.old.items out.new.items (keyed_on ground.now.task.now (see child.now) keys.now) result }
{
    let aggs = agg_list(
        ground.alloc,
        &ground.task.aggregates,
        child.part.types.as_slice(),
        keys,
    )?;
    push_groups_of(ground, child, keys, aggs.as_slice(), out)
}

// Appends the groups over a skeleton with each of these key lists.
fn push_keyed_by(
    ground: &Ground<'_>,
    child: &Placed,
    lists: &[Items<usize>],
    out: &mut Vec<Part>,
) -> Result<(), ListFault>
    ensures { Lists ground.now.room out.old.items out.new.items (flat_map (keyed_on ground.now.task.now (see child.now)) lists.now) result }
{
    for keys in lists {
        push_keyed(ground, child, keys.as_slice(), out)?;
    }
    Ok(())
}

// Appends the groups over a skeleton.
fn push_groups(ground: &Ground<'_>, child: &Placed, out: &mut Vec<Part>) -> Result<(), ListFault>
    ensures { Lists ground.now.room out.old.items out.new.items (groups_on ground.now.task.now (see child.now)) result }
{
    let lists = key_lists(ground.alloc, child.part.types.len())?;
    push_keyed_by(ground, child, lists.as_slice(), out)
}

// Appends the groups over these skeletons.
fn push_all_groups(
    ground: &Ground<'_>,
    last: &[Placed],
    out: &mut Vec<Part>,
) -> Result<(), ListFault>
    ensures { Lists ground.now.room out.old.items out.new.items (flat_map (groups_on ground.now.task.now) (sees last.now)) result }
{
    for child in last {
        push_groups(ground, child, out)?;
    }
    Ok(())
}

// The skeletons of a level, none where there is no such level.
fn level(levels: &[Items<Placed>], number: usize) -> &[Placed]
    ensures { sees result.now ≡ seen_at (see_levels levels.now) number }
{
    match levels.get(number) {
        Some(level) => level.as_slice(),
        None => &[],
    }
}

// Appends the skeletons of a part of this level and one that has as many operators as then are left.
fn push_pairs_at(
    ground: &Ground<'_>,
    how: Meeting,
    levels: &[Items<Placed>],
    number: usize,
    out: &mut Vec<Part>,
) -> Result<(), ListFault>
    requires { number < length levels.now }
    ensures { Lists ground.now.room out.old.items out.new.items (pairs_at ground.now.task.now how (see_levels levels.now) number) result }
{
    let lefts = level(levels, number);
    let rights = level(levels, levels.len() - 1 - number);
    push_pairs_between(ground, how, lefts, rights, out)
}

// Appends the skeletons of two parts of the levels so far.
fn push_pairs(
    ground: &Ground<'_>,
    how: Meeting,
    levels: &[Items<Placed>],
    out: &mut Vec<Part>,
) -> Result<(), ListFault>
    ensures { Lists ground.now.room out.old.items out.new.items (pairs_on ground.now.task.now how (see_levels levels.now)) result }
{
    for number in 0..levels.len() {
        push_pairs_at(ground, how, levels, number, out)?;
    }
    Ok(())
}

// Appends the first kinds of the next level: filters, joins and left joins.
fn push_first_kinds(
    ground: &Ground<'_>,
    levels: &[Items<Placed>],
    out: &mut Vec<Part>,
) -> Result<(), ListFault>
    ensures { Lists ground.now.room out.old.items out.new.items (first_kinds ground.now.task.now (see_levels levels.now)) result }
{
    push_filters(ground, last_level(levels), out)?;
    push_pairs(ground, Meeting::Pair(Pairing::Join), levels, out)?;
    push_pairs(ground, Meeting::Pair(Pairing::Left), levels, out)
}

// Appends the last kinds of the next level: groups and unions.
fn push_last_kinds(
    ground: &Ground<'_>,
    levels: &[Items<Placed>],
    out: &mut Vec<Part>,
) -> Result<(), ListFault>
    ensures { Lists ground.now.room out.old.items out.new.items (last_kinds ground.now.task.now (see_levels levels.now)) result }
{
    push_all_groups(ground, last_level(levels), out)?;
    push_pairs(ground, Meeting::Union(Uniting::All), levels, out)?;
    push_pairs(ground, Meeting::Union(Uniting::Firsts), levels, out)
}

// The skeletons of the last level.
fn last_level(levels: &[Items<Placed>]) -> &[Placed]
    ensures { sees result.now ≡ last_seen (see_levels levels.now) }
{
    level(levels, levels.len().saturating_sub(1))
}

/// The next level, where there is room for it.
pub fn next_level(ground: &Ground<'_>, levels: &[Items<Placed>]) -> Result<Vec<Part>, ListFault>
    ensures next { IfOk result (λ level. level.items ≡ next_parts ground.now.task.now (see_levels levels.now)) }
    ensures many { result ≡ Err TooMany → ground.now.room < length (next_parts ground.now.task.now (see_levels levels.now)) }
{
    let mut out = Vec::new(ground.alloc);
    push_first_kinds(ground, levels, &mut out)?;
    push_last_kinds(ground, levels, &mut out)?;
    Ok(out)
}

// Appends the input of this number.
fn push_base(
    alloc: Global,
    task: &TaskParts,
    table: usize,
    out: &mut Vec<Part>,
) -> Result<(), OutOfMemory>
    requires { table < 2 ^ 32 }
    ensures { OnOk result (out.new.items ≡ out.old.items ++ base_part task.now table ∷ []) }
{
    Ok(out.push(Part::base(alloc, task, table as u32)?)?)
}

/// The inputs, in order.
pub fn bases(alloc: Global, task: &TaskParts) -> Result<Vec<Part>, OutOfMemory>
    requires { length task.now.inputs < 2 ^ 32 }
    ensures { IfOk result (λ out. out.items ≡ base_parts task.now) }
{
    let mut out = Vec::new(alloc);
    for table in 0..task.inputs.len() {
        push_base(alloc, task, table, &mut out)?;
    }
    Ok(out)
}
