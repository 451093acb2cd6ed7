ghost use Rattle.std.specs.Prelude.{◌≡◌, ◌+◌, ◌≤◌, IfOk, Some, None, length};
ghost use Rattle.std.specs.Cmp.Lexicographic.{pointwise};
ghost use Rattle.value_core.specs.Value.{same_type};
ghost use Rattle.query_core.specs.Tree.{base};
ghost use Rattle.skeleton_graph.specs.Seen.{base_part, filter_part, are_few, are_in_order, pair_in_order, may_meet, met, met_kind, met_types, group_on, kind_takes_filter};
ghost use Rattle.skeleton_graph.specs.View.{see, placed};

use crate::meeting::Meeting;
use crate::node::Kind;
use query_core::{Agg, Pairing, Uniting, group_types, input_types, same_types};
use sqlite_items::Items;
use std::alloc::Global;
use table_core::TaskParts;
use value_core::{ColType, OutOfMemory, concatenated, copied};

/// A skeleton by its root's kind and its children's numbers, with the table numbers of its leaves and the types of its columns.
#[derive(Drop)]
pub struct Part {
    pub kind: Kind,
    pub left: Option<u32>,
    pub right: Option<u32>,
    pub leaves: Items<u32>,
    pub types: Items<ColType>,
}

/// A skeleton with its own number.
#[derive(Drop)]
pub struct Placed {
    pub number: u32,
    pub part: Part,
}

// The kind of two parts that meet so.
fn met_kind(how: Meeting) -> Kind
    ensures { result ≡ met_kind how }
{
    match how {
        Meeting::Pair(Pairing::Join) => Kind::Join,
        Meeting::Pair(Pairing::Left) => Kind::Left,
        Meeting::Union(Uniting::All) => Kind::UnionAll,
        Meeting::Union(Uniting::Firsts) => Kind::Union,
    }
}

// The types of the columns of two parts that meet so.
fn met_types(
    alloc: Global,
    how: Meeting,
    a: &[ColType],
    b: &[ColType],
) -> Result<Items<ColType>, OutOfMemory>
    ensures { IfOk result (λ types. types ≡ met_types how a.now b.now) }
{
    match how {
        Meeting::Pair(_) => concatenated(alloc, a, b),
        Meeting::Union(_) => copied(alloc, a),
    }
}

impl Part {
    /// An input.
    pub fn base(alloc: Global, task: &TaskParts, table: u32) -> Result<Part, OutOfMemory>
        ensures { IfOk result (λ part. part ≡ base_part task.now table) }
    {
        Ok(Part {
            kind: Kind::Base(table),
            left: None,
            right: None,
            leaves: copied(alloc, &[table])?,
            types: input_types(alloc, task.inputs.as_slice(), table as usize)?,
        })
    }

    // Whether a filter may stand over it.
    fn takes_filter(&self) -> bool
        ensures { result ≡ kind_takes_filter self.now.kind }
    {
        !matches!(self.kind, Kind::Filter | Kind::Join)
    }
}

impl Placed {
    /// Whether a filter may stand over it.
    pub fn takes_filter(&self) -> bool
        ensures { result ≡ (see self.now).takes_filter }
    {
        self.part.takes_filter()
    }

    /// The filter over it.
    pub fn filter(&self, alloc: Global) -> Result<Part, OutOfMemory>
        ensures { IfOk result (λ part. part ≡ filter_part (see self.now)) }
    {
        Ok(Part {
            kind: Kind::Filter,
            left: Some(self.number),
            right: None,
            leaves: copied(alloc, self.part.leaves.as_slice())?,
            types: copied(alloc, self.part.types.as_slice())?,
        })
    }

    // Whether it has, together with another, no more leaves than the task allows.
    fn has_room_for(&self, task: &TaskParts, other: &Placed) -> bool
        ensures { result ≡ are_few task.now (see self.now) (see other.now) }
    {
        match (task.leaves as usize).checked_sub(self.part.leaves.len()) {
            Some(left) => other.part.leaves.len() <= left,
            None => false,
        }
    }

    // Whether its leaves don't come after another's.
    fn in_order(&self, other: &Placed) -> bool
        ensures { result ≡ are_in_order (see self.now) (see other.now) }
    {
        !self
            .part
            .leaves
            .as_slice()
            .cmp(other.part.leaves.as_slice())
            .is_gt()
    }

    // Whether it may stand in a pair before another.
    fn pairs_in_order(&self, kind: Pairing, other: &Placed) -> bool
        ensures { result ≡ pair_in_order kind (see self.now) (see other.now) }
    {
        match kind {
            Pairing::Join => self.in_order(other),
            Pairing::Left => true,
        }
    }

    // Whether its columns have the types of another's.
    fn same_types(&self, other: &Placed) -> bool
        ensures { result ≡ pointwise same_type (see self.now).types (see other.now).types }
    {
        same_types(self.part.types.as_slice(), other.part.types.as_slice())
    }

    /// Whether it may meet another so.
    pub fn may_meet(&self, task: &TaskParts, how: Meeting, other: &Placed) -> bool
        ensures { result ≡ may_meet task.now how (see self.now) (see other.now) }
    {
        let few = self.has_room_for(task, other);
        match how {
            Meeting::Pair(kind) => few && self.pairs_in_order(kind, other),
            Meeting::Union(_) => few && self.in_order(other) && self.same_types(other),
        }
    }

    /// The skeleton of it and another.
    pub fn with(&self, alloc: Global, how: Meeting, other: &Placed) -> Result<Part, OutOfMemory>
        ensures { IfOk result (λ part. part ≡ met how (see self.now) (see other.now)) }
    {
        let leaves = concatenated(
            alloc,
            self.part.leaves.as_slice(),
            other.part.leaves.as_slice(),
        )?;
        let types = met_types(
            alloc,
            how,
            self.part.types.as_slice(),
            other.part.types.as_slice(),
        )?;
        Ok(Part {
            kind: met_kind(how),
            left: Some(self.number),
            right: Some(other.number),
            leaves,
            types,
        })
    }

    /// The group over it.
    pub fn group(&self, alloc: Global, keys: &[usize], agg: &Agg) -> Result<Part, OutOfMemory>
        ensures { IfOk result (λ part. part ≡ group_on (see self.now) keys.now agg.now) }
    {
        Ok(Part {
            kind: Kind::Group(copied(alloc, keys)?, *agg),
            left: Some(self.number),
            right: None,
            leaves: copied(alloc, self.part.leaves.as_slice())?,
            types: group_types(alloc, self.part.types.as_slice(), keys, agg)?,
        })
    }
}

/// These skeletons, numbered from this number on.
pub fn numbered(alloc: Global, first: u32, parts: Vec<Part>) -> Result<Items<Placed>, OutOfMemory>
    requires { first + length parts.items ≤ 100000 }
    ensures { IfOk result (λ out. out ≡ placed first parts.items) }
{
    let mut out = Items::new(alloc);
    let mut number = first;
    for part in parts {
        out.push(Placed { number, part })?;
        number += 1;
    }
    Ok(out)
}
