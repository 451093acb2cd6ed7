ghost use Rattle.std.specs.Prelude.{◌≡◌, ◌++◌, ◌∷◌, [], IfOk, map};
ghost use Rattle.table_core.specs.Rows.{types_of};
ghost use Rattle.query_core.specs.View.{tree};
ghost use Rattle.query_core.specs.Meaning.{input_at, type_at, agg_type, group_types, columns, hole_types};

use crate::agg::Agg;
use crate::node::Node;
use sqlite_items::Items;
use std::alloc::Global;
use table_core::Table;
use value_core::{ColType, OutOfMemory};

/// The type of a column, text where there is none.
pub fn type_at(types: &[ColType], at: usize) -> ColType
    ensures { result ≡ type_at types.now at }
{
    match types.get(at) {
        Some(kind) => *kind,
        None => ColType::Text,
    }
}

/// The type of what an aggregate gives over columns of these types.
pub fn agg_type(types: &[ColType], agg: &Agg) -> ColType
    ensures { result ≡ agg_type types.now agg.now }
{
    match *agg {
        Agg::CountAll | Agg::Count(_) | Agg::CountDistinct(_) | Agg::Sum(_) => ColType::Int,
        Agg::Min(column) | Agg::Max(column) => type_at(types, column),
    }
}

/// The types of a table's columns.
pub fn table_types(alloc: Global, table: &Table) -> Result<Items<ColType>, OutOfMemory>
    ensures { IfOk result (λ types. types ≡ types_of table.now) }
{
    let mut out = Items::new(alloc);
    for column in table.columns() {
        out.push(column.kind)?;
    }
    Ok(out)
}

/// The types of an input's columns, none where there is no such input.
pub fn input_types(
    alloc: Global,
    inputs: &[Table],
    table: usize,
) -> Result<Items<ColType>, OutOfMemory>
    ensures { IfOk result (λ types. types ≡ types_of (input_at inputs.now table)) }
{
    match inputs.get(table) {
        Some(input) => table_types(alloc, input),
        None => Ok(Items::new(alloc)),
    }
}

/// The types of the columns of these numbers.
pub fn picked_types(
    alloc: Global,
    types: &[ColType],
    picks: &[usize],
) -> Result<Items<ColType>, OutOfMemory>
    ensures { IfOk result (λ out. out ≡ map (type_at types.now) picks.now) }
{
    let mut out = Items::new(alloc);
    for at in picks {
        out.push(type_at(types, *at))?;
    }
    Ok(out)
}

/// The types of a group's columns: its keys', and then the aggregate's.
pub fn group_types(
    alloc: Global,
    types: &[ColType],
    keys: &[usize],
    agg: &Agg,
) -> Result<Items<ColType>, OutOfMemory>
    ensures { IfOk result (λ out. out ≡ group_types types.now keys.now agg.now) }
{
    let mut out = picked_types(alloc, types, keys)?;
    out.push(agg_type(types, agg))?;
    Ok(out)
}

// The left types, and then the right types.
fn joined_types(
    lefts: Items<ColType>,
    rights: Items<ColType>,
) -> Result<Items<ColType>, OutOfMemory>
    ensures { IfOk result (λ types. types ≡ lefts ++ rights) }
{
    let mut types = lefts;
    types.append(rights)?;
    Ok(types)
}

/// The types of a tree's columns.
pub fn node_types(
    alloc: Global,
    inputs: &[Table],
    node: &Node,
) -> Result<Items<ColType>, OutOfMemory>
    ensures { IfOk result (λ types. types ≡ columns inputs.now (tree node.now)) }
{
    match node {
        Node::Base(table) => input_types(alloc, inputs, *table as usize),
        Node::Filter(child, _) => node_types(alloc, inputs, child.get()),
        Node::Join(a, b, _) | Node::Left(a, b, _) => {
            let lefts = node_types(alloc, inputs, a.get())?;
            let rights = node_types(alloc, inputs, b.get())?;
            joined_types(lefts, rights)
        }
        Node::Group(child, keys, agg) => {
            let types = node_types(alloc, inputs, child.get())?;
            group_types(alloc, types.as_slice(), keys.as_slice(), agg)
        }
        Node::UnionAll(a, _) | Node::Union(a, _) => node_types(alloc, inputs, a.get()),
    }
}

// The types of the columns over which the predicate of a pair stands.
pub(crate) fn hole_types(
    alloc: Global,
    inputs: &[Table],
    a: &Node,
    b: &Node,
) -> Result<Items<ColType>, OutOfMemory>
    ensures { IfOk result (λ types. types ≡ hole_types inputs.now (tree a.now) (tree b.now)) }
{
    let lefts = node_types(alloc, inputs, a)?;
    let rights = node_types(alloc, inputs, b)?;
    joined_types(lefts, rights)
}
