ghost use Rattle.std.specs.Prelude.{◌≡◌, ◌⊎◌, IfOk, MatchResult, Some, None};
ghost use Rattle.query_core.specs.View.{tree};
ghost use Rattle.query_core.specs.Meaning.{columns};
ghost use Rattle.query_core.specs.Columns.{columns_fault};

use crate::agree::types_agree;
use crate::fault::QueryFault;
use crate::names::{names_columns, names_inputs};
use crate::node::Node;
use crate::types::node_types;
use sqlite_items::Items;
use std::alloc::Global;
use table_core::TaskParts;
use value_core::{ColType, OutOfMemory};

// The first thing that is wrong with a tree.
fn fault_of(alloc: Global, task: &TaskParts, node: &Node) -> Result<Option<QueryFault>, OutOfMemory>
    ensures { IfOk result (λ fault. fault ≡ columns_fault task.now (tree node.now)) }
{
    if !names_inputs(task, node) {
        return Ok(Some(QueryFault::BadTable));
    }
    if !names_columns(alloc, task, node)? {
        return Ok(Some(QueryFault::BadColumn));
    }
    if !types_agree(alloc, task, node)? {
        return Ok(Some(QueryFault::TypesDiffer));
    }
    Ok(None)
}

/// The types of a tree's columns, or the first thing that is wrong with it: a leaf that names no input, a column or
/// constant that isn't there, types that differ.
pub fn columns(alloc: Global, task: &TaskParts, node: &Node) -> Result<Items<ColType>, QueryFault>
    ensures { MatchResult result
        (λ types. (types ≡ columns task.now.inputs (tree node.now)) × (columns_fault task.now (tree node.now) ≡ None))
        (λ fault. (fault ≡ QueryFault.OutOfMemory) ⊎ (columns_fault task.now (tree node.now) ≡ Some fault)) }
{
    match fault_of(alloc, task, node) {
        Ok(None) => node_types(alloc, task.inputs.as_slice(), node).map_err(
            |_| QueryFault::OutOfMemory,
        ),
        Ok(Some(fault)) => Err(fault),
        Err(_) => Err(QueryFault::OutOfMemory),
    }
}
