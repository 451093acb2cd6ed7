ghost use Rattle.std.specs.Prelude.{◌≡◌, ◌⊎◌, IfOk, MatchResult, Some, None};
ghost use Rattle.query_core.specs.View.{tree, select};
ghost use Rattle.query_core.specs.Membership.{picks_in_range, picks_agree, names_fault, grammar_fault, size_fault, query_fault};

use crate::agree::{same_types, types_agree};
use crate::fault::QueryFault;
use crate::names::{keys_in_range, names_columns, names_inputs};
use crate::node::Node;
use crate::query::Query;
use crate::rules::{
    aggregates_are_allowed, aggregates_are_apart, atoms_are_in_order, filters_are_placed,
    filters_ask, keys_ascend, parts_are_ordered,
};
use crate::sizes::{has_few_atoms, has_few_leaves, has_few_operators};
use crate::types::{node_types, picked_types, table_types};
use std::alloc::Global;
use table_core::{Task, TaskParts};
use value_core::OutOfMemory;

// Whether a query's map has one column for each of the output's, each among the body's.
fn picks_in_range(alloc: Global, task: &TaskParts, query: &Query) -> Result<bool, OutOfMemory>
    ensures { IfOk result (λ ok. ok ≡ picks_in_range task.now (select query.now)) }
{
    let types = node_types(alloc, task.inputs.as_slice(), &query.body)?;
    if query.map.len() != task.output.columns().len() {
        return Ok(false);
    }
    Ok(keys_in_range(types.len(), query.map.as_slice()))
}

// Whether the columns of a query's map have the types of the output's.
fn picks_agree(alloc: Global, task: &TaskParts, query: &Query) -> Result<bool, OutOfMemory>
    ensures { IfOk result (λ ok. ok ≡ picks_agree task.now (select query.now)) }
{
    let types = node_types(alloc, task.inputs.as_slice(), &query.body)?;
    let picked = picked_types(alloc, types.as_slice(), query.map.as_slice())?;
    let wanted = table_types(alloc, &task.output)?;
    Ok(same_types(picked.as_slice(), wanted.as_slice()))
}

// The first thing that is wrong with the numbers and the types of a query.
fn names_fault(
    alloc: Global,
    task: &TaskParts,
    query: &Query,
) -> Result<Option<QueryFault>, OutOfMemory>
    ensures { IfOk result (λ fault. fault ≡ names_fault task.now (select query.now)) }
{
    if !names_inputs(task, &query.body) {
        return Ok(Some(QueryFault::BadTable));
    }
    if !names_columns(alloc, task, &query.body)? {
        return Ok(Some(QueryFault::BadColumn));
    }
    if !picks_in_range(alloc, task, query)? {
        return Ok(Some(QueryFault::BadColumn));
    }
    if !types_agree(alloc, task, &query.body)? {
        return Ok(Some(QueryFault::TypesDiffer));
    }
    if !picks_agree(alloc, task, query)? {
        return Ok(Some(QueryFault::TypesDiffer));
    }
    Ok(None)
}

// The first rule of the grammar that a node of a tree breaks.
fn grammar_fault(
    alloc: Global,
    task: &TaskParts,
    body: &Node,
) -> Result<Option<QueryFault>, OutOfMemory>
    ensures { IfOk result (λ fault. fault ≡ grammar_fault task.now (tree body.now)) }
{
    if !filters_are_placed(body) {
        return Ok(Some(QueryFault::NotInGrammar { rule: 1 }));
    }
    if !filters_ask(body) {
        return Ok(Some(QueryFault::NotInGrammar { rule: 2 }));
    }
    if !parts_are_ordered(alloc, body)? {
        return Ok(Some(QueryFault::NotInGrammar { rule: 3 }));
    }
    if !keys_ascend(body) {
        return Ok(Some(QueryFault::NotInGrammar { rule: 4 }));
    }
    if !aggregates_are_apart(body) {
        return Ok(Some(QueryFault::NotInGrammar { rule: 5 }));
    }
    if !aggregates_are_allowed(task, body) {
        return Ok(Some(QueryFault::NotInGrammar { rule: 6 }));
    }
    if !atoms_are_in_order(body) {
        return Ok(Some(QueryFault::NotInGrammar { rule: 7 }));
    }
    Ok(None)
}

// The first bound that a tree passes.
fn size_fault(
    alloc: Global,
    task: &TaskParts,
    body: &Node,
) -> Result<Option<QueryFault>, OutOfMemory>
    ensures { IfOk result (λ fault. fault ≡ size_fault task.now (tree body.now)) }
{
    if !has_few_operators(task, body) {
        return Ok(Some(QueryFault::TooManyOps));
    }
    if !has_few_leaves(alloc, task, body)? {
        return Ok(Some(QueryFault::TooManyLeaves));
    }
    if !has_few_atoms(task, body) {
        return Ok(Some(QueryFault::TooManyAtoms));
    }
    Ok(None)
}

// The first thing that keeps a query out of the grammar of a task.
fn query_fault(
    alloc: Global,
    task: &TaskParts,
    query: &Query,
) -> Result<Option<QueryFault>, OutOfMemory>
    ensures { IfOk result (λ fault. fault ≡ query_fault task.now (select query.now)) }
{
    if let Some(fault) = names_fault(alloc, task, query)? {
        return Ok(Some(fault));
    }
    if let Some(fault) = grammar_fault(alloc, task, &query.body)? {
        return Ok(Some(fault));
    }
    size_fault(alloc, task, &query.body)
}

/// Whether a query is one of the grammar of a task, or the first rule that it breaks.
pub fn belongs(alloc: Global, task: &Task, query: &Query) -> Result<(), QueryFault>
    ensures { MatchResult result
        (λ _. query_fault task.now (select query.now) ≡ None)
        (λ fault. (fault ≡ QueryFault.OutOfMemory) ⊎ (query_fault task.now (select query.now) ≡ Some fault)) }
{
    match query_fault(alloc, task.parts(), query) {
        Ok(None) => Ok(()),
        Ok(Some(fault)) => Err(fault),
        Err(_) => Err(QueryFault::OutOfMemory),
    }
}
