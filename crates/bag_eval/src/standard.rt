ghost use Rattle.std.specs.Prelude.{◌≡◌, ◌&&◌, IfOk, IfSome, IsTrue, Contains, Some};
ghost use Rattle.table_core.specs.Bag.{has_double};
ghost use Rattle.query_core.specs.View.{tree, select};
ghost use Rattle.query_core.specs.Meaning.{rows, selected, answer};
ghost use Rattle.query_core.specs.Standard.{is_standard, std_query};
ghost use Rattle.query_laws.specs.Laws.{plain_queries};
ghost use Rattle.bag_eval.specs.StandardForms.{formed, standard_of};

use crate::select::has_double_selected;
use crate::standard_node::standard_node;
use crate::tree_rows::node_rows;
use query_core::Query;
use std::alloc::Global;
use table_core::{Task, TaskParts, Tuple};
use value_core::{OutOfMemory, copied};

/// The standard form of a query, or that a sum in it leaves 64 bits.
#[derive(Debug, Drop)]
pub enum Standard {
    Form(Query),
    Past64,
}

// Whether a query removes a duplicate, where its body gives these rows.
fn removes_some(query: &Query, found: &[Tuple]) -> bool
    ensures { result ≡ (query.now.distinct && has_double (selected query.now.map found.now)) }
{
    query.distinct && has_double_selected(query.map.as_slice(), found)
}

// The standard form of a query whose body gives these rows.
fn form_of(
    alloc: Global,
    task: &TaskParts,
    query: &Query,
    found: &[Tuple],
) -> Result<Query, OutOfMemory>
    requires { rows task.now.inputs task.now.constants (tree query.now.body) ≡ Some found.now }
    ensures { IfOk result (λ form. select form ≡ std_query task.now (select query.now)) }
{
    Ok(Query {
        body: standard_node(alloc, task, &query.body)?,
        map: copied(alloc, query.map.as_slice())?,
        distinct: removes_some(query, found),
    })
}

/// The standard form of a query: the first predicate of those that keep the same rows, and nothing that changes nothing.
///
/// It is in the grammar where the query is, it is standard, and it gives the same rows in the same order.
pub fn standard_form(alloc: Global, task: &Task, query: &Query) -> Result<Standard, OutOfMemory>
    ensures exact { IfOk result (λ s. formed s ≡ standard_of task.now (select query.now)) }
    ensures listed { IfOk result (λ s. IfSome (formed s) (λ form. Contains (plain_queries task.now) (select query.now) → Contains (plain_queries task.now) form)) }
    ensures standard { IfOk result (λ s. IfSome (formed s) (λ form. IsTrue (is_standard task.now form))) }
    ensures same_rows { IfOk result (λ s. IfSome (formed s) (λ form. answer task.now.inputs task.now.constants form ≡ answer task.now.inputs task.now.constants (select query.now))) }
{
    let task = task.parts();
    let (inputs, constants) = (task.inputs.as_slice(), task.constants.as_slice());
    match node_rows(alloc, inputs, constants, &query.body)? {
        Some(rows) => {
            let form = form_of(alloc, task, query, rows.as_slice())?;
            Ok(Standard::Form(form))
        }
        None => Ok(Standard::Past64),
    }
}
