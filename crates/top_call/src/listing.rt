ghost use Rattle.std.specs.Prelude.{◌≡◌, ◌≤◌, ◌<◌, map, true, false, Err, IfOk};
ghost use Rattle.query_core.specs.Answers.{answers};
ghost use Rattle.query_core.specs.Grammar.{skeletons};
ghost use Rattle.rank_core.specs.View.{ranked_query};
ghost use Rattle.skeleton_graph.specs.Nodes.{trees_of};
ghost use Rattle.top_call.specs.Need.{need, is_allowed};
ghost use Rattle.top_call.specs.Size.{has_few_skeletons};
ghost use Rattle.top_call.specs.Listing.{Answers, Prints, end_of, lists_plainly};

use crate::end::End;
use crate::search::{SearchEnd, search};
use fill_core::Plan;
use io_edge::{Sink, WriteFault, write_all};
use over_eval::{live, what_is_not_live_has_no_answer};
use plain_search::plain_over;
use rank_core::Ranked;
use skeleton_graph::{Graph, GraphFault, above_has_below, build};
use sql_print::text;
use std::alloc::Global;
use std::thread::Threads;
use table_core::Task;

// The end of a run that wrote the text of so many answers.
fn end_of(count: usize) -> End
    ensures { result ≡ end_of count }
{
    if count == 0 {
        End::Empty
    } else {
        End::Listed {
            count: count as u64,
        }
    }
}

/// How the answers of a task are found.
#[derive(Clone, Copy, Debug, PartialEq, Eq)]
pub enum Engine {
    /// The live skeletons are searched, and each of their parts is filled once, where the task's budget allows.
    Search,
    /// Skeleton by skeleton, with nothing kept from one to the next, whatever the budget.
    Plain,
}

// The answers of a task by a search of its live skeletons.
fn searched<R: Threads + Sync>(
    rt: &R,
    alloc: Global,
    task: &Task,
    graph: Graph,
) -> Result<Vec<Ranked>, SearchEnd>
    requires { trees_of graph.nodes ≡ skeletons task.now }
    ensures found { IfOk result (λ list. map ranked_query list.items ≡ answers task.now) }
    ensures within { IfOk result (λ list. need task.now ≤ task.now.budget) }
    ensures over { result ≡ Err SearchEnd.OverBudget → task.now.budget < need task.now }
{
    what_is_not_live_has_no_answer(task.parts());
    above_has_below(task.parts(), &graph);
    let roots = live(rt, alloc, task, &graph)?;
    let plan = Plan::new(alloc, task, graph, roots)?;
    search(alloc, &plan)
}

/// A listing of answers: the threads that it may use, and how it finds them.
#[derive(Drop)]
pub struct Listing<'a, R> {
    pub rt: &'a R,
    pub engine: Engine,
}

impl<'a, R: Threads + Sync> Listing<'a, R> {
    /// A listing by an engine.
    pub fn of(rt: &'a R, engine: Engine) -> Listing<'a, R>
        ensures { result.engine ≡ engine }
    {
        Listing { rt, engine }
    }

    // The answers of a task over the graph of its skeletons, best first.
    fn answers(&self, alloc: Global, task: &Task, graph: Graph) -> Result<Vec<Ranked>, SearchEnd>
        requires { trees_of graph.nodes ≡ skeletons task.now }
        ensures found { IfOk result (λ list. map ranked_query list.items ≡ answers task.now) }
        ensures within { IfOk result (λ list. is_allowed (lists_plainly self.now.engine) task.now ≡ true) }
        ensures over { result ≡ Err SearchEnd.OverBudget → is_allowed (lists_plainly self.now.engine) task.now ≡ false }
    {
        match self.engine {
            Engine::Search => searched(self.rt, alloc, task, graph),
            Engine::Plain => Ok(plain_over(alloc, task, &graph)?),
        }
    }
}

// Writes the text of a task's answers.
fn write_answers<K: Sink>(alloc: Global, task: &Task, list: &[Ranked], out: &mut K) -> End
    requires { map ranked_query list.now ≡ answers task.now }
    ensures { Prints task.now (K.written out.old) (K.written out.new) (K.faults out.old) (K.faults out.new) result }
{
    let Ok(text) = text(alloc, task, list) else {
        return End::OutOfMemory;
    };
    match write_all(out, text.as_slice()) {
        Ok(()) => end_of(list.len()),
        Err(WriteFault) => End::WriteFault,
    }
}

// Lists the answers of a task over the graph of its skeletons and writes its text, where the budget allows.
fn list<R: Threads + Sync, K: Sink>(
    alloc: Global,
    task: &Task,
    graph: Graph,
    listing: &Listing<'_, R>,
    out: &mut K,
) -> End
    requires { trees_of graph.nodes ≡ skeletons task.now }
    ensures { Answers true (is_allowed (lists_plainly listing.now.engine) task.now) task.now (K.written out.old) (K.written out.new) (K.faults out.old) (K.faults out.new) result }
{
    match listing.answers(alloc, task, graph) {
        Ok(answers) => write_answers(alloc, task, answers.as_slice(), out),
        Err(SearchEnd::OverBudget) => End::OverBudget,
        Err(SearchEnd::OutOfMemory) => End::OutOfMemory,
    }
}

/// Lists the answers of a task and writes its text, where it has few enough skeletons and the budget allows.
pub fn answer<R: Threads + Sync, K: Sink>(
    alloc: Global,
    task: &Task,
    listing: &Listing<'_, R>,
    out: &mut K,
) -> End
    ensures { Answers (has_few_skeletons task.now) (is_allowed (lists_plainly listing.now.engine) task.now) task.now (K.written out.old) (K.written out.new) (K.faults out.old) (K.faults out.new) result }
{
    match build(alloc, task) {
        Ok(graph) => list(alloc, task, graph, listing, out),
        Err(GraphFault::TooMany { .. }) => End::TooMany,
        Err(GraphFault::OutOfMemory) => End::OutOfMemory,
    }
}
