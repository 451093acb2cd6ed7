ghost use Rattle.std.specs.Prelude.{◌≡◌, ◌≤◌, ◌<◌, All, length, IfOk};
ghost use Rattle.std.specs.List.Sorted.{IsStrictlyIncreasing};
ghost use Rattle.std.specs.Arc.{arc_value};
ghost use Rattle.query_core.specs.Grammar.{skeletons};
ghost use Rattle.skeleton_graph.specs.Nodes.{trees_of};

use crate::inner::jobs_of;
use crate::job::Job;
use skeleton_graph::Graph;
use std::alloc::Global;
use std::marker::Model;
use std::sync::Arc;
use table_core::{Task, TaskParts};
use value_core::OutOfMemory;

/// A plan of a search: the graph of a task's skeletons, which of its nodes are searched as roots, and the jobs in their order.
#[derive(Drop)]
pub struct Plan<'t> {
    task: &'t Task,
    graph: Graph,
    roots: Vec<u32>,
    jobs: Vec<Job>,
    source: Arc<TaskParts>,
}

impl<'t> Model for Plan<'t> {
    ghost use Rattle.std.specs.Prelude.{◌≡◌};
    ghost use Rattle.std.specs.Arc.{arc_value};
    ghost use Rattle.fill_core.specs.Plans.{PlanData, IsPlan};

    ghost Value = { PlanData };

    ghost view = { λ p. record { task = p.task.now; graph = p.graph; roots = p.roots.items; jobs = p.jobs.items } };

    ghost invariant = { λ p. IsPlan p.task.now p.graph p.roots.items p.jobs.items × (arc_value p.source ≡ p.task.now) };
}

impl<'t> Plan<'t> {
    ghost use Rattle.fill_core.specs.Plans.{plan_of, node_of, IsPlan, ChildrenAreInner, PartsComeFirst};

    /// The plan of a search of these roots, which ascend.
    pub fn new(
        alloc: Global,
        task: &'t Task,
        graph: Graph,
        roots: Vec<u32>,
    ) -> Result<Plan<'t>, OutOfMemory>
        requires graph { trees_of graph.nodes ≡ skeletons task.now }
        requires ascend { IsStrictlyIncreasing roots.items }
        requires within { All (λ k. k < length graph.nodes) roots.items }
        ensures { IfOk result (λ plan. plan ≡ plan_of task.now graph roots.items) }
    {
        graph.is_ordered();
        let jobs = jobs_of(alloc, &graph, roots.as_slice())?;
        let source = Arc::new(alloc, task.parts().copy(alloc)?)?;
        Ok(Plan {
            task,
            graph,
            roots,
            jobs,
            source,
        })
    }

    /// The laws of every plan: it is of its task's graph and roots, each job's node is of the graph, and each child of that node is inner, with a lower number and a job before.
    pub fn is_planned(&self)
        ensures planned { IsPlan self.now.task self.now.graph self.now.roots self.now.jobs }
        ensures inner { ChildrenAreInner self.now.graph.nodes self.now.roots }
        ensures first { PartsComeFirst self.now.graph.nodes self.now.jobs }
        ensures nodes { All (λ job. node_of job < length self.now.graph.nodes) self.now.jobs }
    {
        let _ = &self.jobs;
    }

    /// The task.
    pub fn task(&self) -> &'t Task
        ensures { result.now ≡ self.now.task }
    {
        self.task
    }

    /// A copy of the task's parts, which all rows of the plan share.
    pub(crate) fn source(&self) -> Result<Arc<TaskParts>, OutOfMemory>
        ensures { IfOk result (λ source. arc_value source ≡ self.now.task) }
    {
        Ok(Arc::try_clone(&self.source)?)
    }

    /// The graph of the task's skeletons.
    pub fn graph(&self) -> &Graph
        ensures { result.now ≡ self.now.graph }
    {
        &self.graph
    }

    /// The numbers of the nodes that are searched as roots, ascending.
    pub fn roots(&self) -> &[u32]
        ensures { result.now ≡ self.now.roots }
    {
        self.roots.as_slice()
    }

    /// The jobs: the nodes below some root, ascending, and then the roots.
    pub fn jobs(&self) -> &[Job]
        ensures { result.now ≡ self.now.jobs }
    {
        self.jobs.as_slice()
    }
}
