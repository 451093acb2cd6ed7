ghost use Rattle.std.specs.Prelude.{◌≡◌, ◌<◌, ◌≤◌, ◌++◌, ◌∷◌, [], All, length, map, IfOk, OnOk, if◌then◌else◌};
ghost use Rattle.fill_core.specs.Marks.{inner_jobs, marked_down, marked_under, marks_below, with_children, with_mark};
ghost use Rattle.fill_core.specs.Plans.{jobs_of};
ghost use Rattle.fill_core.specs.declared.job.Job.TheVariants.{Inner, Root};

use crate::job::Job;
use skeleton_graph::Graph;
use std::alloc::Global;
use value_core::OutOfMemory;

// Marks a child, where there is one.
fn mark_child(marks: &mut [bool], child: Option<u32>)
    ensures { marks.new ≡ with_mark marks.old child }
{
    if let Some(at) = child {
        let at = at as usize;
        if at < marks.len() {
            marks[at] = true;
        }
    }
}

// Marks the children of a node.
fn mark_children(marks: &mut [bool], graph: &Graph, k: u32)
    requires { k < length graph.now.nodes }
    ensures { marks.new ≡ with_children graph.now.nodes marks.old k }
{
    let node = graph.node(k);
    mark_child(marks, node.left);
    mark_child(marks, node.right);
}

// Marks the children of these nodes.
fn mark_under(marks: &mut [bool], graph: &Graph, numbers: &[u32])
    requires { All (λ k. k < length graph.now.nodes) numbers.now }
    ensures { marks.new ≡ marked_under graph.now.nodes marks.old numbers.now }
{
    for k in numbers {
        mark_children(marks, graph, *k);
    }
}

// Marks the children of each marked node, from the highest number down.
fn mark_down(marks: &mut [bool], graph: &Graph)
    requires { length marks.old ≡ length graph.now.nodes }
    ensures { marks.new ≡ marked_down graph.now.nodes (length graph.now.nodes) marks.old }
{
    let mut k = graph.len();
    while k > 0 {
        k -= 1;
        if marks[k as usize] {
            mark_children(marks, graph, k);
        }
    }
}

// Of each node, whether it stands below one of these.
fn below(alloc: Global, graph: &Graph, roots: &[u32]) -> Result<Vec<bool>, OutOfMemory>
    requires { All (λ k. k < length graph.now.nodes) roots.now }
    ensures { IfOk result (λ marks. marks.items ≡ marks_below graph.now.nodes roots.now) }
{
    let mut marks = vec![in alloc; false; graph.len() as usize]?;
    mark_under(marks.as_mut_slice(), graph, roots);
    mark_down(marks.as_mut_slice(), graph);
    Ok(marks)
}

// Appends the job of an inner node, where it is marked.
fn push_inner(jobs: &mut Vec<Job>, mark: bool, k: u32) -> Result<(), OutOfMemory>
    ensures { OnOk result (jobs.new.items ≡ jobs.old.items ++ (if mark then Inner k ∷ [] else [])) }
{
    if mark {
        Ok(jobs.push(Job::Inner(k))?)
    } else {
        Ok(())
    }
}

// The jobs of the marked nodes.
fn inner_jobs(alloc: Global, marks: &[bool]) -> Result<Vec<Job>, OutOfMemory>
    requires { length marks.now ≤ 100000 }
    ensures { IfOk result (λ jobs. jobs.items ≡ inner_jobs 0 marks.now) }
{
    let mut jobs = Vec::new(alloc);
    for k in 0..marks.len() {
        push_inner(&mut jobs, marks[k], k as u32)?;
    }
    Ok(jobs)
}

// Appends the jobs of the roots.
fn push_roots(jobs: &mut Vec<Job>, roots: &[u32]) -> Result<(), OutOfMemory>
    ensures { OnOk result (jobs.new.items ≡ jobs.old.items ++ map Root roots.now) }
{
    for root in roots {
        jobs.push(Job::Root(*root))?;
    }
    Ok(())
}

/// The jobs of a search of these roots: the nodes below them, and then the roots.
pub fn jobs_of(alloc: Global, graph: &Graph, roots: &[u32]) -> Result<Vec<Job>, OutOfMemory>
    requires { All (λ k. k < length graph.now.nodes) roots.now }
    ensures { IfOk result (λ jobs. jobs.items ≡ jobs_of graph.now.nodes roots.now) }
{
    graph.is_ordered();
    let marks = below(alloc, graph, roots)?;
    let mut jobs = inner_jobs(alloc, marks.as_slice())?;
    push_roots(&mut jobs, roots)?;
    Ok(jobs)
}
