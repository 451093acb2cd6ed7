ghost use Rattle.std.specs.Prelude.{◌≡◌, ◌≤◌, ◌+◌, ◌++◌, ◌∷◌, [], ◌==◌, ◌&&◌, ◌||◌, not, length, IfOk, OnOk, if◌then◌else◌};
ghost use Rattle.skeleton_graph.specs.Nodes.{is_marked, marks_after, marked_but, above_of};

use crate::node::SkelNode;
use std::alloc::Global;
use value_core::OutOfMemory;

// Whether a child is marked.
fn is_marked(marks: &[bool], child: Option<u32>) -> bool
    ensures { result ≡ is_marked marks.now child }
{
    match child {
        Some(at) => marks.get(at as usize).copied().unwrap_or(false),
        None => false,
    }
}

// Whether the next node is this one or has a marked child.
fn next_mark(marks: &[bool], node: &SkelNode, k: u32) -> bool
    ensures { result ≡ (length marks.now == k || (is_marked marks.now node.now.left || is_marked marks.now node.now.right)) }
{
    if marks.len() == k as usize {
        return true;
    }
    if is_marked(marks, node.left) {
        return true;
    }
    is_marked(marks, node.right)
}

// Marks the next node, where it is this one or has a marked child.
fn push_mark(marks: &mut Vec<bool>, node: &SkelNode, k: u32) -> Result<(), OutOfMemory>
    ensures { OnOk result (marks.new.items ≡ marks.old.items ++ (length marks.old.items == k || (is_marked marks.old.items node.now.left || is_marked marks.old.items node.now.right)) ∷ []) }
{
    let mark = next_mark(marks.as_slice(), node, k);
    Ok(marks.push(mark)?)
}

// Of each node, whether it is this one or has it below.
fn marks(alloc: Global, nodes: &[SkelNode], k: u32) -> Result<Vec<bool>, OutOfMemory>
    ensures marks { IfOk result (λ marks. marks.items ≡ marks_after k [] nodes.now) }
    ensures count { IfOk result (λ marks. length marks.items ≡ length nodes.now) }
{
    let mut marks = Vec::new(alloc);
    for node in nodes {
        push_mark(&mut marks, node, k)?;
    }
    Ok(marks)
}

// Appends a number, where its mark is set and it isn't this one.
fn push_marked(out: &mut Vec<u32>, mark: bool, number: u32, k: u32) -> Result<(), OutOfMemory>
    ensures { OnOk result (out.new.items ≡ out.old.items ++ (if mark && not (number == k) then number ∷ [] else [])) }
{
    if mark && number != k {
        Ok(out.push(number)?)
    } else {
        Ok(())
    }
}

// The numbers of the marks that are set, without this one.
fn marked_but(alloc: Global, marks: &[bool], k: u32) -> Result<Vec<u32>, OutOfMemory>
    requires { length marks.now ≤ 100000 }
    ensures { IfOk result (λ out. out.items ≡ marked_but k 0 marks.now) }
{
    let mut out = Vec::new(alloc);
    for number in 0..marks.len() {
        push_marked(&mut out, marks[number], number as u32, k)?;
    }
    Ok(out)
}

/// The numbers of the nodes that have this one below them, ascending.
pub fn above(alloc: Global, nodes: &[SkelNode], k: u32) -> Result<Vec<u32>, OutOfMemory>
    requires { length nodes.now ≤ 100000 }
    ensures { IfOk result (λ out. out.items ≡ above_of nodes.now k) }
{
    let marks = marks(alloc, nodes, k)?;
    marked_but(alloc, marks.as_slice(), k)
}
