ghost use Rattle.std.specs.Prelude.{◌≡◌, ◌≤◌, ◌<◌, ◌+◌, ◌++◌, length, map, slice_get, ◌∷◌, [], IfOk, OnOk};
ghost use Rattle.skeleton_graph.specs.Nodes.{first_use_of};
ghost use Rattle.skeleton_graph.specs.Links.{with_use_at, newest_use, with_use, linked, linked_all};
ghost use Rattle.skeleton_graph.specs.Seen.{all_of};
ghost use Rattle.skeleton_graph.specs.View.{parts_of};

use crate::node::SkelNode;
use crate::part::{Part, Placed};
use sqlite_items::Items;
use std::alloc::Global;
use value_core::{ColType, OutOfMemory, copied};

/// Nodes that are linked into the chains of their children's uses, with the types of their columns.
#[derive(Drop)]
pub struct Linked {
    pub nodes: Vec<SkelNode>,
    pub types: Items<Items<ColType>>,
}

// Makes a use the newest of the node of this number, and gives what was the newest before.
fn take_use_at(nodes: &mut [SkelNode], at: usize, number: u32) -> Option<u32>
    ensures older { result ≡ first_use_of nodes.old at }
    ensures newest { nodes.new ≡ with_use_at nodes.old at number (slice_get nodes.old at) }
{
    if at >= nodes.len() {
        return None;
    }
    let node = &mut nodes[at];
    let older = node.first_use;
    node.first_use = Some(number);
    older
}

// Makes a use the newest of a child, and gives what was the newest before.
fn take_use(nodes: &mut [SkelNode], child: Option<u32>, number: u32) -> Option<u32>
    ensures older { result ≡ newest_use nodes.old child }
    ensures newest { nodes.new ≡ with_use nodes.old child number }
{
    match child {
        Some(at) => take_use_at(nodes, at as usize, number),
        None => None,
    }
}

// Appends the node of a skeleton.
fn link(alloc: Global, nodes: &mut Vec<SkelNode>, part: &Part) -> Result<(), OutOfMemory>
    requires { length nodes.old.items < 100000 }
    ensures { OnOk result (nodes.new.items ≡ linked nodes.old.items part.now) }
{
    let kind = part.kind.copy(alloc)?;
    let number = 2 * nodes.len() as u32;
    let next_left = take_use(nodes, part.left, number);
    let next_right = take_use(nodes, part.right, number + 1);
    Ok(nodes.push(SkelNode {
        kind,
        left: part.left,
        right: part.right,
        first_use: None,
        next_left,
        next_right,
    })?)
}

impl Linked {
    // Appends a skeleton.
    fn push(&mut self, alloc: Global, part: &Part) -> Result<(), OutOfMemory>
        requires { length self.old.nodes.items < 100000 }
        ensures nodes { OnOk result (self.new.nodes.items ≡ linked self.old.nodes.items part.now) }
        ensures types { OnOk result (self.new.types ≡ self.old.types ++ part.now.types ∷ []) }
    {
        link(alloc, &mut self.nodes, part)?;
        Ok(self.types.push(copied(alloc, part.types.as_slice())?)?)
    }

    // Appends the skeletons of a level.
    fn push_level(&mut self, alloc: Global, level: &[Placed]) -> Result<(), OutOfMemory>
        requires { length self.old.nodes.items + length level.now ≤ 100000 }
        ensures nodes { OnOk result (self.new.nodes.items ≡ linked_all self.old.nodes.items (parts_of level.now)) }
        ensures types { OnOk result (self.new.types ≡ self.old.types ++ map (λ p. p.types) (parts_of level.now)) }
        ensures count { OnOk result (length self.new.nodes.items ≡ length self.old.nodes.items + length level.now) }
    {
        for placed in level {
            self.push(alloc, &placed.part)?;
        }
        Ok(())
    }
}

/// The nodes of the skeletons of some levels, linked.
pub fn link_all(alloc: Global, levels: &[Items<Placed>]) -> Result<Linked, OutOfMemory>
    requires { length (all_of levels.now) ≤ 100000 }
    ensures nodes { IfOk result (λ l. l.nodes.items ≡ linked_all [] (parts_of (all_of levels.now))) }
    ensures types { IfOk result (λ l. l.types ≡ map (λ p. p.types) (parts_of (all_of levels.now))) }
{
    let mut out = Linked {
        nodes: Vec::new(alloc),
        types: Items::new(alloc),
    };
    for level in levels {
        out.push_level(alloc, level.as_slice())?;
    }
    Ok(out)
}
