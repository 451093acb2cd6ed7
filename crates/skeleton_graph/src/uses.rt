ghost use Rattle.std.specs.Prelude.{◌≡◌, ◌<◌, length};
ghost use Rattle.std.specs.Iterator.{YieldsFirst, item_count};
ghost use Rattle.skeleton_graph.specs.Nodes.{next_use};

use crate::node::SkelNode;
use std::marker::Model;

/// The uses of a node, newest first: each the number of the user, and 0 for its left child or 1 for its right.
#[derive(Drop)]
pub struct Uses<'g> {
    nodes: &'g [SkelNode],
    next: Option<u32>,
}

impl<'g> Model for Uses<'g> {
    ghost use Rattle.std.specs.Prelude.{ℕ, List, map};
    ghost use Rattle.skeleton_graph.specs.Nodes.{next_use, chain_from, user_and_side};
    ghost use Rattle.skeleton_graph.specs.GraphData.{Descends};

    ghost Value = { List (ℕ × ℕ) };

    ghost view = { λ uses. map user_and_side (chain_from uses.nodes.now uses.next) };

    ghost invariant = { λ uses. Descends (next_use uses.nodes.now) };
}

// The use after this one in its chain.
fn next_use(nodes: &[SkelNode], number: u32) -> Option<u32>
    ensures { result ≡ next_use nodes.now number }
{
    let node = nodes.get((number / 2) as usize)?;
    if number % 2 == 0 {
        node.next_left
    } else {
        node.next_right
    }
}

impl<'g> Uses<'g> {
    ghost use Rattle.std.specs.Prelude.{map};
    ghost use Rattle.skeleton_graph.specs.Nodes.{chain_from, user_and_side};
    ghost use Rattle.skeleton_graph.specs.GraphData.{Descends};

    /// The uses of a chain, from one on.
    pub fn from(nodes: &'g [SkelNode], next: Option<u32>) -> Uses<'g>
        requires { Descends (next_use nodes.now) }
        ensures { result ≡ map user_and_side (chain_from nodes.now next) }
    {
        Uses { nodes, next }
    }
}

impl<'g> Iterator for Uses<'g> {
    type Item = (u32, u8);

    ghost next_gives = { YieldsFirst (λ rest. rest) };

    ghost remaining = { item_count (λ rest. rest) };

    fn next(&mut self) -> Option<(u32, u8)> {
        let number = self.next?;
        self.next = next_use(self.nodes, number);
        Some((number / 2, (number % 2) as u8))
    }
}
