ghost use Rattle.std.specs.Prelude.{◌≡◌, ◌≤◌, ◌<◌, ◌+◌, ◌^◌, ◌++◌, ◌∷◌, [], length, Ok, Err, IfOk};
ghost use Rattle.skeleton_graph.specs.Listing.{placed_levels, with_level, with_next};
ghost use Rattle.skeleton_graph.specs.declared.fault.ListFault.TheVariants.{TooMany};

use crate::fault::{LIMIT, ListFault};
use crate::list::{Ground, bases, next_level};
use crate::part::{Part, Placed, numbered};
use crate::room::room_after;
use sqlite_items::Items;
use std::alloc::Global;
use table_core::TaskParts;

/// Levels of skeletons, and how many these are.
#[derive(Drop)]
pub struct Levels {
    pub levels: Items<Items<Placed>>,
    pub count: u32,
}

impl Levels {
    // For how many skeletons more there is room.
    fn room(&self) -> usize
        requires { self.now.count ≤ 100000 }
        ensures { result + self.now.count ≡ 100000 }
    {
        (LIMIT - self.count) as usize
    }

    // With one level more.
    fn with(self, alloc: Global, next: Vec<Part>) -> Result<Levels, ListFault>
        requires { self.count ≤ 100000 }
        ensures with { IfOk result (λ l. l ≡ with_level self next.items) }
        ensures within { IfOk result (λ l. l.count ≤ 100000) }
        ensures many { result ≡ Err TooMany → 100000 < (with_level self next.items).count }
    {
        room_after(self.room(), next.len())?;
        let Levels { mut levels, count } = self;
        let added = next.len() as u32;
        levels.push(numbered(alloc, count, next)?)?;
        Ok(Levels {
            levels,
            count: count + added,
        })
    }
}

// The level of the inputs alone.
fn first_level(alloc: Global, task: &TaskParts) -> Result<Levels, ListFault>
    requires { length task.now.inputs < 2 ^ 32 }
    ensures first { IfOk result (λ l. l ≡ placed_levels task.now 0) }
    ensures within { IfOk result (λ l. l.count ≤ 100000) }
    ensures many { result ≡ Err TooMany → 100000 < (placed_levels task.now 0).count }
{
    let none = Levels {
        levels: Items::new(alloc),
        count: 0,
    };
    none.with(alloc, bases(alloc, task)?)
}

// The next level added, where there is room for it.
fn add_level(alloc: Global, task: &TaskParts, below: Levels) -> Result<Levels, ListFault>
    requires { below.count ≤ 100000 }
    ensures with { IfOk result (λ l. l ≡ with_next task.now below) }
    ensures within { IfOk result (λ l. l.count ≤ 100000) }
    ensures many { result ≡ Err TooMany → 100000 < (with_next task.now below).count }
{
    let ground = Ground {
        alloc,
        task,
        room: below.room(),
    };
    let next = next_level(&ground, below.levels.as_slice())?;
    below.with(alloc, next)
}

/// The levels of the skeletons with at most so many operators.
pub fn levels_up_to(alloc: Global, task: &TaskParts, ops: u32) -> Result<Levels, ListFault>
    requires { length task.now.inputs < 2 ^ 32 }
    ensures listed { IfOk result (λ l. l ≡ placed_levels task.now ops) }
    ensures within { IfOk result (λ l. l.count ≤ 100000) }
    ensures many { result ≡ Err TooMany → 100000 < (placed_levels task.now ops).count }
{
    if ops == 0 {
        return first_level(alloc, task);
    }
    let below = levels_up_to(alloc, task, ops - 1)?;
    add_level(alloc, task, below)
}
