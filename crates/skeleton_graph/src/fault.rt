ghost use Rattle.std.specs.Prelude.{◌≡◌};
ghost use Rattle.skeleton_graph.specs.Faults.{graph_fault};

use std::alloc::{AllocError, AllocFailed};
use value_core::OutOfMemory;

/// Most skeletons of a graph.
pub const LIMIT: u32 = 100_000;

/// Why there is no graph: there are more skeletons than the limit, or memory ran out.
#[derive(Clone, Copy, Debug, PartialEq, Eq)]
pub enum GraphFault {
    TooMany { limit: u32 },
    OutOfMemory,
}

/// Why skeletons aren't listed: there are more than there is room for, or memory ran out.
#[derive(Clone, Copy)]
pub enum ListFault {
    TooMany,
    OutOfMemory,
}

impl From<OutOfMemory> for ListFault {
    ghost use Rattle.std.specs.Prelude.{◌≡◌};
    ghost use Rattle.skeleton_graph.specs.declared.fault.ListFault.TheVariants as fault;

    ghost from_gives = { λ _ given. given ≡ fault.OutOfMemory };

    fn from(_fault: OutOfMemory) -> ListFault {
        ListFault::OutOfMemory
    }
}

impl From<AllocError> for ListFault {
    ghost use Rattle.std.specs.Prelude.{◌≡◌};
    ghost use Rattle.skeleton_graph.specs.declared.fault.ListFault.TheVariants as fault;

    ghost from_gives = { λ _ given. given ≡ fault.OutOfMemory };

    fn from(_error: AllocError) -> ListFault {
        ListFault::OutOfMemory
    }
}

impl<T: Drop> From<AllocFailed<T>> for ListFault {
    ghost use Rattle.std.specs.Prelude.{◌≡◌};
    ghost use Rattle.skeleton_graph.specs.declared.fault.ListFault.TheVariants as fault;

    ghost from_gives = { λ _ given. given ≡ fault.OutOfMemory };

    fn from(_failed: AllocFailed<T>) -> ListFault {
        ListFault::OutOfMemory
    }
}

/// Why there is no graph, where its skeletons aren't listed.
pub fn graph_fault(fault: ListFault) -> GraphFault
    ensures { result ≡ graph_fault fault }
{
    match fault {
        ListFault::TooMany => GraphFault::TooMany { limit: LIMIT },
        ListFault::OutOfMemory => GraphFault::OutOfMemory,
    }
}
