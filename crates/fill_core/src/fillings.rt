use predicate_core::Pred;
use sqlite_items::Items;
use table_core::Tuple;
use value_core::ColType;

/// One filling of a node: its predicates, from the left part to the right part to the node, and its rows.
#[derive(Debug, Drop)]
pub struct Entry {
    pub preds: Items<Pred>,
    pub rows: Items<Tuple>,
}

/// The standard fillings of a node that have rows, in order, with the types of the columns that they all have.
#[derive(Debug, Drop)]
pub struct Fillings {
    pub types: Items<ColType>,
    pub entries: Items<Entry>,
}

impl Fillings {
    ghost use Rattle.std.specs.Prelude.{◌≡◌, ◌≤◌};
    ghost use Rattle.table_core.specs.declared.limits.TheConstants.{LARGEST_BUDGET};
    ghost use Rattle.fill_core.specs.View.{weight};

    /// What they weigh, where no budget is too small for them.
    pub(crate) fn weight(&self) -> u64
        requires { weight self.now ≤ LARGEST_BUDGET }
        ensures { result ≡ weight self.now }
    {
        let mut sum = 0;
        for entry in self.entries.as_slice() {
            sum += entry.rows.len() as u64 + 1;
        }
        sum
    }
}
