ghost use Rattle.std.specs.Prelude.{◌≡◌, List, length};
ghost use Rattle.table_core.specs.Rows.{types_of};
ghost use Rattle.map_walk.specs.Supply.{supplies_by, supply_at, some_full, pair_supplies, group_supplies, opens};
ghost use Rattle.map_walk.specs.Wholes.{wholes_by};
ghost use Rattle.map_walk.specs.declared.supply.Supply as told;

use crate::candidate::Candidate;
use crate::supply::{Supply, supply_of};
use crate::whole::whole_supply;
use query_core::{Pairing, same_type};
use sqlite_items::Items;
use table_core::Table;
use value_core::ColType;

/// What is told of the columns of a pair's two parts.
#[derive(Clone, Copy, Debug)]
pub struct SupplyPair<'a> {
    pub left: &'a [Items<Supply>],
    pub right: &'a [Items<Supply>],
}

/// Candidates of a part of so many columns.
#[derive(Debug, Drop)]
pub struct Standing<'a, C> {
    pub width: usize,
    pub rows: &'a [C],
}

// What tells how much the columns of a node's part have.
trait Part {
    // For each of its columns, how much it has of each column of an output.
    ghost listed: { Self → List (List told.Supply) };

    // How many columns it has.
    fn width(&self) -> usize
        ensures { result ≡ length (listed self.now) };

    // How much the column at a place has of the output column at another. Where nothing is told, it may have all.
    fn supply(&self, at: usize, place: usize) -> Supply
        ensures { result ≡ supply_at (listed self.now) at place };
}

// What tells how much the columns of a node have, by its parts'.
trait Source {
    // For each of its columns, how much it has of each column of an output.
    ghost listed: { Self → List (List told.Supply) };

    // How much the column at a place has of the output column at another. Where nothing is told, it may have all.
    fn supply(&self, at: usize, place: usize) -> Supply
        ensures { result ≡ supply_at (listed self.now) at place };
}

// A part of which this is told.
#[derive(Drop)]
struct Told<'a> {
    supplies: &'a [Items<Supply>],
}

impl Part for Told<'_> {
    ghost listed = { λ t. t.supplies.now };

    fn width(&self) -> usize {
        self.supplies.len()
    }

    fn supply(&self, at: usize, place: usize) -> Supply {
        match self.supplies.get(at) {
            Some(column) => match column.as_slice().get(place) {
                Some(supply) => *supply,
                None => Supply::Full,
            },
            None => Supply::Full,
        }
    }
}

// A part that is looked at where it stands.
#[derive(Drop)]
struct Seen<'a, C> {
    part: &'a Standing<'a, C>,
    output: &'a Table,
}

impl<C: Candidate> Part for Seen<'_, C> {
    ghost listed = { λ s. supplies_by C.has s.part.now.width s.part.now.rows.now s.output.now };

    #[tactic(auto, using(crate::proofs::SupplyLaws::supplies_wide))]
    fn width(&self) -> usize {
        self.part.width
    }

    fn supply(&self, at: usize, place: usize) -> Supply {
        if self.part.width <= at {
            return Supply::Full;
        }
        if self.output.columns().len() <= place {
            return Supply::Full;
        }
        supply_of(self.part.rows, self.output.tuples(), place, at)
    }
}

// A part that is looked at where it stands, and has to have no other values.
#[derive(Drop)]
struct SeenWhole<'a, C> {
    part: &'a Standing<'a, C>,
    output: &'a Table,
}

impl<C: Candidate> Part for SeenWhole<'_, C> {
    ghost listed = { λ s. wholes_by C.has s.part.now.width s.part.now.rows.now s.output.now };

    #[tactic(auto, using(crate::proofs::SupplyLaws::told_wide))]
    fn width(&self) -> usize {
        self.part.width
    }

    fn supply(&self, at: usize, place: usize) -> Supply {
        if self.part.width <= at {
            return Supply::Full;
        }
        if self.output.columns().len() <= place {
            return Supply::Full;
        }
        whole_supply(self.part.rows, self.output.tuples(), place, at)
    }
}

// A filter: it has what its part has.
#[derive(Drop)]
struct Filtered<P> {
    part: P,
}

impl<P: Part> Source for Filtered<P> {
    ghost listed = { λ f. P.listed f.part };

    fn supply(&self, at: usize, place: usize) -> Supply {
        self.part.supply(at, place)
    }
}

// A pair of two parts.
#[derive(Drop)]
struct Paired<P> {
    kind: Pairing,
    left: P,
    right: P,
}

impl<P: Part> Source for Paired<P> {
    ghost listed = { λ p. pair_supplies p.kind (P.listed p.left) (P.listed p.right) };

    fn supply(&self, at: usize, place: usize) -> Supply {
        let width = self.left.width();
        if at < width {
            return self.left.supply(at, place);
        }
        let right = self.right.supply(at - width, place);
        match self.kind {
            Pairing::Join => right,
            Pairing::Left => right.loosened(),
        }
    }
}

// A group of a part by key columns.
#[derive(Drop)]
struct Grouped<'a, P> {
    keys: &'a [usize],
    child: P,
}

impl<P: Part> Source for Grouped<'_, P> {
    ghost listed = { λ g. group_supplies g.keys.now (P.listed g.child) };

    fn supply(&self, at: usize, place: usize) -> Supply {
        match self.keys.get(at) {
            Some(key) => self.child.supply(*key, place),
            None => Supply::Full,
        }
    }
}

// Whether some column of a type has all values of the output column at a place.
fn some_full<S: Source>(source: &S, types: &[ColType], place: usize, kind: ColType) -> bool
    ensures { result ≡ some_full types.now (S.listed source.now) place kind }
{
    for at in 0..types.len() {
        if same_type(kind, types[at]) && source.supply(at, place).is_full() {
            return true;
        }
    }
    false
}

// Whether each column of an output has a column of its type that has all of its values.
fn all_full<S: Source>(source: &S, types: &[ColType], output: &Table) -> bool
    ensures { result ≡ opens types.now (S.listed source.now) (types_of output.now) }
{
    let columns = output.columns();
    for place in 0..columns.len() {
        let kind = columns[place].kind;
        if !some_full(source, types, place, kind) {
            return false;
        }
    }
    true
}

/// Whether each column of an output has a body column of its type that has all of its values, told from the supplies of the body,
/// or of the part that it filters. Where not, no map gives each row of the output a candidate. It takes no memory.
pub fn opens(types: &[ColType], supplies: &[Items<Supply>], output: &Table) -> bool
    ensures { result ≡ opens types.now supplies.now (types_of output.now) }
{
    let part = Told { supplies };
    all_full(&Filtered { part }, types, output)
}

/// The same of a join or a left join, told from the supplies of its parts.
pub fn pair_opens(kind: Pairing, parts: &SupplyPair<'_>, types: &[ColType], output: &Table) -> bool
    ensures { result ≡ opens types.now (pair_supplies kind parts.now.left.now parts.now.right.now) (types_of output.now) }
{
    let paired = Paired {
        kind,
        left: Told {
            supplies: parts.left,
        },
        right: Told {
            supplies: parts.right,
        },
    };
    all_full(&paired, types, output)
}

/// The same of a group by key columns, told from the supplies of its part.
pub fn group_opens(
    types: &[ColType],
    keys: &[usize],
    child: &[Items<Supply>],
    output: &Table,
) -> bool
    ensures { result ≡ opens types.now (group_supplies keys.now child.now) (types_of output.now) }
{
    let child = Told { supplies: child };
    all_full(&Grouped { keys, child }, types, output)
}

/// The same of a join or a left join, told by the candidates of its parts as they stand.
pub fn standing_pair_opens<C: Candidate>(
    kind: Pairing,
    left: &Standing<'_, C>,
    right: &Standing<'_, C>,
    types: &[ColType],
    output: &Table,
) -> bool
    ensures { result ≡ opens types.now (pair_supplies kind (supplies_by C.has left.now.width left.now.rows.now output.now) (supplies_by C.has right.now.width right.now.rows.now output.now)) (types_of output.now) }
{
    let paired = Paired {
        kind,
        left: Seen { part: left, output },
        right: Seen {
            part: right,
            output,
        },
    };
    all_full(&paired, types, output)
}

/// Whether each column of an output may be a column of its type of all of a group's rows, told by the candidates of the group's part as
/// they stand: a key column is asked whether it has all of the values and no others, and of the aggregate's column nothing is told.
pub fn standing_group_opens<C: Candidate>(
    keys: &[usize],
    part: &Standing<'_, C>,
    types: &[ColType],
    output: &Table,
) -> bool
    ensures { result ≡ opens types.now (group_supplies keys.now (wholes_by C.has part.now.width part.now.rows.now output.now)) (types_of output.now) }
{
    let child = SeenWhole { part, output };
    all_full(&Grouped { keys, child }, types, output)
}
