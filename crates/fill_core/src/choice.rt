ghost use Rattle.std.specs.Prelude.{◌≡◌, IfOk, map};
ghost use Rattle.predicate_core.specs.declared.pred.Pred.TheVariants.{One};
ghost use Rattle.bit_classes.specs.Laws.{kept_vector};
ghost use Rattle.fill_core.specs.Choices.{class_choice, drops_some, every};

use bit_classes::{Class, Sieve, wanted_classes};
use bit_rows::BitRow;
use predicate_core::{Atom, Pred, PredList, atoms, keeps, preds};
use sqlite_items::Items;
use std::alloc::Global;
use table_core::{Task, Tuple};
use value_core::{ColType, OutOfMemory, Value};

// The most atoms whose predicates are numbered.
const MOST_NUMBERED: usize = 100_000;

/// What a node keeps of its candidate rows: by its predicate, where it has one.
#[derive(Debug, Drop)]
pub struct Choice {
    pub pred: Option<Pred>,
    pub bits: BitRow,
}

impl Choice {
    ghost use Rattle.std.specs.Prelude.{IsTrue};

    /// The choice of a node without a predicate: all of so many rows.
    pub fn every(alloc: Global, len: usize) -> Result<Choice, OutOfMemory>
        ensures { IfOk result (λ c. c ≡ every len) }
    {
        Ok(Choice {
            pred: None,
            bits: BitRow::full(alloc, len)?,
        })
    }

    /// Whether it leaves some row out.
    pub fn drops_some(&self) -> bool
        ensures { result ≡ drops_some self.now }
    {
        !self.bits.all()
    }
}

// Which of some rows a predicate keeps.
fn kept_bits(
    alloc: Global,
    constants: &[Value],
    candidates: &[Tuple],
    pred: &Pred,
) -> Result<BitRow, OutOfMemory>
    ensures { IfOk result (λ row. row ≡ kept_vector constants.now candidates.now pred.now) }
{
    let mut bits = Vec::new(alloc);
    for row in candidates {
        bits.push(keeps(pred, row.cells(), constants))?;
    }
    BitRow::of(alloc, bits.as_slice())
}

// Which of some rows each atom keeps.
fn atom_rows(
    alloc: Global,
    constants: &[Value],
    candidates: &[Tuple],
    atoms: &[Atom],
) -> Result<Items<BitRow>, OutOfMemory>
    ensures { IfOk result (λ rows. rows ≡ map (λ a. kept_vector constants.now candidates.now (One a)) atoms.now) }
{
    let mut rows = Items::new(alloc);
    for atom in atoms {
        let pred = Pred::One(*atom);
        rows.push(kept_bits(alloc, constants, candidates, &pred)?)?;
    }
    Ok(rows)
}

// The choices of some classes, each by its first predicate.
fn class_choices(
    alloc: Global,
    list: &PredList,
    found: Vec<Class>,
) -> Result<Vec<Choice>, OutOfMemory>
    ensures { IfOk result (λ out. out.items ≡ map (class_choice list.now) found.items) }
{
    let mut out = Vec::new(alloc);
    for class in found {
        let pred = list.at(class.number);
        let bits = class.bits;
        out.push(Choice { pred, bits })?;
    }
    Ok(out)
}

/// The hole of a node for a predicate over columns of these types, which chooses from candidate rows.
#[derive(Drop)]
pub struct Hole<'a, 'b> {
    pub task: &'a Task,
    pub types: &'a [ColType],
    pub candidates: &'b [Tuple],
}

impl Hole<'_, '_> {
    ghost use Rattle.std.specs.Prelude.{◌≡◌, IfOk, length, filter};
    ghost use Rattle.bit_classes.specs.Sieves.{IsSieve};
    ghost use Rattle.fill_core.specs.Choices.{hole_choices, is_wanted, drops_some};

    /// The choices that may be wanted: each such standard predicate, and which of the candidate rows it keeps.
    ///
    /// The predicates of more than 100,000 atoms aren't numbered; so many atoms are answered as want of memory.
    pub fn wanted<S: Sieve>(&self, alloc: Global, sieve: &S) -> Result<Vec<Choice>, OutOfMemory>
        requires width { S.width sieve.now ≡ length self.now.candidates.now }
        requires sieve { IsSieve (length self.now.candidates.now) (S.may sieve.now) }
        ensures { IfOk result (λ cs. cs.items ≡ filter (is_wanted (S.may sieve.now)) (hole_choices self.now.task.now self.now.types.now self.now.candidates.now)) }
    {
        let (constants, bound) = (self.task.constants(), self.task.atoms());
        let atoms = atoms(alloc, self.types, constants)?;
        if atoms.len() > MOST_NUMBERED {
            return Err(OutOfMemory);
        }
        let rows = atom_rows(alloc, constants, self.candidates, atoms.as_slice())?;
        let width = self.candidates.len();
        let found = wanted_classes(alloc, sieve, width, rows.as_slice(), bound)?;
        let list = preds(alloc, atoms.as_slice(), bound)?;
        class_choices(alloc, &list, found)
    }

    /// Those that may be wanted and leave some row out, as a filter's do.
    pub fn wanted_drops<S: Sieve>(
        &self,
        alloc: Global,
        sieve: &S,
    ) -> Result<Vec<Choice>, OutOfMemory>
        requires width { S.width sieve.now ≡ length self.now.candidates.now }
        requires sieve { IsSieve (length self.now.candidates.now) (S.may sieve.now) }
        ensures { IfOk result (λ cs. cs.items ≡ filter drops_some (filter (is_wanted (S.may sieve.now)) (hole_choices self.now.task.now self.now.types.now self.now.candidates.now))) }
    {
        let mut list = self.wanted(alloc, sieve)?;
        list.retain(|choice| choice.drops_some());
        Ok(list)
    }
}
