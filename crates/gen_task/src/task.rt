ghost use Rattle.std.specs.Prelude.{◌≡◌, ◌∷◌, [], IfOk};
ghost use Rattle.gen_task.specs.Draws.{draw};
ghost use Rattle.gen_task.specs.Made.{whole, made};

use crate::draws::Draws;
use crate::output::table_out;
use crate::tables::{inputs, whole};
use sqlite_items::Items;
use std::alloc::Global;
use table_core::{AggSet, Task, TaskParts};
use value_core::{OutOfMemory, Value};

// The constant.
#[tactic(auto, unfolding(crate::specs::Draws::state_after))]
fn constants(alloc: Global, draws: &mut Draws) -> Result<Items<Value>, OutOfMemory>
    ensures { IfOk result (λ constants. constants ≡ whole (draw draws.old.state 1 100) ∷ []) }
{
    let mut constants = Items::new(alloc);
    constants.push(whole(draws.below(100)))?;
    Ok(constants)
}

// What the task of a number is made of.
#[tactic(auto, using(crate::proofs::OutputLaws::typed_out))]
fn parts(alloc: Global, number: u64) -> Result<TaskParts, OutOfMemory>
    ensures { IfOk result (λ parts. parts ≡ made number) }
{
    let mut draws = Draws { state: number };
    let inputs = inputs(alloc, &mut draws)?;
    let constants = constants(alloc, &mut draws)?;
    let output = table_out(alloc, inputs.as_slice(), constants.as_slice())?;
    Ok(TaskParts {
        inputs,
        output,
        constants,
        aggregates: AggSet::NONE,
        ops: 1,
        leaves: 2,
        atoms: 3,
        show: 25,
        budget: 400_000,
    })
}

/// The task of a number: two inputs of 16 rows and a constant, which seem drawn at random, and what one query gives of them.
#[tactic(auto, using(crate::proofs::OutputLaws::made_within))]
pub fn make(alloc: Global, number: u64) -> Result<Task, OutOfMemory>
    ensures { IfOk result (λ task. task ≡ made number) }
{
    match Task::new(parts(alloc, number)?) {
        Ok(task) => Ok(task),
        Err(_) => unreachable!(),
    }
}

#[cfg(test)]
mod tests {
    use super::*;
    use std::test::Fail;

    // `grp` and `val` of the rows of table `a` of number 0, computed apart from this program.
    const ROWS_OF_ZERO: [(i64, i64); 16] = [
        (15, 24),
        (1, 36),
        (13, 91),
        (8, 75),
        (0, 39),
        (15, 82),
        (6, 45),
        (4, 22),
        (9, 78),
        (11, 83),
        (14, 69),
        (15, 38),
        (13, 83),
        (1, 51),
        (3, 42),
        (9, 76),
    ];

    fn is_number(value: &Value, number: i64) -> bool {
        match value {
            Value::Int(n) => *n == number,
            Value::Null | Value::Text(_) => false,
        }
    }

    #[test]
    fn rows_of_zero(rt: HostRuntime) -> Result<(), Fail> {
        let task = make(rt.alloc(), 0)?;
        let table = task.inputs().first().ok_or("no input")?;
        assert_eq!(rt; table.tuples().len(), 16);
        for i in 0..16 {
            let (grp, val) = ROWS_OF_ZERO[i];
            let cells = table.tuples()[i].cells();
            assert_eq!(rt; cells.len(), 3);
            assert!(rt; is_number(&cells[0], i as i64 + 1), "row {i}");
            assert!(rt; is_number(&cells[1], grp), "row {i}");
            assert!(rt; is_number(&cells[2], val), "row {i}");
        }
        assert_eq!(rt; task.output().tuples().len(), 14);
        Ok(())
    }
}
