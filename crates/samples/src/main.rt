//! Each public call that takes memory, shown at least once: the program prints what it gives.
#![tactic(auto)]

mod bad_tasks;
mod bits;
mod classes;
mod edge;
mod fault;
mod files;
mod fillings;
mod keys;
mod lists;
mod make;
mod membership;
mod planned;
mod predicates;
mod pruning;
mod queries;
mod readings;
mod records;
mod runs;
mod search;
mod shapes;
mod show;
mod steps;
mod tables;
mod tell;
mod trees;
mod values;

use fault::Failed;
use io_edge::{DiskFolder, StdSink};

fn main(rt: HostRuntime) -> Result<(), Failed> {
    let alloc = rt.alloc();
    values::samples(&rt, alloc)?;
    records::samples(&rt, alloc)?;
    predicates::samples(&rt, alloc)?;
    bits::samples(&rt, alloc)?;
    classes::samples(&rt, alloc)?;
    tables::samples(&rt, alloc)?;
    trees::samples(&rt, alloc)?;
    lists::samples(&rt, alloc)?;
    steps::samples(&rt, alloc)?;
    keys::samples(&rt, alloc)?;
    fillings::samples(&rt, alloc)?;
    shapes::samples(&rt, alloc)?;
    membership::samples(&rt, alloc)?;
    queries::samples(&rt, alloc)?;
    search::samples(&rt, alloc)?;
    pruning::samples(&rt, alloc)?;
    files::samples(&rt, alloc)?;
    edge::samples(&rt, alloc)?;
    edge::read(
        &rt,
        alloc,
        &mut DiskFolder::new(rt),
        &["three", "four", "none"],
    )?;
    edge::write(&rt, &mut StdSink::new(rt.stdout()), b"abc\n")?;
    readings::samples(&rt, alloc)?;
    runs::samples(&rt, alloc)?;
    bad_tasks::samples(&rt, alloc)?;
    Ok(())
}
