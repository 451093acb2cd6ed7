//! Folders and sinks: in memory, on the disk, and of the system.

use crate::fault::Failed;
use crate::make::{Files, fails, files};
use crate::show::text;
use io_edge::{Folder, Gate, MemFolder, MemSink, OpenGate, Sink, SureFolder, SureSink, write_all};
use std::alloc::Global;

const FILES: Files = &[("a", "one"), ("a", "two"), ("b", "long")];

// What a folder gives of some files, of which at most 3 bytes are wanted.
pub fn read<F: Folder>(
    rt: &impl Print,
    alloc: Global,
    folder: &mut F,
    names: &[&str],
) -> Result<(), Failed> {
    for name in names {
        match folder.read(alloc, name.as_bytes(), 3) {
            Ok(bytes) => println!(rt; "{name}: {:?}", text(bytes.as_slice()))?,
            Err(fault) => println!(rt; "{name}: {fault:?}")?,
        }
    }
    Ok(())
}

// The same of folders in memory: the second read of one fails, and none of the other.
fn read_memory(rt: &impl Print, alloc: Global) -> Result<(), Failed> {
    let mut folder = MemFolder::new(alloc, files(alloc, FILES)?, fails(alloc, 2)?)?;
    read(rt, alloc, &mut folder, &["a", "a", "a", "b", "c"])?;
    let mut folder = SureFolder::new(files(alloc, FILES)?);
    read(rt, alloc, &mut folder, &["a", "b", "c"])
}

// Whether a sink takes some bytes.
pub fn write<S: Sink>(rt: &impl Print, sink: &mut S, bytes: &[u8]) -> Result<(), Failed> {
    let written = write_all(sink, bytes);
    println!(rt; "{written:?}")?;
    Ok(())
}

// What a sink in memory takes of two writes.
fn written(rt: &impl Print, sink: &mut MemSink) -> Result<(), Failed> {
    write(rt, sink, b"abc")?;
    write(rt, sink, b"defg")?;
    println!(rt; "written: {}", text(sink.bytes()))?;
    Ok(())
}

// The same where there is room for 5 bytes, 2 are taken at once, and the write of this number fails.
fn write_memory(rt: &impl Print, alloc: Global, fail: u64) -> Result<(), Failed> {
    written(rt, &mut MemSink::new(alloc, 5, 2, fails(alloc, fail)?)?)
}

pub fn samples(rt: &impl Print, alloc: Global) -> Result<(), Failed> {
    read_memory(rt, alloc)?;
    for fail in 0..6 {
        write_memory(rt, alloc, fail)?;
    }
    write(rt, &mut SureSink, b"abc")?;
    OpenGate.turn(0, 1);
    Ok(())
}
