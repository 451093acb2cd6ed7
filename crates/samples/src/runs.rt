//! Whole runs, in memory.

use crate::fault::Failed;
use crate::make::{Files, fails, files};
use crate::show::text;
use io_edge::{MemFolder, MemSink, OpenGate, SureFolder, SureSink};
use std::alloc::Global;
use std::thread::Threads;
use top_call::scythe;
use value_core::Bytes;

const TABLE: (&str, &str) = ("t.csv", "id,v\n1,10\n2,20\n");

const OUTPUT: (&str, &str) = ("out.csv", "id,v\n2,20\n");

const FILES: Files = &[
    TABLE,
    OUTPUT,
    (
        "t.toml",
        "constants = [2]\nops = 1\nleaves = 1\natoms = 1\n[[input]]\nname = \"t\"\nfile = \"t.csv\"\n[output]\nfile = \"out.csv\"\n",
    ),
    (
        "none.toml",
        "ops = 0\n[[input]]\nname = \"t\"\nfile = \"t.csv\"\n[output]\nfile = \"out.csv\"\n",
    ),
    ("two.csv", "id,v\na,1\na,2\n"),
    ("one.csv", "id\na\n"),
    (
        "least.toml",
        "constants = [1]\nops = 1\nleaves = 1\natoms = 1\nbudget = 6\n[[input]]\nname = \"t\"\nfile = \"two.csv\"\n[output]\nfile = \"one.csv\"\n",
    ),
    (
        "small.toml",
        "constants = [1]\nops = 1\nleaves = 1\natoms = 1\nbudget = 5\n[[input]]\nname = \"t\"\nfile = \"two.csv\"\n[output]\nfile = \"one.csv\"\n",
    ),
    (
        "wrong.toml",
        "ops = 5\n[[input]]\nname = \"t\"\nfile = \"t.csv\"\n[output]\nfile = \"out.csv\"\n",
    ),
    (
        "many.toml",
        "ops = 4\nleaves = 3\naggregates = [\"count(*)\", \"count\", \"count distinct\", \"sum\", \"min\", \"max\"]\n[[input]]\nname = \"t\"\nfile = \"t.csv\"\n[output]\nfile = \"out.csv\"\n",
    ),
];

// The words of a run, the number of the read that fails, and the same of the writes to the output and to the error stream,
// each of which takes one byte.
#[derive(Clone, Copy)]
struct Run {
    words: &'static [&'static str],
    read: u64,
    write: u64,
    line: u64,
}

const LISTED: Run = Run {
    words: &["run", "t.toml"],
    read: 0,
    write: 0,
    line: 0,
};

fn words(alloc: Global, texts: &[&str]) -> Result<Vec<Bytes>, Failed> {
    let mut words = Vec::new(alloc);
    for text in texts {
        words.push(Bytes::of(alloc, text.as_bytes())?)?;
    }
    Ok(words)
}

fn sink(alloc: Global, fail: u64) -> Result<MemSink, Failed> {
    Ok(MemSink::new(alloc, 1000, 1, fails(alloc, fail)?)?)
}

// The status of a run.
fn status<R: Threads + Sync>(
    rt: &R,
    alloc: Global,
    run: &Run,
    out: &mut MemSink,
    err: &mut MemSink,
) -> Result<u8, Failed> {
    let words = words(alloc, run.words)?;
    let mut folder = MemFolder::new(alloc, files(alloc, FILES)?, fails(alloc, run.read)?)?;
    let words = words.as_slice();
    Ok(scythe(rt, alloc, words, &mut folder, out, err, &OpenGate).status())
}

fn written(rt: &impl Print, status: u8, out: &MemSink, err: &MemSink) -> Result<(), Failed> {
    println!(rt; "status {status}: {:?}", text(out.bytes()))?;
    println!(rt; "  {:?}", text(err.bytes()))?;
    Ok(())
}

// The status of a run, and what it wrote.
fn shown<R: Print + Threads + Sync>(rt: &R, alloc: Global, run: &Run) -> Result<(), Failed> {
    let mut out = sink(alloc, run.write)?;
    let mut err = sink(alloc, run.line)?;
    let status = status(rt, alloc, run, &mut out, &mut err)?;
    written(rt, status, &out, &err)
}

const RUNS: &[Run] = &[
    LISTED,
    Run {
        words: &["run", "none.toml"],
        ..LISTED
    },
    Run {
        words: &["run", "wrong.toml"],
        ..LISTED
    },
    Run {
        words: &["run", "many.toml"],
        ..LISTED
    },
    Run {
        words: &["run", "small.toml"],
        ..LISTED
    },
    Run { read: 1, ..LISTED },
    Run { read: 2, ..LISTED },
    Run { read: 3, ..LISTED },
    Run { write: 1, ..LISTED },
    Run { write: 9, ..LISTED },
    Run {
        write: 82,
        ..LISTED
    },
    Run {
        read: 2,
        line: 1,
        ..LISTED
    },
    Run {
        read: 2,
        line: 26,
        ..LISTED
    },
];

// Words that are understood, and words that aren't.
const WORDS: &[&[&str]] = &[
    &["plain", "t.toml"],
    &["run", "t.toml", "--workers", "1"],
    &["run", "--workers", "16", "t.toml"],
    &["run", "--workers", "4", "none.toml"],
    &["plain", "none.toml"],
    &["run", "least.toml"],
    &["run", "small.toml"],
    &["run", "small.toml", "--workers", "16"],
    &["plain", "small.toml"],
    &[],
    &["run"],
    &["plain"],
    &["find", "t.toml"],
    &["RUN", "t.toml"],
    &["run", "a", "b"],
    &["plain", "a", "b"],
    &["run", ""],
    &["run", "t.toml", ""],
    &["run", "-h"],
    &["run", "--", "t.toml"],
    &["run", "t.toml", "--workers=2"],
    &["run", "t.toml", "--workers"],
    &["run", "--workers", "2"],
    &["run", "--workers", "t.toml"],
    &["run", "t.toml", "--workers", "0"],
    &["run", "t.toml", "--workers", "17"],
    &["run", "t.toml", "--workers", "04"],
    &["run", "t.toml", "--workers", "+2"],
    &["run", "t.toml", "--workers", "-2"],
    &["run", "--workers", "2", "t.toml", "--workers", "2"],
    &["run", "--workers", "2", "t.toml", "b"],
    &["plain", "t.toml", "--workers", "2"],
];

// How a run of these words ends.
fn answered<R: Print + Threads + Sync>(
    rt: &R,
    alloc: Global,
    words: &'static [&'static str],
) -> Result<(), Failed> {
    let mut out = sink(alloc, 0)?;
    let mut err = sink(alloc, 0)?;
    let status = status(rt, alloc, &Run { words, ..LISTED }, &mut out, &mut err)?;
    println!(rt; "{words:?}: status {status}, {} bytes", out.bytes().len())?;
    Ok(())
}

// A run over a folder and sinks that never fail.
fn sure<R: Print + Threads + Sync>(rt: &R, alloc: Global) -> Result<(), Failed> {
    let words = words(alloc, LISTED.words)?;
    let words = words.as_slice();
    let mut folder = SureFolder::new(files(alloc, FILES)?);
    let end = scythe(
        rt,
        alloc,
        words,
        &mut folder,
        &mut SureSink,
        &mut SureSink,
        &OpenGate,
    );
    println!(rt; "{end:?}")?;
    Ok(())
}

pub fn samples<R: Print + Threads + Sync>(rt: &R, alloc: Global) -> Result<(), Failed> {
    for run in RUNS {
        shown(rt, alloc, run)?;
    }
    for words in WORDS {
        answered(rt, alloc, words)?;
    }
    sure(rt, alloc)
}
