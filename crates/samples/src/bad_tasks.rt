//! Tasks that something is wrong with, and tasks at their limits: what a run tells.

use crate::fault::Failed;
use crate::make::fails;
use crate::show::text;
use io_edge::{MemFolder, MemSink, OpenGate};
use std::alloc::Global;
use std::thread::Threads;
use top_call::scythe;
use value_core::Bytes;

const TABLES: &str = "[[input]]\nname = \"t\"\nfile = \"t.csv\"\n[output]\nfile = \"out.csv\"\n";

const INPUT: &str = "[[input]]\nname = \"t\"\nfile = \"t.csv\"\n";

const OUTPUT: &str = "[output]\nfile = \"out.csv\"\n";

const INT_INPUT: &str = "[[input]]\nname = \"t\"\nfile = \"t.csv\"\ntypes = [\"int\"]\n";

// An input whose column is declared as texts, and an output whose column is read off.
const TEXT_TABLES: &str =
    "[[input]]\nname = \"t\"\nfile = \"t.csv\"\ntypes = [\"text\"]\n[output]\nfile = \"out.csv\"\n";

// A task of one answer.
const ONE_ANSWER: &str =
    "ops = 0\n[[input]]\nname = \"t\"\nfile = \"t.csv\"\n[output]\nfile = \"out.csv\"\n";

const T: &[u8] = b"id,v\na,1\na,2\n";

const O: &[u8] = b"id\na\n";

const LONG_CELL: &[u8] =
    b"id,v\na,b\na,0123456789abcdef0123456789abcdef0123456789abcdef0123456789abcdefg\n";

const ROWS_17: &[u8] = b"v\n1\n1\n1\n1\n1\n1\n1\n1\n1\n1\n1\n1\n1\n1\n1\n1\n1\n";

const ROWS_64: &[u8] =
    b"v\n1\n1\n1\n1\n1\n1\n1\n1\n1\n1\n1\n1\n1\n1\n1\n1\n1\n1\n1\n1\n1\n1\n1\n1\n1\n1\n1\n1\n1\n1\n1\n1\n1\n1\n1\n1\n1\n1\n1\n1\n1\n1\n1\n1\n1\n1\n1\n1\n1\n1\n1\n1\n1\n1\n1\n1\n1\n1\n1\n1\n1\n1\n1\n1\n";

const ROWS_65: &[u8] =
    b"v\n1\n1\n1\n1\n1\n1\n1\n1\n1\n1\n1\n1\n1\n1\n1\n1\n1\n1\n1\n1\n1\n1\n1\n1\n1\n1\n1\n1\n1\n1\n1\n1\n1\n1\n1\n1\n1\n1\n1\n1\n1\n1\n1\n1\n1\n1\n1\n1\n1\n1\n1\n1\n1\n1\n1\n1\n1\n1\n1\n1\n1\n1\n1\n1\n1\n";

// Names of 255 and of 256 bytes.
const LONGEST_FILE: &str =
    "[[input]]\nname = \"s\"\nfile = \"0123456789abcdef0123456789abcdef0123456789abcdef0123456789abcdef0123456789abcdef0123456789abcdef0123456789abcdef0123456789abcdef0123456789abcdef0123456789abcdef0123456789abcdef0123456789abcdef0123456789abcdef0123456789abcdef0123456789abcdef0123456789abcde\"\n";

const LONG_FILE: &str =
    "[[input]]\nname = \"s\"\nfile = \"0123456789abcdef0123456789abcdef0123456789abcdef0123456789abcdef0123456789abcdef0123456789abcdef0123456789abcdef0123456789abcdef0123456789abcdef0123456789abcdef0123456789abcdef0123456789abcdef0123456789abcdef0123456789abcdef0123456789abcdef0123456789abcdef\"\n";

// A task file in two parts, and the files of its input and its output.
type Case = (&'static str, &'static str, &'static [u8], &'static [u8]);

const CASES: &[Case] = &[
    ("ops = \"cut\n", TABLES, T, O),
    ("zip = 1\nopps = 1\nops = 9\n", TABLES, T, O),
    ("ops = 5\nleaves = 0\n", TABLES, T, O),
    ("leaves = 4\natoms = 0\n", TABLES, T, O),
    ("atoms = 4\nshow = 0\n", TABLES, T, O),
    ("show = 1001\nbudget = 0\n", TABLES, T, O),
    ("budget = 400001\n", TABLES, b"", O),
    (
        "constants = [1, 1]\naggregates = [\"sum\", \"sum\"]\n",
        TABLES,
        T,
        O,
    ),
    ("aggregates = [\"mean\"]\n", TABLES, T, O),
    ("ops = 5\n", "", T, O),
    ("constants = [\"\"]\n", INPUT, T, O),
    ("input = [{ name = \"t\" }, 1]\n", OUTPUT, T, O),
    ("[[input]]\nfile = 1\nmore = 1\n", TABLES, T, O),
    ("[[input]]\nfile = 1\n", TABLES, T, O),
    ("[[input]]\nname = \"t\"\nfile = \"u.csv\"\n", TABLES, T, O),
    ("[[input]]\nname = \"s\"\nfile = \"\"\n", TABLES, T, O),
    (LONG_FILE, TABLES, T, O),
    (LONGEST_FILE, OUTPUT, T, O),
    (
        "[[input]]\nname = \"s\"\nfile = \"t.csv\"\ntypes = [\"date\"]\n",
        TABLES,
        T,
        O,
    ),
    (INPUT, "[output]\nfiles = \"out.csv\"\n", T, O),
    (INPUT, "[output]\nfile = 1\ntypes = []\n", T, O),
    (
        INPUT,
        "[output]\nfile = \"out.csv\"\ntypes = [\"int\", \"int\"]\n",
        T,
        O,
    ),
    (INT_INPUT, OUTPUT, T, b""),
    ("", TABLES, b"", b""),
    ("", TABLES, b"\xff", O),
    ("", TABLES, T, b"id\n\xff\n"),
    ("", TABLES, b"a,b,c,d,e,f,\n", O),
    ("", TABLES, T, b"a,b,c,d,\n"),
    ("", TABLES, b"a,\n1\n", O),
    ("", TABLES, b"a,b,a\n", O),
    ("", TABLES, ROWS_17, O),
    ("", TABLES, T, ROWS_65),
    ("ops = 0\n", TABLES, T, ROWS_64),
    ("", TABLES, b"a,b\n1,2\n3\n4,5,6\n", O),
    (INT_INPUT, OUTPUT, b"n\n1\n007\nx\n", O),
    ("", TABLES, LONG_CELL, O),
    ("ops = 0\n", TABLES, b"n\n007\n", b"n\n007\n"),
    ("ops = 0\n", TEXT_TABLES, b"n\n1\n", b"n\n1\n"),
    (
        "constants = [1]\nops = 1\nleaves = 1\natoms = 1\nbudget = 1\n",
        TABLES,
        T,
        O,
    ),
    (
        "constants = [1]\nops = 1\nleaves = 1\natoms = 1\nshow = 2\nbudget = 400000\n",
        TABLES,
        T,
        O,
    ),
];

// The bytes of two texts, one after the other.
fn joined(alloc: Global, front: &str, back: &str) -> Result<Bytes, Failed> {
    let mut bytes = Vec::from_slice(alloc, front.as_bytes())?;
    bytes.extend_from_slice(back.as_bytes())?;
    Ok(Bytes::from_vec(bytes))
}

// A file: its name and its bytes.
fn file(alloc: Global, name: &[u8], bytes: &[u8]) -> Result<(Bytes, Bytes), Failed> {
    let name = Bytes::of(alloc, name)?;
    Ok((name, Bytes::of(alloc, bytes)?))
}

// A task file, its input and its output.
fn files(
    alloc: Global,
    task: &[u8],
    table: &[u8],
    output: &[u8],
) -> Result<Vec<(Bytes, Bytes)>, Failed> {
    let mut files = Vec::new(alloc);
    files.push(file(alloc, b"t.toml", task)?)?;
    files.push(file(alloc, b"t.csv", table)?)?;
    files.push(file(alloc, b"out.csv", output)?)?;
    Ok(files)
}

// A folder of them.
fn folder(alloc: Global, task: &[u8], table: &[u8], output: &[u8]) -> Result<MemFolder, Failed> {
    let fails = fails(alloc, 0)?;
    Ok(MemFolder::new(alloc, files(alloc, task, table, output)?, fails)?)
}

fn sink(alloc: Global) -> Result<MemSink, Failed> {
    Ok(MemSink::new(alloc, 1000, 1000, fails(alloc, 0)?)?)
}

fn words(alloc: Global) -> Result<[Bytes; 2], Failed> {
    let run = Bytes::of(alloc, b"run")?;
    Ok([run, Bytes::of(alloc, b"t.toml")?])
}

// The status of a run of the task file in this folder.
fn status<R: Threads + Sync>(
    rt: &R,
    alloc: Global,
    folder: &mut MemFolder,
    out: &mut MemSink,
    err: &mut MemSink,
) -> Result<u8, Failed> {
    let words = words(alloc)?;
    Ok(scythe(rt, alloc, &words, folder, out, err, &OpenGate).status())
}

// The status of a run, and what it wrote.
fn told(rt: &impl Print, status: u8, out: &[u8], err: &[u8]) -> Result<(), Failed> {
    print!(rt; "{status}: {}{}", text(out), text(err))?;
    Ok(())
}

fn run<R: Print + Threads + Sync>(
    rt: &R,
    alloc: Global,
    folder: &mut MemFolder,
    out: &mut MemSink,
    err: &mut MemSink,
) -> Result<(), Failed> {
    let status = status(rt, alloc, folder, out, err)?;
    told(rt, status, out.bytes(), err.bytes())
}

fn shown<R: Print + Threads + Sync>(
    rt: &R,
    alloc: Global,
    folder: &mut MemFolder,
) -> Result<(), Failed> {
    let mut out = sink(alloc)?;
    run(rt, alloc, folder, &mut out, &mut sink(alloc)?)
}

// A task file of so many bytes: a comment, and then a task of one answer.
fn of_length(alloc: Global, length: usize) -> Result<Bytes, Failed> {
    let mut bytes = Vec::from_elem(alloc, b'#', length.saturating_sub(ONE_ANSWER.len() + 1))?;
    bytes.push(b'\n')?;
    bytes.extend_from_slice(ONE_ANSWER.as_bytes())?;
    Ok(Bytes::from_vec(bytes))
}

// The folder of a case.
fn case_folder(alloc: Global, (front, back, table, output): &Case) -> Result<MemFolder, Failed> {
    folder(alloc, joined(alloc, front, back)?.as_slice(), table, output)
}

fn case<R: Print + Threads + Sync>(rt: &R, alloc: Global, case: &Case) -> Result<(), Failed> {
    shown(rt, alloc, &mut case_folder(alloc, case)?)
}

// The folder of a task file of so many bytes.
fn long_folder(alloc: Global, length: usize) -> Result<MemFolder, Failed> {
    folder(
        alloc,
        of_length(alloc, length)?.as_slice(),
        b"v\n1\n",
        b"v\n1\n",
    )
}

fn long<R: Print + Threads + Sync>(rt: &R, alloc: Global, length: usize) -> Result<(), Failed> {
    shown(rt, alloc, &mut long_folder(alloc, length)?)
}

pub fn samples<R: Print + Threads + Sync>(rt: &R, alloc: Global) -> Result<(), Failed> {
    for it in CASES {
        case(rt, alloc, it)?;
    }
    for length in [65_536, 65_537] {
        long(rt, alloc, length)?;
    }
    Ok(())
}
