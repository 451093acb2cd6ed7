//! Tables and tasks, read from the bytes of their files.

use crate::fault::Failed;
use crate::show::{Grid, Key, text};
use first_fault::Stop;
use sqlite_items::Items;
use std::alloc::Global;
use std::fmt::Display;
use table_read::{Size, read_table};
use task_file::{TaskFile, TaskFileFault, read_task_file};
use toml::Table;
use toml_keys::{
    Bounds, KeyFault, array_of, check_known, number_or, read_document, table_at, text_at, under,
    value_at,
};
use value_core::{ColType, Word};

// A name of 64 bytes, and then a name and a text of one more.
const LONG_NAME: &[u8] = b"0123456789abcdef0123456789abcdef0123456789abcdef0123456789abcdef";

const LONGER_NAME: &[u8] = b"0123456789abcdef0123456789abcdef0123456789abcdef0123456789abcdefg\n";

const LONGER_TEXT: &[u8] =
    b"a\n0123456789abcdef0123456789abcdef0123456789abcdef0123456789abcdefg\n";

const TABLES: &[&[u8]] = &[
    b"id,v\n1,5\n2,\n",
    b"\xef\xbb\xbfa,b,c\r\n,x,-9223372036854775808\r\n,,\r\n",
    b"a,b\n",
    b"n\n007\n",
    b"n\n9223372036854775808\n3\n",
    b"n\n\"1\"\n\"\"\n",
    b"a,a b\n\"x,y\",\"\"\"\n\"\n",
    LONG_NAME,
    b"",
    b"\n\r\n",
    b"a\n\xff\n",
    b"a,b,c,d\n",
    b"a,\n",
    b"\"\"\n",
    b"a,b,a\n",
    b"a\n1\n2\n3\n",
    b"a,b\n1\n",
    b"a\n1,2\n",
    LONGER_NAME,
    LONGER_TEXT,
];

// The table of at most 3 columns and 2 rows that a file tells, or what is wrong with the file.
fn table(
    rt: &impl Print,
    alloc: Global,
    types: Option<Items<ColType>>,
    bytes: &[u8],
) -> Result<(), Failed> {
    let name = Word::of(alloc, b"t")?;
    let size = Size {
        columns: 3,
        rows: 2,
    };
    match read_table(alloc, name, size, &types, bytes) {
        Ok(table) => println!(rt; "{}", Grid(&table))?,
        Err(Stop::Fault(fault)) => println!(rt; "{fault:?}")?,
        Err(Stop::OutOfMemory) => return Err(Failed::NoMemory),
    }
    Ok(())
}

const TYPED: &[(&[ColType], &[u8])] = &[
    (&[ColType::Text], b"n\n007\n\"\"\n"),
    (&[ColType::Int], b"n\n\"\"\n"),
    (&[ColType::Text, ColType::Int], b"a,b\nx,1\ny,2\n"),
    (&[ColType::Int], b"a,b\n"),
    (&[ColType::Int, ColType::Int], b"a,b\n1,2\n3\n"),
    (&[ColType::Int, ColType::Int], b"a,b\n1,2\n3,x\n"),
];

// What was read at a key, or what is wrong with it.
fn at_key<T: Display + Drop>(
    rt: &impl Print,
    answer: Result<T, Stop<KeyFault>>,
) -> Result<(), Failed> {
    match answer {
        Ok(value) => println!(rt; "  {value}")?,
        Err(Stop::Fault(fault)) => println!(rt; "  {}", Key(&fault))?,
        Err(Stop::OutOfMemory) => return Err(Failed::NoMemory),
    }
    Ok(())
}

// The text at a key.
fn word<'a>(alloc: Global, table: &'a Table, key: &str) -> Result<&'a str, Stop<KeyFault>> {
    match text_at(alloc, table, key, 3) {
        Ok(bytes) => Ok(text(bytes)),
        Err(stop) => Err(stop),
    }
}

// That there are no other keys.
fn alone(alloc: Global, table: &Table) -> Result<&'static str, Stop<KeyFault>> {
    match check_known(alloc, table, &["number", "text", "array"]) {
        Ok(()) => Ok("no other key"),
        Err(stop) => Err(stop),
    }
}

// Whether an array of one or two values stands at a key.
fn has_array(table: &Table) -> bool {
    match value_at(table, "array") {
        Some(value) => array_of(value, 1, 2).is_some(),
        None => false,
    }
}

const UP_TO_FOUR: Bounds = Bounds { low: 0, high: 4 };

// The keys of a table: a number up to 4, a text up to 3 bytes, an array of one or two, and whether there are others.
fn keys(rt: &impl Print, alloc: Global, table: &Table) -> Result<(), Failed> {
    at_key(rt, number_or(alloc, table, "number", 2, UP_TO_FOUR))?;
    at_key(rt, word(alloc, table, "text"))?;
    println!(rt; "  an array: {}", has_array(table))?;
    at_key(rt, alone(alloc, table))
}

// The keys of a document, and of a table in it.
fn document(rt: &impl Print, alloc: Global, bytes: &[u8]) -> Result<(), Failed> {
    println!(rt; "{:?}", text(bytes))?;
    let Some(table) = read_document(alloc, bytes)? else {
        println!(rt; "  no document")?;
        return Ok(());
    };
    keys(rt, alloc, &table)?;
    match table_at(alloc, &table, "table") {
        Ok(inner) => keys(rt, alloc, inner),
        Err(stop) => at_key::<&str>(rt, Err(under(alloc, "at ", stop))),
    }
}

const DOCUMENTS: &[&[u8]] = &[
    b"",
    b"number = 0\ntext = \"abc\"\n",
    b"number = 5\ntext = \"abcd\"\n",
    b"number = -1\ntext = \"\"\narray = []\n",
    b"number = \"1\"\narray = [1, \"a\"]\n[table]\nnumber = 4\nmore = 0\n",
    b"array = [1, 2, 3]\ntable = 1\n",
    b"number = 1\nnumber = 2\n",
    b"number =",
    b"text = \"\xff\"\n",
];

const TABLES_ALONE: &str =
    "[[input]]\nname = \"t\"\nfile = \"t.csv\"\n[output]\nfile = \"o.csv\"\n";

// Task files, each in two parts.
const TASKS: &[(&str, &str)] = &[
    ("", TABLES_ALONE),
    ("ops = 4\nleaves = 3\natoms = 3\n", TABLES_ALONE),
    (
        "input = [{ name = \"t\", file = \"t.csv\" }]\n",
        "output = { file = \"o.csv\" }\nops = 0\n",
    ),
    (
        "constants = [1, \"1\", -9223372036854775808]\n",
        TABLES_ALONE,
    ),
    ("aggregates = [\"max\", \"count distinct\"]\n", TABLES_ALONE),
    (
        "aggregates = []\n[[input]]\nname = \"s\"\nfile = \"s.csv\"\n",
        TABLES_ALONE,
    ),
    ("aggregates = [\"mean\"]\n", TABLES_ALONE),
    ("aggregates = [\"sum\", \"sum\"]\n", TABLES_ALONE),
    ("ops = 5\n", TABLES_ALONE),
    ("leaves = 0\n", TABLES_ALONE),
    ("leaves = 4\n", TABLES_ALONE),
    ("atoms = 0\n", TABLES_ALONE),
    ("atoms = 4\n", TABLES_ALONE),
    ("ops = 1.5\n", TABLES_ALONE),
    ("show = 3\n", TABLES_ALONE),
    ("constants = [1, 2, 3, 4, 5, 6, 7]\n", TABLES_ALONE),
    ("constants = [\"a\", 1, \"a\"]\n", TABLES_ALONE),
    ("constants = [\"\"]\n", TABLES_ALONE),
    ("[[input]]\nname = \"\"\nfile = \"s.csv\"\n", TABLES_ALONE),
    (
        "[[input]]\nname = \"s\"\nfile = \"s.csv\"\nkey = 1\n",
        TABLES_ALONE,
    ),
    (
        "input = [{ name = \"a\", file = \"a\" }, { name = \"b\", file = \"b\" }, { name = \"c\", file = \"c\" }, { name = \"d\", file = \"d\" }, { name = \"e\", file = \"e\" }]\n",
        "output = { file = \"o.csv\" }\n",
    ),
    ("[[input]]\nname = \"t\"\nfile = \"t.csv\"\n", ""),
    (TABLES_ALONE, "name = \"cut"),
];

// What a task file asks for.
fn asked(rt: &impl Print, task: &TaskFile) -> Result<(), Failed> {
    for input in task.inputs.as_slice() {
        print!(rt;
            "{} in {}, ",
            text(input.name.as_slice()),
            text(input.file.as_slice())
        )?;
    }
    let numbers = [task.ops, task.leaves, task.atoms, task.show];
    println!(rt;
        "output {}, {numbers:?}, {}",
        text(task.output.file.as_slice()),
        task.budget
    )?;
    println!(rt;
        "  {} constants, {:?}",
        task.constants.len(),
        task.aggregates
    )?;
    Ok(())
}

// A task file of two parts.
fn task(rt: &impl Print, alloc: Global, front: &str, back: &str) -> Result<(), Failed> {
    let source = format!(in alloc; "{front}{back}")?;
    match read_task_file(alloc, source.as_bytes()) {
        Ok(task) => asked(rt, &task),
        Err(Stop::Fault(TaskFileFault::BadToml)) => {
            println!(rt; "not TOML")?;
            Ok(())
        }
        Err(Stop::Fault(TaskFileFault::Key(fault))) => {
            println!(rt; "{}", Key(&fault))?;
            Ok(())
        }
        Err(Stop::OutOfMemory) => Err(Failed::NoMemory),
    }
}

pub fn samples(rt: &impl Print, alloc: Global) -> Result<(), Failed> {
    for bytes in TABLES {
        table(rt, alloc, None, bytes)?;
    }
    for (types, bytes) in TYPED {
        table(rt, alloc, Some(Items::from_slice(alloc, types)?), bytes)?;
    }
    for bytes in DOCUMENTS {
        document(rt, alloc, bytes)?;
    }
    for (front, back) in TASKS {
        task(rt, alloc, front, back)?;
    }
    Ok(())
}
