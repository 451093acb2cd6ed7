//! The records of comma-separated texts.

use crate::fault::Failed;
use crate::show::text;
use csv_records::{Record, read_records};
use std::alloc::Global;

const TEXTS: &[&str] = &[
    "",
    "\n\r\n\r\n\n",
    "a,b\n1,2\n",
    "a,b\r\n1,2",
    "a\rb\r\rc",
    "\u{feff}a,b\n\n1,\n",
    "a,b,c\n1\n2,3,4,5\n",
    "\"x,y\",\"say \"\"hi\"\"\"\n",
    "\"two\nlines\",\"\r\n\"\n",
    "\"\"\n\n\"\"",
    ",\n,,",
    " a , \"b\" \na\"b,c",
];

// The fields of a record.
fn fields(rt: &impl Print, record: &Record) -> Result<(), Failed> {
    print!(rt; " /")?;
    for at in 0..record.len() {
        print!(rt; " {:?}", text(record.field(at).unwrap_or(b"no field")))?;
    }
    Ok(())
}

fn records(rt: &impl Print, alloc: Global, source: &str) -> Result<(), Failed> {
    print!(rt; "{source:?}:")?;
    let records = read_records(alloc, source.as_bytes())?;
    for record in records.as_slice() {
        fields(rt, record)?;
    }
    println!(rt)?;
    Ok(())
}

pub fn samples(rt: &impl Print, alloc: Global) -> Result<(), Failed> {
    for source in TEXTS {
        records(rt, alloc, source)?;
    }
    Ok(())
}
