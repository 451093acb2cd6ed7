//! The program: its words, the files of the current folder and the standard streams, given to the top call.
#![tactic(auto)]

mod arguments;

use crate::arguments::words;
use io_edge::{DiskFolder, OpenGate, StdSink};
use std::process::ExitCode;
use top_call::{End, scythe};

fn main(rt: HostRuntime) -> ExitCode {
    let Ok(words) = words(&rt, rt.alloc()) else {
        return ExitCode::from(End::OutOfMemory.status());
    };
    let mut folder = DiskFolder::new(rt);
    let mut out = StdSink::new(rt.stdout());
    let mut err = StdSink::new(rt.stderr());
    let end = scythe(
        &rt,
        rt.alloc(),
        words.as_slice(),
        &mut folder,
        &mut out,
        &mut err,
        &OpenGate,
    );
    ExitCode::from(end.status())
}
