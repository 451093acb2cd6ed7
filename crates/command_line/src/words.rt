ghost use Rattle.std.specs.Prelude.{◌≡◌, ◌≤◌, IfOk, true, map, option_map, count_by};
ghost use Rattle.std.specs.List.{list_all};
ghost use Rattle.clap.specs.Walk.{texts as texts_of};
ghost use Rattle.command_line.specs.Word.{is_known, is_option};
ghost use Rattle.command_line.specs.Reading.{parts_text, run_named, plain_named};
ghost use Rattle.command_line.specs.Command.{run_by, run_of, plain_by, plain_of, command};

use crate::reading::{Parts, plain_parts, run_parts};
use crate::request::Request;
use crate::word::{is_known, is_operand, is_option, workers_of};
use std::alloc::Global;
use value_core::{Bytes, OutOfMemory};

// The number of workers where the words name none.
const WORKERS: u32 = 4;

// Whether each word is one that clap may read.
fn are_known(words: &[Bytes]) -> bool
    ensures { result ≡ list_all is_known words.now }
{
    words.iter().all(|word| is_known(word.as_slice()))
}

// How often the option stands among the words.
fn count_options(words: &[Bytes]) -> usize
    ensures { result ≡ count_by is_option words.now }
{
    words
        .iter()
        .filter(|word| is_option(word.as_slice()))
        .count()
}

// A word that clap may read, as text.
fn as_text(word: &[u8]) -> &str
    ensures { is_known word.now ≡ true → result.now ≡ word.now }
{
    match std::str::from_utf8(word) {
        Ok(text) => text,
        Err(_) => "",
    }
}

// The words as text.
fn texts(alloc: Global, words: &[Bytes]) -> Result<Vec<&str>, OutOfMemory>
    ensures { list_all is_known words.now ≡ true → IfOk result (λ v. texts_of v.items ≡ words.now) }
{
    let mut texts = Vec::new(alloc);
    for word in words {
        texts.push(as_text(word.as_slice()))?;
    }
    Ok(texts)
}

// A run of a file by a number of workers.
fn run_by(alloc: Global, workers: Option<u32>, file: &[u8]) -> Result<Option<Request>, OutOfMemory>
    ensures { IfOk result (λ request. request ≡ run_by workers file.now) }
{
    match workers {
        Some(workers) if is_operand(file) => {
            let file = Bytes::of(alloc, file)?;
            Ok(Some(Request::Run { file, workers }))
        }
        _ => Ok(None),
    }
}

// A plain listing of a file.
fn plain_by(alloc: Global, file: &[u8]) -> Result<Option<Request>, OutOfMemory>
    ensures { IfOk result (λ request. request ≡ plain_by file.now) }
{
    if !is_operand(file) {
        return Ok(None);
    }
    let file = Bytes::of(alloc, file)?;
    Ok(Some(Request::Plain { file }))
}

// What is asked for by the parts of the words after `run`.
fn run_named(alloc: Global, parts: Option<Parts>) -> Result<Option<Request>, OutOfMemory>
    ensures { IfOk result (λ request. request ≡ run_named (option_map parts_text parts.entry)) }
{
    let Some(parts) = parts else {
        return Ok(None);
    };
    let workers = match parts.number {
        Some(number) => workers_of(number.as_bytes()),
        None => Some(WORKERS),
    };
    run_by(alloc, workers, parts.file.as_bytes())
}

// What is asked for by the parts of the words after `plain`.
fn plain_named(alloc: Global, parts: Option<Parts>) -> Result<Option<Request>, OutOfMemory>
    ensures { IfOk result (λ request. request ≡ plain_named (option_map parts_text parts.entry)) }
{
    match parts {
        Some(parts) => plain_by(alloc, parts.file.as_bytes()),
        None => Ok(None),
    }
}

#[tactic(auto, using(crate::proofs::CommandLaws::run_refused, crate::proofs::CommandLaws::run_doubled, crate::proofs::CommandLaws::run_read))]
// What the words after `run` ask for.
fn run(alloc: Global, words: &[Bytes]) -> Result<Option<Request>, OutOfMemory>
    ensures { IfOk result (λ request. request ≡ run_of words.now) }
{
    if !are_known(words) {
        return Ok(None);
    }
    if count_options(words) > 1 {
        return Ok(None);
    }
    let texts = texts(alloc, words)?;
    let parts = run_parts(alloc, texts.as_slice())?;
    run_named(alloc, parts)
}

#[tactic(auto, using(crate::proofs::CommandLaws::plain_refused, crate::proofs::CommandLaws::plain_read))]
// What the words after `plain` ask for.
fn plain(alloc: Global, words: &[Bytes]) -> Result<Option<Request>, OutOfMemory>
    ensures { IfOk result (λ request. request ≡ plain_of words.now) }
{
    if !are_known(words) {
        return Ok(None);
    }
    let texts = texts(alloc, words)?;
    let parts = plain_parts(alloc, texts.as_slice())?;
    plain_named(alloc, parts)
}

/// What the words ask for, if they are understood.
pub fn command(alloc: Global, words: &[Bytes]) -> Result<Option<Request>, OutOfMemory>
    ensures { IfOk result (λ request. request ≡ command words.now) }
{
    let Some((mode, words)) = words.split_first() else {
        return Ok(None);
    };
    if mode.as_slice() == b"run".as_slice() {
        return run(alloc, words);
    }
    if mode.as_slice() == b"plain".as_slice() {
        return plain(alloc, words);
    }
    Ok(None)
}
