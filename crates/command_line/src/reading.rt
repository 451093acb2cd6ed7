ghost use Rattle.std.specs.Prelude.{◌≡◌, IfOk, true, false, MatchOption, map, option_map, [], ◌≢◌};
ghost use Rattle.clap.specs.Words.{app_of, found_of, is_simple, matches_of, rows_of, fault_of, is_simple_and_free};
ghost use Rattle.clap.specs.Walk.{texts};
ghost use Rattle.command_line.specs.Reading.{run_app, plain_app, rows_if_taken, parts_in, parts_of, parts_text};

use clap::error::ErrorKind;
use clap::{Arg, ArgMatches, Command, Error};
use std::alloc::Global;
use value_core::OutOfMemory;

/// A file, and the word after the option where that stands.
#[derive(Drop)]
pub struct Parts<'a> {
    pub file: &'a str,
    pub number: Option<&'a str>,
}

// What `run` takes: an operand and an option with a value.
fn run_command<'a>(alloc: Global) -> Result<Command<'a>, OutOfMemory>
    ensures { IfOk result (λ command. app_of command ≡ run_app) }
{
    let file = Arg::new(alloc, "file").required(true);
    let workers = Arg::new(alloc, "workers").long("workers");
    let command = Command::new(alloc, "run").no_binary_name(true);
    let command = command.arg(file)?;
    let command = command.arg(workers)?;
    Ok(command)
}

// What `plain` takes: an operand.
fn plain_command<'a>(alloc: Global) -> Result<Command<'a>, OutOfMemory>
    ensures { IfOk result (λ command. app_of command ≡ plain_app) }
{
    let file = Arg::new(alloc, "file").required(true);
    let command = Command::new(alloc, "plain").no_binary_name(true);
    let command = command.arg(file)?;
    Ok(command)
}

// The matches of a command on the words, if it takes them.
fn read<'a>(
    command: Command<'a>,
    words: &'a [&'a str],
) -> Result<Option<ArgMatches<'a>>, OutOfMemory>
    requires { (is_simple (app_of command) ≡ true) × (is_simple_and_free (app_of command) ≡ true) }
    ensures { IfOk result (λ read. option_map (λ m. rows_of (found_of m)) read ≡ rows_if_taken (app_of command.entry) (texts words.now)) }
{
    match command.try_get_matches_from(words) {
        Ok(matches) => Ok(Some(matches)),
        Err(error) if error.kind() == ErrorKind::OutOfMemory => Err(OutOfMemory),
        Err(_) => Ok(None),
    }
}

// The file and the number among the matches.
fn parts_in<'a>(matches: &ArgMatches<'a>) -> Option<Parts<'a>>
    ensures { option_map parts_text result ≡ parts_in (rows_of (found_of matches.now)) }
{
    let file = matches.get_str("file")?;
    let number = matches.get_str("workers");
    Some(Parts { file, number })
}

/// The file and the number that the words after `run` name.
pub fn run_parts<'a>(alloc: Global, words: &'a [&'a str]) -> Result<Option<Parts<'a>>, OutOfMemory>
    ensures { IfOk result (λ parts. option_map parts_text parts ≡ parts_of run_app (texts words.now)) }
{
    let command = run_command(alloc)?;
    match read(command, words)? {
        Some(matches) => Ok(parts_in(&matches)),
        None => Ok(None),
    }
}

/// The file that the words after `plain` name.
pub fn plain_parts<'a>(
    alloc: Global,
    words: &'a [&'a str],
) -> Result<Option<Parts<'a>>, OutOfMemory>
    ensures { IfOk result (λ parts. option_map parts_text parts ≡ parts_of plain_app (texts words.now)) }
{
    let command = plain_command(alloc)?;
    match read(command, words)? {
        Some(matches) => Ok(parts_in(&matches)),
        None => Ok(None),
    }
}
