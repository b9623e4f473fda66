ghost use Rattle.std.specs.Prelude.{◌≡◌, ◌≢◌, codes, map, string_bytes, IfOk, IfSome, IsErrOf, Some, None};
ghost use Rattle.command_words.specs.Words.{IsInRange, check_of, command_of, flag_of_follow, follow_of, generation, generation_of, is_follow, is_true, name_in, run_of};
ghost use Rattle.clap.specs.Words.{first_value, found_of, kind_of};

use crate::numerals::numeral_within;
use crate::readings::{gen_matches, strict_matches};
use clap::error::ErrorKind;
use clap::{ArgMatches, Error};
use std::alloc::Global;

/// The maximum number of calls of a generated trace. Source: this project.
const MAX_CALLS: u32 = 2000;

/// The command of the arguments.
#[derive(Clone, Copy, Debug, PartialEq, Eq)]
pub enum Command {
    /// `run`, or `run --strict`: runs the trace of the input. With the flag, the fabric never moves a path.
    Run { strict: bool },
    /// `gen SEED CALLS`: runs the trace of that seed with n calls, 1 to 2000.
    Generate { seed: u32, calls: u32 },
    /// `check`, or `check --strict`: verifies the report of the input against the trace of the input. With the flag, it
    /// is the report of a fabric that never moves a path.
    Check { strict: bool },
}

/// The error for arguments without a command.
#[derive(Clone, Copy, Debug, PartialEq, Eq, thiserror::Error)]
pub enum CommandError {
    /// An allocation failed.
    #[error("no memory for the words")]
    Memory,
    /// The arguments are not a command.
    #[error("the words are no command")]
    NoCommand,
}

/// Parses the arguments: the first is the name of the command, and the others are its arguments.
///
/// The commands are `run` and `check`, each with the flag `--strict` at most once, and `gen SEED CALLS`. Each number
/// has one to ten decimal digits without a leading zero, except `0` itself. An argument `--` ends the options, so
/// `--strict` after it is not a flag. A request for help is not a command. These are clap's rules.
///
/// # Errors
///
/// [`CommandError::NoCommand`] if the arguments are not a command, and [`CommandError::Memory`] if an allocation fails.
pub fn parse_command(alloc: Global, words: &[String]) -> Result<Command, CommandError>
    ensures command { IfOk result (λ c. command_of (map string_bytes words.now) ≡ Some c) }
    ensures calls { IfOk result IsInRange }
    ensures no_command { IsErrOf result CommandError.NoCommand → command_of (map string_bytes words.now) ≡ None }
{
    match name_in(words) {
        Some(Name::Run) => read_run(alloc, words),
        Some(Name::Gen) => read_generation(alloc, words),
        Some(Name::Check) => read_check(alloc, words),
        None => Err(CommandError::NoCommand),
    }
}

/// Parses the arguments of `follow`, and returns whether they have the flag `--strict`. The rules of `run` apply.
///
/// # Errors
///
/// [`CommandError::NoCommand`] if the arguments do not request that a trace is followed, and [`CommandError::Memory`]
/// if an allocation fails.
pub fn read_follow(alloc: Global, words: &[String]) -> Result<bool, CommandError>
    ensures follow { IfOk result (λ strict. follow_of (map string_bytes words.now) ≡ Some strict) }
    ensures no_follow { IsErrOf result CommandError.NoCommand → follow_of (map string_bytes words.now) ≡ None }
{
    if is_follow(words) {
        read_follow_flag(alloc, words)
    } else {
        Err(CommandError::NoCommand)
    }
}

// Parses the arguments of `follow` after its name.
fn read_follow_flag(alloc: Global, words: &[String]) -> Result<bool, CommandError>
    ensures flag { IfOk result (λ strict. flag_of_follow (map string_bytes words.now) ≡ Some strict) }
    ensures no_follow { IsErrOf result CommandError.NoCommand → flag_of_follow (map string_bytes words.now) ≡ None }
{
    match strict_matches(alloc, "follow", words) {
        Ok(matches) => Ok(is_strict(&matches)),
        Err(error) => Err(fault_of(&error)),
    }
}

// Returns whether the first argument is `follow`.
fn is_follow(words: &[String]) -> bool
    ensures { result ≡ is_follow (map string_bytes words.now) }
{
    match words.first() {
        Some(word) => word.as_str() == "follow",
        None => false,
    }
}

// The names of the commands.
#[derive(Clone, Copy)]
enum Name {
    Run,
    Gen,
    Check,
}

// Returns the command with the first argument as its name.
fn name_in(words: &[String]) -> Option<Name>
    ensures { result ≡ name_in (map string_bytes words.now) }
{
    let word = words.first()?.as_str();
    if word == "run" {
        Some(Name::Run)
    } else if word == "gen" {
        Some(Name::Gen)
    } else if word == "check" {
        Some(Name::Check)
    } else {
        None
    }
}

// Parses the arguments of `run`.
fn read_run(alloc: Global, words: &[String]) -> Result<Command, CommandError>
    ensures command { IfOk result (λ c. run_of (map string_bytes words.now) ≡ Some c) }
    ensures calls { IfOk result IsInRange }
    ensures no_command { IsErrOf result CommandError.NoCommand → run_of (map string_bytes words.now) ≡ None }
{
    match strict_matches(alloc, "run", words) {
        Ok(matches) => Ok(Command::Run {
            strict: is_strict(&matches),
        }),
        Err(error) => Err(fault_of(&error)),
    }
}

// Parses the arguments of `check`.
fn read_check(alloc: Global, words: &[String]) -> Result<Command, CommandError>
    ensures command { IfOk result (λ c. check_of (map string_bytes words.now) ≡ Some c) }
    ensures calls { IfOk result IsInRange }
    ensures no_command { IsErrOf result CommandError.NoCommand → check_of (map string_bytes words.now) ≡ None }
{
    match strict_matches(alloc, "check", words) {
        Ok(matches) => Ok(Command::Check {
            strict: is_strict(&matches),
        }),
        Err(error) => Err(fault_of(&error)),
    }
}

// Returns whether the flag was given: its text is `true` then, and `false` otherwise.
fn is_strict(matches: &ArgMatches) -> bool
    ensures { result ≡ is_true (first_value (found_of matches.now) (codes "strict")) }
{
    match matches.get_str("strict") {
        Some(text) => text == "true",
        None => false,
    }
}

// Parses the arguments of `gen`.
fn read_generation(alloc: Global, words: &[String]) -> Result<Command, CommandError>
    ensures command { IfOk result (λ c. generation_of (map string_bytes words.now) ≡ Some c) }
    ensures calls { IfOk result IsInRange }
    ensures no_command { IsErrOf result CommandError.NoCommand → generation_of (map string_bytes words.now) ≡ None }
{
    match gen_matches(alloc, words) {
        Ok(matches) => generation_in(&matches).ok_or(CommandError::NoCommand),
        Err(error) => Err(fault_of(&error)),
    }
}

// Returns the command of the texts for SEED and CALLS.
fn generation_in(matches: &ArgMatches) -> Option<Command>
    ensures calls { IfSome result IsInRange }
    ensures texts { result ≡ generation (first_value (found_of matches.now) (codes "SEED")) (first_value (found_of matches.now) (codes "CALLS")) }
{
    let seed = numeral_within(0, u32::MAX, matches.get_str("SEED")?)?;
    let calls = numeral_within(1, MAX_CALLS, matches.get_str("CALLS")?)?;
    Some(Command::Generate { seed, calls })
}

// Converts clap's error. A failed allocation shows nothing about the arguments, and any other error means that they are
// not a command.
fn fault_of(error: &Error) -> CommandError
    ensures no_command { result ≡ CommandError.NoCommand → kind_of error.now ≢ ErrorKind.OutOfMemory }
    ensures memory { result ≡ CommandError.Memory → kind_of error.now ≡ ErrorKind.OutOfMemory }
{
    match error.kind() {
        ErrorKind::OutOfMemory => CommandError::Memory,
        _ => CommandError::NoCommand,
    }
}
