// The arguments after a command's name, as clap reads them.
ghost use Rattle.std.specs.Prelude.{◌≡◌, ◌≢◌, codes, map, string_bytes, true, false, IfOk, IfErr};
ghost use Rattle.clap.specs.Words.{first_value, found_of, kind_of};
ghost use Rattle.command_words.specs.Words.{gen_app, strict_app, takes_words, text_for};

use clap::error::ErrorKind;
use clap::{Arg, ArgAction, ArgMatches, Command, Error};
use std::alloc::Global;

/// Returns the texts that clap reads in the arguments of a command with this name, which has a flag.
pub(crate) fn strict_matches<'a>(
    alloc: Global,
    name: &'a str,
    words: &'a [String],
) -> Result<ArgMatches<'a>, Error>
    ensures taken { IfOk result (λ _. takes_words (strict_app name.now) (map string_bytes words.now) ≡ true) }
    ensures refused { IfErr result (λ e. kind_of e ≢ ErrorKind.OutOfMemory
        → takes_words (strict_app name.now) (map string_bytes words.now) ≡ false) }
    ensures strict { IfOk result (λ m. first_value (found_of m) (codes "strict")
        ≡ text_for (codes "strict") (strict_app name.now) (map string_bytes words.now)) }
{
    let strict = Arg::new(alloc, "strict")
        .long("strict")
        .action(ArgAction::SetTrue);
    let command = Command::new(alloc, name).arg(strict)?;
    command.try_get_matches_from(words)
}

/// Returns the texts that clap reads in the arguments of `gen`, which has two.
pub(crate) fn gen_matches<'a>(alloc: Global, words: &'a [String]) -> Result<ArgMatches<'a>, Error>
    ensures taken { IfOk result (λ _. takes_words gen_app (map string_bytes words.now) ≡ true) }
    ensures refused { IfErr result (λ e. kind_of e ≢ ErrorKind.OutOfMemory → takes_words gen_app (map string_bytes words.now) ≡ false) }
    ensures seed { IfOk result (λ m. first_value (found_of m) (codes "SEED") ≡ text_for (codes "SEED") gen_app (map string_bytes words.now)) }
    ensures calls { IfOk result (λ m. first_value (found_of m) (codes "CALLS") ≡ text_for (codes "CALLS") gen_app (map string_bytes words.now)) }
{
    let seed = Arg::new(alloc, "SEED")
        .required(true)
        .action(ArgAction::Set);
    let command = Command::new(alloc, "gen").arg(seed)?;
    let calls = Arg::new(alloc, "CALLS")
        .required(true)
        .action(ArgAction::Set);
    let command = command.arg(calls)?;
    command.try_get_matches_from(words)
}
