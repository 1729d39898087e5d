// The words of the program's call.
ghost use Rattle.std.specs.Prelude.{◌≡◌, IfOk, IfErr, OnOk, true, false, map, string_bytes};
ghost use Rattle.clap.specs.Words.{found_of, kind_of, matches_of, rows_of, takes};
ghost use Rattle.si_serve.specs.Words.{asked_of, program, HasNoFault, IsPlain, IsReadAsSaid};
ghost use Rattle.si_serve.specs.declared.words.WordFault.TheVariants.{Usage};

use clap::error::ErrorKind;
use clap::{Arg, ArgAction, ArgMatches, Command, Error};
use std::alloc::Global;

/// Why the words of a call aren't read.
#[derive(Clone, Copy, Debug, PartialEq, Eq)]
pub enum WordFault {
    /// They are no call of the program, or ask for help.
    Usage,
    /// There was no memory to read them.
    Memory,
}

/// The words of a call, read as `stindex [--strict] [FILE]...`.
pub fn read_words<'a>(alloc: Global, words: &'a [String]) -> Result<ArgMatches<'a>, WordFault>
    ensures taken { IfOk result (λ m. rows_of (found_of m)
        ≡ matches_of program (map string_bytes words.entry.now)) }
    ensures faultless { OnOk result (HasNoFault (map string_bytes words.entry.now)) }
    ensures refused { IfErr result (λ fault. fault ≡ Usage
        → takes program (map string_bytes words.entry.now) ≡ false) }
    ensures plain { IsPlain (map string_bytes words.entry.now)
        → IsReadAsSaid (map string_bytes words.entry.now) }
{
    match matches_in(alloc, words) {
        Ok(matches) => Ok(matches),
        Err(error) => Err(fault_of(&error)),
    }
}

/// Why `clap` gave no matches.
fn fault_of(error: &Error) -> WordFault
    ensures { result ≡ Usage → kind_of error.now ≡ ErrorKind.OutOfMemory → ⊥ }
{
    match error.kind() {
        ErrorKind::OutOfMemory => WordFault::Memory,
        _ => WordFault::Usage,
    }
}

/// What `clap` makes of the words.
fn matches_in<'a>(alloc: Global, words: &'a [String]) -> Result<ArgMatches<'a>, Error>
    ensures ok { IfOk result (λ m. rows_of (found_of m)
        ≡ matches_of program (map string_bytes words.entry.now)) }
    ensures faultless { OnOk result (HasNoFault (map string_bytes words.entry.now)) }
    ensures err { IfErr result (λ e. takes program (map string_bytes words.entry.now) ≡ true
        → kind_of e ≡ ErrorKind.OutOfMemory) }
{
    let strict = Arg::new(alloc, "strict")
        .long("strict")
        .action(ArgAction::SetTrue);
    let command = Command::new(alloc, "stindex")
        .no_binary_name(true)
        .arg(strict)?;
    let file = Arg::new(alloc, "FILE")
        .num_args(..)
        .action(ArgAction::Append);
    let command = command.arg(file)?;
    command.try_get_matches_from(words)
}

/// Whether the run is strict.
pub fn is_strict(matches: &ArgMatches<'_>) -> bool
    ensures { result ≡ (asked_of matches.now).strict }
{
    // By its text, for which `get_str` says exactly what it gives; `get_flag` doesn't.
    match matches.get_str("strict") {
        Some(text) => text == "true",
        None => false,
    }
}
