ghost use Rattle.std.specs.Prelude.{◌≡◌, ◌↔◌, [], IfErr, IfOk, IsTrue, OnOk, codes, false};
ghost use Rattle.clap.specs.Words.{app_of, args_of, groups_of, kind_of, new_app};
ghost use Rattle.clap.specs.declared.builder.command.Command.TheViews.{out-Command as fields_of};
ghost use Rattle.vtgate_cl.specs.Words.{Asks, BeginsWith, Denies, HasValue, IsTaken, Means, Rejects, check_options, script_options, texts_of};

use crate::wanted::Wanted;
use crate::words_fault::WordsFault;
use clap::error::ErrorKind;
use clap::{Arg, ArgAction, Command, Error};
use std::alloc::{AllocError, Global};

/// Reads the words behind the program's name. The first says what is wanted, `script` or `check`, and a
/// command of clap takes the others: none for `script`, and `--catalog F` for `check`. Words that ask for a
/// command's help aren't accepted either, but answered by clap's text.
pub fn read_words<'a>(alloc: Global, words: &'a [String]) -> Result<Wanted<'a>, WordsFault>
    ensures ok { IfOk result (Asks words.entry.now) }
    ensures err { IfErr result (Denies words.entry.now) }
{
    if begins_with(words, "script") {
        return read_script(alloc, words);
    }
    if begins_with(words, "check") {
        return read_check(alloc, words);
    }
    Err(WordsFault::Refused)
}

// Whether the words begin with this one.
fn begins_with(words: &[String], first: &str) -> bool
    ensures { IsTrue result ↔ BeginsWith first.now (texts_of words.now) }
{
    let [word, ..] = words else {
        return false;
    };
    word.as_str() == first
}

// The words behind `script`.
fn read_script<'a>(alloc: Global, words: &'a [String]) -> Result<Wanted<'a>, WordsFault>
    requires { BeginsWith (codes "script") (texts_of words.now) }
    ensures ok { IfOk result (Asks words.entry.now) }
    ensures err { IfErr result (Denies words.entry.now) }
{
    match take_none(alloc, words) {
        Ok(()) => Ok(Wanted::Script),
        Err(fault) => Err(fault),
    }
}

// The words behind `check`.
fn read_check<'a>(alloc: Global, words: &'a [String]) -> Result<Wanted<'a>, WordsFault>
    requires { BeginsWith (codes "check") (texts_of words.now) }
    ensures ok { IfOk result (Asks words.entry.now) }
    ensures err { IfErr result (Denies words.entry.now) }
{
    match catalog_of(alloc, words) {
        Ok(catalog) => Ok(Wanted::Check { catalog }),
        Err(fault) => Err(fault),
    }
}

// Words that have no options.
fn take_none(alloc: Global, words: &[String]) -> Result<(), WordsFault>
    ensures taken { OnOk result (IsTaken script_options (texts_of words.now)) }
    ensures err { IfErr result (Rejects script_options (texts_of words.now)) }
{
    let Ok(command) = command_for(alloc, "script", "Answers a script, line by line") else {
        return Err(WordsFault::Memory);
    };
    match command.try_get_matches_from(words) {
        Ok(_) => Ok(()),
        Err(error) => Err(fault_for(alloc, &error)),
    }
}

// The value of `--catalog`, which has to be there.
fn catalog_of<'a>(alloc: Global, words: &'a [String]) -> Result<&'a str, WordsFault>
    ensures taken { OnOk result (IsTaken check_options (texts_of words.entry.now)) }
    ensures value { IfOk result (λ name. HasValue check_options (codes "catalog") (texts_of words.entry.now) name.now) }
    ensures err { IfErr result (Rejects check_options (texts_of words.entry.now)) }
{
    let catalog = Arg::new(alloc, "catalog")
        .long("catalog")
        .value_name("F")
        .help("The catalog file")
        .required(true)
        .action(ArgAction::Set);
    let Ok(plain) = command_for(alloc, "check", "Prints what a catalog has") else {
        return Err(WordsFault::Memory);
    };
    let Ok(command) = plain.arg(catalog) else {
        return Err(WordsFault::Memory);
    };
    let matches = match command.try_get_matches_from(words) {
        Ok(matches) => matches,
        Err(error) => return Err(fault_for(alloc, &error)),
    };
    match matches.get_str("catalog") {
        Some(catalog) => Ok(catalog),
        None => unreachable!(),
    }
}

// The command of clap behind this first word, without options.
fn command_for<'a>(alloc: Global, first: &'a str, about: &'a str) -> Result<Command<'a>, AllocError>
    ensures app { IfOk result (λ command. app_of command ≡ new_app first.entry.now) }
    ensures empty { IfOk result (λ command. (args_of command ≡ []) × (groups_of command ≡ [])) }
    ensures local { IfOk result (λ command. (fields_of command).has_globals ≡ false) }
    ensures negates { IfOk result (λ command. (fields_of command).subcommand_negates_reqs ≡ false) }
{
    let program = format!(in alloc; "vtgate_cl {first}")?;
    let command = Command::new(alloc, first).about(about);
    command.bin_name(program.as_str())
}

// What clap's error says: its help was asked for, or memory was refused, or else the words are.
fn fault_for(alloc: Global, error: &Error) -> WordsFault
    ensures { Means (kind_of error.now) result }
{
    match error.kind() {
        ErrorKind::OutOfMemory => WordsFault::Memory,
        ErrorKind::DisplayHelp => help_in(alloc, error),
        _ => WordsFault::Refused,
    }
}

// The text of a help that was asked for.
fn help_in(alloc: Global, error: &Error) -> WordsFault
    requires { kind_of error.now ≡ ErrorKind.DisplayHelp }
    ensures { Means (kind_of error.now) result }
{
    match format!(in alloc; "{error}") {
        Ok(text) => WordsFault::Help { text },
        Err(_) => WordsFault::Memory,
    }
}
