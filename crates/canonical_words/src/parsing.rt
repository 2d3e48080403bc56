//! What commands are parsed by: `clap`, given options that must stand once,
//! and words in one fixed form.

ghost use Rattle.std.specs.Prelude.{◌≡◌, ◌<◌, ◌∷◌, true, false, Some, IfOk, is_some, length, map};
ghost use Rattle.std.specs.Prelude.{string_bytes};
ghost use Rattle.command_line.specs.Spelling.{joined as joined_word};
ghost use Rattle.clap.specs.Words.{app_of, first_of, found_of, matches_of, rows_of, rule_of, takes};
ghost use Rattle.canonical_words.specs.Canonical.{ComesBack, app_with, canonical};
ghost use Rattle.canonical_words.specs.Canonical.{required_rule};

use clap::{Arg, ArgAction, ArgMatches, Command};
use command_line::Text;
use no_memory::NoMemory;
use std::alloc::Global;
use std::marker::Model;

/// An option that must stand once, and its value.
#[derive(Drop)]
pub(crate) struct Named<'a>(pub(crate) &'a str, pub(crate) &'a str);

impl<'a> Model for Named<'a> {
    ghost use Rattle.command_line.specs.Spelling.{Setting, setting};

    ghost Value = { Setting };

    ghost view = { λ a. setting a.0.now a.1.now };
}

/// Hands a command with these options to `clap`, and takes their values back.
pub(crate) fn taken_back(
    alloc: Global,
    command: &str,
    options: &[Named<'_>],
) -> Result<Vec<Text>, NoMemory>
    requires comes { ComesBack command.now options.now }
    ensures { IfOk result (λ values. values.items ≡ map (λ s. s.value) options.now) }
{
    let words = spelled(alloc, command, options)?;
    let command = command_with(alloc, command, options)?;
    let matches = parse(command, words.as_slice())?;
    values_of(alloc, &matches, options)
}

/// Takes the first of some values.
pub(crate) fn first_value(values: &mut Vec<Text>) -> Text
    requires some { 0 < length values.old.items }
    ensures { values.old.items ≡ result ∷ values.new.items }
{
    values.remove(0)
}

// The canonical words of a command with these options.
fn spelled(alloc: Global, command: &str, options: &[Named<'_>]) -> Result<Vec<String>, NoMemory>
    ensures { IfOk result
        (λ words. map string_bytes words.items ≡ canonical command.now options.now) }
{
    let mut words = Vec::new(alloc);
    words.push(String::from_str(alloc, command)?)?;
    for option in options {
        words.push(joined(alloc, option)?)?;
    }
    Ok(words)
}

// A command of this name with these options.
fn command_with<'a>(
    alloc: Global,
    name: &'a str,
    options: &'a [Named<'a>],
) -> Result<Command<'a>, NoMemory>
    ensures { IfOk result (λ command. app_of command ≡ app_with name.now options.now) }
{
    let mut command = Command::new(alloc, name).disable_help_flag(true);
    for option in options {
        command = command.arg(required(alloc, option.0))?;
    }
    Ok(command)
}

// The values of options that have them.
fn values_of(
    alloc: Global,
    matches: &ArgMatches<'_>,
    options: &[Named<'_>],
) -> Result<Vec<Text>, NoMemory>
    requires given { map (λ s. first_of s.option (rows_of (found_of matches.now))) options.now
        ≡ map (λ s. Some s.value) options.now }
    ensures { IfOk result (λ values. values.items ≡ map (λ s. s.value) options.now) }
{
    let mut values = Vec::new(alloc);
    for option in options {
        values.push(value_of(alloc, matches, option.0)?)?;
    }
    Ok(values)
}

// Parses words that the command takes.
fn parse<'a>(command: Command<'a>, words: &'a [String]) -> Result<ArgMatches<'a>, NoMemory>
    requires taken { takes (app_of command) (map string_bytes words.now) ≡ true }
    ensures { IfOk result (λ matches. rows_of (found_of matches)
        ≡ matches_of (app_of command.entry) (map string_bytes words.now)) }
{
    match command.try_get_matches_from(words) {
        Ok(matches) => Ok(matches),
        Err(_) => Err(NoMemory),
    }
}

// The value of an option that has one.
fn value_of(alloc: Global, matches: &ArgMatches<'_>, option: &str) -> Result<Text, NoMemory>
    requires some { is_some (first_of option.now (rows_of (found_of matches.now))) ≡ true }
    ensures { IfOk result (λ value. first_of option.now (rows_of (found_of matches.now))
        ≡ Some value) }
{
    match matches.get_str(option) {
        Some(value) => Text::from_str(alloc, value),
        None => unreachable!(),
    }
}

// An option that must stand once, with a value.
fn required<'a>(alloc: Global, option: &'a str) -> Arg<'a>
    ensures rule { rule_of result ≡ required_rule option.now }
    ensures local { result.global ≡ false }
{
    Arg::new(alloc, option)
        .long(option)
        .required(true)
        .action(ArgAction::Set)
}

// An option and its value in one word.
fn joined(alloc: Global, option: &Named<'_>) -> Result<String, NoMemory>
    ensures { IfOk result (λ word. string_bytes word ≡ joined_word option.now) }
{
    let mut word = String::from_str(alloc, "--")?;
    word.push_str(option.0)?;
    word.push('=')?;
    word.push_str(option.1)?;
    Ok(word)
}
