//! The command line of the program, as `clap` reads it.
ghost use Rattle.clap.specs.declared.builder.action.ArgAction.TheVariants.{Set};
ghost use Rattle.clap.specs.Kinds.{IsAmong, Kinds};
ghost use Rattle.clap.specs.Simple.{new_rule};
ghost use Rattle.clap.specs.Words.{app_of, first_value, found_of, rule_of};
ghost use Rattle.pp_arguments.specs.CommandLine.{IsFaultOf, are_taken, faults_of, option_rule, pp6600, value_of};
ghost use Rattle.std.specs.Prelude.{◌≡◌, ◌⊎◌, [], ℕ, List, Some, codes, false, map, IfOk, IfErr, IsTrue, MatchResult};
ghost use Rattle.std.specs.String.{string_bytes};

use crate::options::ArgFault;
use clap::error::ErrorKind;
use clap::{Arg, ArgAction, ArgMatches, Command};
use std::alloc::{AllocError, Global};

/// Returns an option with one value.
fn option<'a>(alloc: Global, name: &'a str) -> Arg<'a>
    ensures rule { rule_of result ≡ option_rule name.entry.now }
    ensures local { result.global ≡ false }
{
    Arg::new(alloc, name).long(name).action(ArgAction::Set)
}

/// Returns the word that belongs to no option.
fn script<'a>(alloc: Global) -> Arg<'a>
    ensures rule { rule_of result ≡ record (new_rule (codes "script")) { action = Some Set } }
    ensures local { result.global ≡ false }
{
    Arg::new(alloc, "script").action(ArgAction::Set)
}

fn command_line<'a>(alloc: Global) -> Result<Command<'a>, AllocError>
    ensures { IfOk result (λ command. app_of command ≡ pp6600) }
{
    Command::new(alloc, "pp6600")
        .arg(option(alloc, "history"))?
        .arg(option(alloc, "central"))?
        .arg(option(alloc, "deck"))?
        .arg(option(alloc, "reader"))?
        .arg(option(alloc, "printer"))?
        .arg(option(alloc, "panel"))?
        .arg(script(alloc))
}

fn fault_of(kind: ErrorKind) -> ArgFault
    ensures memory { kind ≡ ErrorKind.OutOfMemory → result ≡ ArgFault.NoMemory }
    ensures names_cause { (kinds : Kinds) → (kind ≡ ErrorKind.OutOfMemory) ⊎ IsAmong kind kinds → IsFaultOf kinds result }
{
    match kind {
        ErrorKind::OutOfMemory => ArgFault::NoMemory,
        ErrorKind::DisplayHelp => ArgFault::Help,
        _ => ArgFault::BadArguments,
    }
}

/// Returns the value of each option in the words. The first word is the program's name.
///
/// # Errors
/// `NoMemory` if memory runs out. `Help` or `BadArguments` if the words are not those of this command
/// line, as `clap` reads it.
pub fn read_words<'a>(alloc: Global, words: &'a [String]) -> Result<ArgMatches<'a>, ArgFault>
    ensures matches { IfOk result (λ matches. (name : List ℕ) →
        first_value (found_of matches) name ≡ value_of (map string_bytes words.entry.now) name) }
    ensures takes_words { IfErr result (λ fault.
        IsTrue (are_taken (map string_bytes words.entry.now)) → fault ≡ ArgFault.NoMemory) }
    ensures faults { MatchResult result (λ _. faults_of (map string_bytes words.entry.now) ≡ [])
        (IsFaultOf (faults_of (map string_bytes words.entry.now))) }
{
    let Ok(command) = command_line(alloc) else {
        return Err(ArgFault::NoMemory);
    };
    match command.try_get_matches_from(words) {
        Ok(matches) => Ok(matches),
        Err(error) => Err(fault_of(error.kind())),
    }
}
