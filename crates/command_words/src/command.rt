//! The command line's parser: one job word, options with a value, flags.
ghost use Rattle.std.specs.Prelude.{◌≡◌, IfOk, IsSomeAnd, Err, None, map, fold, option_map, false, ◌∷◌, []};
ghost use Rattle.clap.specs.Simple.{app_of, with_rule};
ghost use Rattle.clap.specs.Walk.{rule_of};
ghost use Rattle.command_words.specs.Items.{items_of, texts_of};
ghost use Rattle.command_words.specs.Found.{Finds, said_by, app_with, job_rule, named_rule};

use crate::fault::WordsFault;
use clap::parser::ValueSource;
use clap::{Arg, ArgAction, ArgMatches, Command};
use std::alloc::{AllocError, Global};

/// The options, each of which has a value.
static OPTIONS: [&str; 11] = [
    "root",
    "k",
    "way",
    "hosts",
    "masters",
    "owner",
    "threshold",
    "rounds",
    "order",
    "size",
    "number",
];

/// The flags, which have none.
static FLAGS: [&str; 2] = ["report", "trace"];

/// What the words say, one by one; which job may say what is not asked here.
pub(crate) fn parsed<'a>(alloc: Global, words: &'a [String]) -> Result<ArgMatches<'a>, WordsFault>
    ensures finds { IfOk result (λ matches. IsSomeAnd (items_of (texts_of words.entry.now)) (λ items. Finds items matches)) }
    ensures refused { result ≡ Err WordsFault.Refused → items_of (texts_of words.entry.now) ≡ None }
{
    let command = command(alloc)?;
    let command = with_names(alloc, command, &OPTIONS, ArgAction::Set)?;
    let command = with_names(alloc, command, &FLAGS, ArgAction::SetTrue)?;
    Ok(command.try_get_matches_from(words)?)
}

/// The command of a job word alone, without help and version.
fn command<'a>(alloc: Global) -> Result<Command<'a>, AllocError>
    ensures { IfOk result (λ made. app_of made ≡ app_with (job_rule ∷ [])) }
{
    let job = Arg::new(alloc, "job").action(ArgAction::Set);
    let command = Command::new(alloc, "gluon")
        .no_binary_name(true)
        .disable_help_flag(true)
        .disable_version_flag(true);
    command.arg(job)
}

/// The command with arguments of these names, each of which does this.
fn with_names<'a>(
    alloc: Global,
    mut command: Command<'a>,
    names: &'a [&'a str],
    action: ArgAction,
) -> Result<Command<'a>, AllocError>
    ensures { IfOk result (λ made. app_of made
        ≡ fold with_rule (app_of command.entry) (map (λ name. named_rule action name.now) names.entry.now)) }
{
    for name in names {
        command = command.arg(named(alloc, name, action))?;
    }
    Ok(command)
}

/// The argument of this name, which does this.
fn named<'a>(alloc: Global, name: &'a str, action: ArgAction) -> Arg<'a>
    ensures rule { rule_of result ≡ named_rule action name.entry.now }
    ensures own { result.global ≡ false }
{
    Arg::new(alloc, name).long(name).action(action)
}

/// What the words say under a label: a job word, an option's value, and `true` for a flag.
pub(crate) fn text<'a>(matches: &ArgMatches<'a>, label: &str) -> Option<&'a str>
    ensures { option_map (λ text. text.now) result ≡ said_by matches.now label.now }
{
    match matches.value_source(label) {
        Some(ValueSource::CommandLine) => matches.get_str(label),
        _ => None,
    }
}
