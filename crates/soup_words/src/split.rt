//! The words as `clap` splits them.

ghost use Rattle.std.specs.Prelude.{◌≡◌, ◌≢◌, [], false, IfOk, IsErrOf, map, string_bytes};
ghost use Rattle.clap.specs.Words.{app_of, fault_of, rule_of};
ghost use Rattle.soup_words.specs.Split.{option_rule, split_of, start_app, tierra_app, with_options};

use crate::order::WordsFault;
use clap::error::ErrorKind;
use clap::{Arg, Command};
use std::alloc::{AllocError, Global};
use std::marker::Model;

/// The names of the options.
const OPTIONS: [&str; 7] = [
    "quanta", "workers", "number", "every", "looks", "isles", "epochs",
];

/// The text of each argument that the words have.
#[derive(Drop)]
pub(crate) struct Split<'a> {
    pub(crate) action: Option<&'a str>,
    pub(crate) quanta: Option<&'a str>,
    pub(crate) workers: Option<&'a str>,
    pub(crate) number: Option<&'a str>,
    pub(crate) every: Option<&'a str>,
    pub(crate) looks: Option<&'a str>,
    pub(crate) isles: Option<&'a str>,
    pub(crate) epochs: Option<&'a str>,
}

impl<'a> Model for Split<'a> {
    ghost use Rattle.std.specs.Option.{option_copied};
    ghost use Rattle.soup_words.specs.Split.{SplitFields};

    ghost Value = { SplitFields };

    ghost view = { λ s. record {
      action = option_copied s.action;
      quanta = option_copied s.quanta;
      workers = option_copied s.workers;
      number = option_copied s.number;
      every = option_copied s.every;
      looks = option_copied s.looks;
      isles = option_copied s.isles;
      epochs = option_copied s.epochs;
    } };
}

/// Splits the words: one action, and options with a value each, in any order.
pub(crate) fn split_words<'a>(alloc: Global, words: &'a [String]) -> Result<Split<'a>, WordsFault>
    ensures taken { IfOk result (λ s. fault_of tierra_app (map string_bytes words.entry.now) ≡ []) }
    ensures split { IfOk result (λ s. s ≡ split_of (map string_bytes words.entry.now)) }
    ensures refused { IsErrOf result WordsFault.Refused → fault_of tierra_app (map string_bytes words.entry.now) ≢ [] }
{
    let command = match command(alloc) {
        Ok(command) => command,
        Err(_) => return Err(WordsFault::OutOfMemory),
    };
    let matches = match command.try_get_matches_from(words) {
        Ok(matches) => matches,
        Err(e) => {
            if e.kind() == ErrorKind::OutOfMemory {
                return Err(WordsFault::OutOfMemory);
            }
            return Err(WordsFault::Refused);
        }
    };
    Ok(Split {
        action: matches.get_str("action"),
        quanta: matches.get_str("quanta"),
        workers: matches.get_str("workers"),
        number: matches.get_str("number"),
        every: matches.get_str("every"),
        looks: matches.get_str("looks"),
        isles: matches.get_str("isles"),
        epochs: matches.get_str("epochs"),
    })
}

fn command<'a>(alloc: Global) -> Result<Command<'a>, AllocError>
    ensures { IfOk result (λ c. app_of c ≡ tierra_app) }
{
    let command = start(alloc).arg(Arg::new(alloc, "action"))?;
    with_options(alloc, command, &OPTIONS)
}

fn start<'a>(alloc: Global) -> Command<'a>
    ensures { app_of result ≡ start_app }
{
    Command::new(alloc, "tierra")
        .no_binary_name(true)
        .disable_help_flag(true)
}

/// Adds an option of each name.
fn with_options<'a>(
    alloc: Global,
    command: Command<'a>,
    names: &[&'a str],
) -> Result<Command<'a>, AllocError>
    ensures { IfOk result (λ c. app_of c ≡ with_options (app_of command.entry) (map (λ n. n.now) names.entry.now)) }
{
    let mut command = command;
    for name in names {
        command = command.arg(option(alloc, name))?;
    }
    Ok(command)
}

fn option<'a>(alloc: Global, name: &'a str) -> Arg<'a>
    ensures rule { rule_of result ≡ option_rule name.entry.now }
    ensures own { result.global ≡ false }
{
    Arg::new(alloc, name).long(name)
}
