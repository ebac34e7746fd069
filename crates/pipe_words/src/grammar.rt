//! What clap reads: any number of positionals, two options with a value and a flag.
ghost use Rattle.std.specs.Prelude.{◌≡◌, IfOk, false, codes};
ghost use Rattle.clap.specs.Words.{app_of, rule_of};
ghost use Rattle.pipe_words.specs.App.{flag_rule, parcoll_app, plain_app, value_rule, words_rule};

use clap::{Arg, ArgAction, Command};
use std::alloc::{AllocError, Global};

/// The positionals, the mode first.
pub const WORDS: &str = "word";

pub const WORKERS: &str = "workers";

pub const LEVEL: &str = "level";

pub const AUDIT: &str = "audit";

fn words<'a>(alloc: Global) -> Arg<'a>
    ensures rule { rule_of result ≡ words_rule }
    ensures local { result.global ≡ false }
{
    Arg::new(alloc, WORDS).action(ArgAction::Append)
}

fn value<'a>(alloc: Global, id: &'a str) -> Arg<'a>
    ensures rule { rule_of result ≡ value_rule id.entry.now }
    ensures local { result.global ≡ false }
{
    Arg::new(alloc, id).long(id).action(ArgAction::Set)
}

fn flag<'a>(alloc: Global, id: &'a str) -> Arg<'a>
    ensures rule { rule_of result ≡ flag_rule id.entry.now }
    ensures local { result.global ≡ false }
{
    Arg::new(alloc, id).long(id).action(ArgAction::SetTrue)
}

fn bare<'a>(alloc: Global) -> Command<'a>
    ensures { app_of result ≡ plain_app }
{
    Command::new(alloc, "parcoll")
        .no_binary_name(true)
        .disable_help_flag(true)
        .disable_version_flag(true)
}

/// The command, with no help and no version.
pub fn grammar<'a>(alloc: Global) -> Result<Command<'a>, AllocError>
    ensures { IfOk result (λ c. app_of c ≡ parcoll_app) }
{
    let with_words = bare(alloc).arg(words(alloc))?;
    let with_workers = with_words.arg(value(alloc, WORKERS))?;
    let with_level = with_workers.arg(value(alloc, LEVEL))?;
    with_level.arg(flag(alloc, AUDIT))
}
