//! The words, read by the grammar and then by the shape of their positionals.
ghost use Rattle.std.specs.Prelude.{◌≡◌, Bool, IfOk, Some, codes, map, option_map, string_bytes};
ghost use Rattle.clap.specs.Words.{found_of, one_of, rows_of};
ghost use Rattle.pipe_words.specs.Commands.{asked, check_of, command_of, run_of, run_with};
ghost use Rattle.pipe_words.specs.Rows.{asked_by_rows, flag_text};
ghost use Rattle.pipe_words.specs.Views.{view};

use crate::command::Command;
use crate::grammar::{AUDIT, LEVEL, WORDS, WORKERS, grammar};
use crate::number::number_or_else;
use clap::ArgMatches;
use clap::error::ErrorKind;
use par_laws::Memory;
use std::alloc::Global;

const WORKERS_IF_NONE: u32 = 4;

fn run_over<'w>(
    pipe: &'w str,
    data: Option<&'w str>,
    workers: Option<&str>,
    level: Option<&str>,
    audit: bool,
) -> Option<Command<'w>>
    ensures { option_map view result ≡ run_with pipe.entry.now (option_map (λ t. t.now) «data».entry) (option_map (λ t. t.now) workers.entry) (option_map (λ t. t.now) level.entry) audit }
{
    let workers = number_or_else(WORKERS_IF_NONE, workers)?;
    let level = number_or_else(workers, level)?;
    Some(Command::Run {
        pipe,
        data,
        workers,
        level,
        audit,
    })
}

fn run<'w>(
    names: &[&'w str],
    workers: Option<&str>,
    level: Option<&str>,
    audit: bool,
) -> Option<Command<'w>>
    ensures { option_map view result ≡ run_of (map (λ t. t.now) names.entry.now) (option_map (λ t. t.now) workers.entry) (option_map (λ t. t.now) level.entry) audit }
{
    match names {
        [pipe] => run_over(pipe, None, workers, level, audit),
        [pipe, data] => run_over(pipe, Some(*data), workers, level, audit),
        _ => None,
    }
}

fn check<'w>(
    names: &[&'w str],
    workers: Option<&str>,
    level: Option<&str>,
    audit: bool,
) -> Option<Command<'w>>
    ensures { option_map view result ≡ check_of (map (λ t. t.now) names.entry.now) (option_map (λ t. t.now) workers.entry) (option_map (λ t. t.now) level.entry) audit }
{
    match (names, workers, level, audit) {
        ([pipe], None, None, false) => Some(Command::Check { pipe }),
        _ => None,
    }
}

// What the positionals ask for, with these options.
fn command<'w>(
    words: &[&'w str],
    workers: Option<&str>,
    level: Option<&str>,
    audit: bool,
) -> Option<Command<'w>>
    ensures { option_map view result ≡ asked (map (λ t. t.now) words.entry.now) (option_map (λ t. t.now) workers.entry) (option_map (λ t. t.now) level.entry) audit }
{
    let (mode, names) = words.split_first()?;
    if *mode == "run" {
        run(names, workers, level, audit)
    } else if *mode == "check" {
        check(names, workers, level, audit)
    } else {
        None
    }
}

// What the matches ask for, where their flag says `b`.
fn command_of_matches<'w>(matches: &ArgMatches<'w>) -> Option<Command<'w>>
    ensures { (b : Bool) → one_of (codes "audit") (rows_of (found_of matches.now)) ≡ Some (flag_text b) → option_map view result ≡ asked_by_rows (rows_of (found_of matches.now)) b }
{
    command(
        matches.get_strs(WORDS).unwrap_or(&[]),
        matches.get_str(WORKERS),
        matches.get_str(LEVEL),
        matches.get_flag(AUDIT),
    )
}

/// The command that the words ask for, or None where they are not lawful.
///
/// The words stand after the program's name. Errors: `Memory`, and nothing else.
pub fn read_words<'w>(alloc: Global, words: &'w [String]) -> Result<Option<Command<'w>>, Memory>
    ensures { IfOk result (λ read. option_map view read ≡ command_of (map string_bytes words.entry.now)) }
{
    match grammar(alloc)?.try_get_matches_from(words) {
        Ok(matches) => Ok(command_of_matches(&matches)),
        Err(error) => match error.kind() {
            ErrorKind::OutOfMemory => Err(Memory),
            _ => Ok(None),
        },
    }
}
