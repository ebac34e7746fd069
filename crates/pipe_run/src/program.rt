//! The call that the program makes.
ghost use Rattle.std.specs.Prelude.{◌≡◌, ◌≢◌, ◌⊎◌, List, ℕ, Result, Some, None, map, string_bytes};
ghost use Rattle.par_edge.specs.Count.{Rose};
ghost use Rattle.par_edge.specs.Files.{IfTold};
ghost use Rattle.pipe_words.specs.Commands.{command_of};
ghost use Rattle.pipe_words.specs.Views.{view};
ghost use Rattle.pipe_run.specs.Answers.{IsRunnable, IsRuling};
ghost use Rattle.pipe_run.specs.Endings.{Ends, IsExact, Tells};
ghost use Rattle.pipe_run.specs.declared.outcome.Outcome.{Outcome};
ghost use Rattle.pipe_run.specs.declared.outcome.Outcome.TheVariants as is;

use crate::lines::say;
use crate::outcome::{Outcome, status};
use crate::run::{check_alone, run_main};
use par_edge::{Gate, Shelf, Sink};
use par_pool::Plan;
use pipe_program::text_laws;
use pipe_words::{Command, read_words, word_laws};
use std::alloc::Global;
use std::sync::Wait;
use std::thread::Threads;

// Does what is asked for.
fn run_command<H: Shelf, O: Sink, G: Gate + Sync, X: Threads + Wait + Sync>(
    rt: &X,
    alloc: Global,
    command: Command<'_>,
    shelf: &mut H,
    out: &mut O,
    gate: &G,
) -> Outcome
    requires { IsRunnable (view command) }
    ensures ends { Ends (IsRuling (Some (view command.entry))) (H.state shelf.old) (H.state shelf.new) (O.state out.old) (O.state out.new) result }
    ensures lawful { result ≢ is.Usage }
{
    match command {
        Command::Run {
            pipe,
            data,
            workers,
            level,
            audit,
        } => {
            let plan = Plan {
                workers,
                level,
                gate,
            };
            run_main(rt, alloc, pipe, data, audit, shelf, out, &plan)
        }
        Command::Check { pipe } => check_alone(alloc, pipe, shelf, out),
    }
}

// Does what the words ask for.
fn run_words<H: Shelf, O: Sink, G: Gate + Sync, X: Threads + Wait + Sync>(
    rt: &X,
    alloc: Global,
    words: &[String],
    shelf: &mut H,
    out: &mut O,
    gate: &G,
) -> Outcome
    ensures ends { Ends (IsRuling (command_of (map string_bytes words.now))) (H.state shelf.old) (H.state shelf.new) (O.state out.old) (O.state out.new) result }
    ensures usage { result ≡ is.Usage → command_of (map string_bytes words.now) ≡ None }
    ensures refused { command_of (map string_bytes words.now) ≡ None → (result ≡ is.Usage) ⊎ (result ≡ is.Memory) }
{
    word_laws();
    match read_words(alloc, words) {
        Ok(Some(command)) => run_command(rt, alloc, command, shelf, out, gate),
        Ok(None) => Outcome::Usage,
        Err(_) => Outcome::Memory,
    }
}

/// Runs the program on the words after its name, and answers its status.
///
/// A run by more workers than one starts threads, and has the answer of one worker, but that `find` may name any row that
/// passes.
///
/// Reads from `shelf`, writes the answer to `out`, and says on `err` why there is none. Status 0 comes with the whole
/// text of the answer; 2 where the words are not lawful; 3 where the pipeline is refused; 4 where the data is; 5 where a
/// read failed; 6 where a write to `out` failed, after a prefix of the text; 7 past a limit; 8 for want of memory; 9
/// where a value faults. A fault of `err` is passed over.
pub fn parcoll<H: Shelf, O: Sink, E: Sink, G: Gate + Sync, X: Threads + Wait + Sync>(
    rt: &X,
    alloc: Global,
    words: &[String],
    shelf: &mut H,
    out: &mut O,
    err: &mut E,
    gate: &G,
) -> u8
    // Which outcome the status stands for, what was written by then, and what was said.
    ensures tells { Tells (IsRuling (command_of (map string_bytes words.now))) (H.state shelf.old) (H.state shelf.new) (O.state out.old) (O.state out.new) (E.state err.old) (E.state err.new) result }

    // Where the files are told, the status is that of any ruling, unless a fault or want of memory came first.
    ensures exact { IfTold (H.state shelf.old).files (λ files. (r : Result (List ℕ) Outcome) → IsRuling (command_of (map string_bytes words.now)) files r → IsExact (Rose (H.state shelf.old).faults (H.state shelf.new).faults) (Rose (O.state out.old).faults (O.state out.new).faults) r result) }

    // Over any shelf.
    ensures usage { result ≡ 2 → command_of (map string_bytes words.now) ≡ None }
    ensures refused { command_of (map string_bytes words.now) ≡ None → (result ≡ 2) ⊎ (result ≡ 8) }
{
    text_laws();
    let outcome = run_words(rt, alloc, words, shelf, out, gate);
    say(err, &outcome);
    status(&outcome)
}
