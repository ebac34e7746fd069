//! The line that is said of an outcome.
ghost use Rattle.std.specs.Prelude.{◌≡◌, map, MatchResult};
ghost use Rattle.std.specs.List.{concat};
ghost use Rattle.par_edge.specs.Sinks.{Appends, AppendsPart};
ghost use Rattle.pipe_run.specs.Outcomes.{counted_words, data_words, fault_words, kind_line, line_of, pipeline_words, word_of};
ghost use Rattle.pipe_run.specs.declared.outcome.Outcome.TheVariants as is;
ghost use Rattle.pipe_run.specs.Endings.{Said};

use crate::{Counted, Outcome};
use itoa::Buffer;
use par_edge::{Failed, Sink, write_whole};

// The word of a refusal's kind.
fn pipeline_word(kind: u8) -> &'static [u8]
    ensures { result.now ≡ word_of pipeline_words kind }
{
    match kind {
        0 => b"unbuilt",
        1 => b"utf8",
        2 => b"token",
        3 => b"long",
        4 => b"step",
        5 => b"shape",
        6 => b"number",
        7 => b"depth",
        8 => b"name",
        9 => b"type",
        10 => b"zero",
        11 => b"columns",
        12 => b"steps",
        13 => b"end",
        14 => b"nodata",
        _ => b"",
    }
}

// The word of a flaw of a record.
fn data_word(kind: u8) -> &'static [u8]
    ensures { result.now ≡ word_of data_words kind }
{
    match kind {
        1 => b"header",
        2 => b"fields",
        3 => b"utf8",
        4 => b"number",
        _ => b"",
    }
}

// The word of a fault of a value.
fn fault_word(kind: u8) -> &'static [u8]
    ensures { result.now ≡ word_of fault_words kind }
{
    match kind {
        1 => b"zero",
        2 => b"number",
        _ => b"",
    }
}

// What a limit counts.
fn counted(what: Counted) -> &'static [u8]
    ensures { result.now ≡ counted_words what }
{
    match what {
        Counted::PipelineBytes => b"pipeline bytes",
        Counted::DataBytes => b"data bytes",
        Counted::Records => b"records",
        Counted::RangeItems => b"range items",
        Counted::FlatMapItems => b"flatMap items",
        Counted::ScanItems => b"scan items",
    }
}

// Writes the pieces one after the other, and stops at the first fault.
fn write_pieces<E: Sink>(err: &mut E, pieces: &[&[u8]]) -> Result<(), Failed>
    ensures { MatchResult result (λ _. Appends (E.state err.old) (E.state err.new) (concat (map (λ x. x.now) pieces.now))) (λ _. AppendsPart (E.state err.old) (E.state err.new) (concat (map (λ x. x.now) pieces.now))) }
{
    for piece in pieces {
        write_whole(err, piece)?;
    }
    Ok(())
}

// Writes a line that ends with a number and the word of a kind.
fn write_kind<E: Sink>(err: &mut E, before: &[u8], number: u32, word: &[u8]) -> Result<(), Failed>
    ensures { MatchResult result (λ _. Appends (E.state err.old) (E.state err.new) (kind_line before.now number word.now)) (λ _. AppendsPart (E.state err.old) (E.state err.new) (kind_line before.now number word.now)) }
{
    let mut digits = Buffer::new();
    let pieces: [&[u8]; 5] = [before, digits.format(number).as_bytes(), b": ", word, b"\n"];
    write_pieces(err, &pieces)
}

// Writes the line of a limit.
fn write_limit<E: Sink>(err: &mut E, what: Counted, count: u64, most: u64) -> Result<(), Failed>
    ensures { MatchResult result (λ _. Appends (E.state err.old) (E.state err.new) (line_of (is.Limit what count most))) (λ _. AppendsPart (E.state err.old) (E.state err.new) (line_of (is.Limit what count most))) }
{
    let (mut counted_digits, mut most_digits) = (Buffer::new(), Buffer::new());
    let pieces: [&[u8]; 7] = [
        b"parcoll: limit: ",
        counted(what),
        b" ",
        counted_digits.format(count).as_bytes(),
        b" over ",
        most_digits.format(most).as_bytes(),
        b"\n",
    ];
    write_pieces(err, &pieces)
}

// Writes the line of a fault.
fn write_fault<E: Sink>(err: &mut E, stage: u32, row: u32, kind: u8) -> Result<(), Failed>
    ensures { MatchResult result (λ _. Appends (E.state err.old) (E.state err.new) (line_of (is.Fault stage row kind))) (λ _. AppendsPart (E.state err.old) (E.state err.new) (line_of (is.Fault stage row kind))) }
{
    let (mut stage_digits, mut row_digits) = (Buffer::new(), Buffer::new());
    let pieces: [&[u8]; 7] = [
        b"parcoll: stage ",
        stage_digits.format(stage).as_bytes(),
        b" row ",
        row_digits.format(row).as_bytes(),
        b": ",
        fault_word(kind),
        b"\n",
    ];
    write_pieces(err, &pieces)
}

// Writes the line of an outcome, and stops at the first fault.
fn write_line<E: Sink>(err: &mut E, outcome: &Outcome) -> Result<(), Failed>
    ensures { MatchResult result (λ _. Appends (E.state err.old) (E.state err.new) (line_of outcome.now)) (λ _. AppendsPart (E.state err.old) (E.state err.new) (line_of outcome.now)) }
{
    match outcome {
        Outcome::Done => Ok(()),
        Outcome::Usage => write_whole(
            err,
            b"usage: parcoll run PIPE [DATA] [--workers N] [--level N] [--audit] | check PIPE | gen SEED N\n",
        ),
        Outcome::BadPipeline { line, kind } => write_kind(
            err,
            b"parcoll: pipeline line ",
            *line,
            pipeline_word(*kind),
        ),
        Outcome::BadData { at, kind } => {
            write_kind(err, b"parcoll: data record ", *at, data_word(*kind))
        }
        Outcome::ReadFault => write_whole(err, b"parcoll: read failed\n"),
        Outcome::WriteFault => write_whole(err, b"parcoll: write failed\n"),
        Outcome::Limit { what, count, most } => write_limit(err, *what, *count, *most),
        Outcome::Memory => write_whole(err, b"parcoll: out of memory\n"),
        Outcome::Fault { stage, row, kind } => write_fault(err, *stage, *row, *kind),
    }
}

/// Writes the line of an outcome. A fault is passed over: then a prefix of the line is written. Takes no memory.
pub fn say<E: Sink>(err: &mut E, outcome: &Outcome)
    ensures { Said (line_of outcome.now) (E.state err.old) (E.state err.new) }
{
    let _ = write_line(err, outcome);
}
