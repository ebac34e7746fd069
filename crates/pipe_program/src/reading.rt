//! From the bytes of a text to its pipeline.

ghost use Rattle.std.specs.Prelude.{◌≡◌, ◌<◌, [], length, IfOk, IfErr, MatchOption};
ghost use Rattle.std.specs.Str.Lines.{lines};
ghost use Rattle.pipe_text.specs.Line.{AreUtf8, ReadsAs};
ghost use Rattle.pipe_text.specs.Token.{views};
ghost use Rattle.pipe_tokens.specs.Meaning.{all_meant};
ghost use Rattle.pipe_steps.specs.Said.{view};
ghost use Rattle.pipe_checks.specs.Places.{Accepts, IsRefused, next, rank, spot};
ghost use Rattle.pipe_program.specs.declared.refusal.ParseStop.TheVariants.{Refused};
ghost use Rattle.pipe_program.specs.Plans.{plan};
ghost use Rattle.pipe_program.specs.Parts.{parts};
ghost use Rattle.pipe_program.specs.Reading.{Reads, Says, Stops, StopsLine, Takes, early_as, late_as};

use crate::draft::Draft;
use crate::pipeline::Pipeline;
use crate::refusal::{ParseStop, Refusal};
use pipe_checks::{Fault, LineStop, Place, judge_line};
use pipe_steps::Line;
use pipe_text::{Lexeme, LineFault, first_line, read_line};
use pipe_tokens::meanings;
use std::alloc::Global;

fn refused(line: u32, kind: u8) -> ParseStop
    ensures { result ≡ Refused (record { line = line; kind = kind }) }
{
    ParseStop::Refused(Refusal { line, kind })
}

// The number of a fault's kind.
fn number(fault: Fault) -> u8
    ensures { result ≡ rank fault }
{
    match fault {
        Fault::Step => 4,
        Fault::Shape => 5,
        Fault::Number => 6,
        Fault::Depth => 7,
        Fault::Name => 8,
        Fault::Type => 9,
        Fault::Zero => 10,
        Fault::Columns => 11,
        Fault::Steps => 12,
    }
}

// What tokens say in their place.
fn judge_tokens(
    alloc: Global,
    place: &Place,
    lexemes: &[Lexeme<'_>],
) -> Result<(Line, Place), LineStop>
    requires { AreUtf8 (views lexemes.now) }
    ensures accepted { IfOk result (λ x. Accepts (spot place.now) (view x.0) (all_meant (spot place.now).version (views lexemes.now))) }
    ensures next { IfOk result (λ x. spot x.1 ≡ next (spot place.now) (view x.0)) }
    ensures refused { IfErr result (λ e. IsRefused (spot place.now) e (all_meant (spot place.now).version (views lexemes.now))) }
{
    match meanings(alloc, place.version(), lexemes) {
        Ok(tokens) => judge_line(alloc, place, &tokens),
        Err(_) => Err(LineStop::Memory),
    }
}

// Why a line with this number has no tokens.
fn early_stop(at: u32, fault: LineFault) -> ParseStop
    ensures { result ≡ early_as at fault }
{
    match fault {
        LineFault::Utf8 => refused(at, 1),
        LineFault::Token => refused(at, 2),
        LineFault::Long => refused(at, 3),
        LineFault::Memory => ParseStop::Memory,
    }
}

// Why a line with this number was not taken.
fn late_stop(at: u32, stop: LineStop) -> ParseStop
    ensures { result ≡ late_as at stop }
{
    match stop {
        LineStop::Fault(fault) => refused(at, number(fault)),
        LineStop::Memory => ParseStop::Memory,
    }
}

// What a line of these tokens says in its place, and the place after it.
fn read_tokens(
    alloc: Global,
    place: &Place,
    at: u32,
    line: &[u8],
    lexemes: &[Lexeme<'_>],
) -> Result<(Line, Place), ParseStop>
    requires utf8 { AreUtf8 (views lexemes.now) }
    requires full { 0 < length lexemes.now }
    requires reads { ReadsAs line.now (views lexemes.now) }
    ensures said { IfOk result (λ x. Says (spot place.now) line.now (view x.0)) }
    ensures next { IfOk result (λ x. spot x.1 ≡ next (spot place.now) (view x.0)) }
    ensures stopped { IfErr result (λ e. StopsLine (spot place.now) line.now at e) }
{
    match judge_tokens(alloc, place, lexemes) {
        Ok(both) => Ok(both),
        Err(stop) => Err(late_stop(at, stop)),
    }
}

// What a line with this number says in its place, and the place after it; nothing on a blank line or a comment.
pub(crate) fn read_one(
    alloc: Global,
    place: &Place,
    at: u32,
    line: &[u8],
) -> Result<Option<(Line, Place)>, ParseStop>
    ensures said { IfOk result (λ o. MatchOption o (ReadsAs line.now []) (λ x. Says (spot place.now) line.now (view x.0) × (spot x.1 ≡ next (spot place.now) (view x.0)))) }
    ensures stopped { IfErr result (λ e. StopsLine (spot place.now) line.now at e) }
{
    let lexemes = match read_line(alloc, line) {
        Ok(lexemes) => lexemes,
        Err(fault) => return Err(early_stop(at, fault)),
    };
    if lexemes.is_empty() {
        return Ok(None);
    }
    match read_tokens(alloc, place, at, line, &lexemes) {
        Ok(both) => Ok(Some(both)),
        Err(stop) => Err(stop),
    }
}

// Takes a line with this number: what it says is put into the draft, and the place after it is answered.
fn take_line(
    alloc: Global,
    place: Place,
    draft: &mut Draft,
    at: u32,
    line: &[u8],
) -> Result<Place, ParseStop>
    ensures took { IfOk result (λ q. Takes (spot place) line.now (parts draft.old) (spot q) (parts draft.new)) }
    ensures stopped { IfErr result (λ e. StopsLine (spot place) line.now at e) }
{
    match read_one(alloc, &place, at, line) {
        Ok(None) => Ok(place),
        Ok(Some((said, next))) => {
            draft.add(said)?;
            Ok(next)
        }
        Err(stop) => Err(stop),
    }
}

/// The pipeline that a text reads as, or the text's refusal: the least line that has one, and there its least kind.
/// A text is refused behind its last line where no last step was there. Linear in the text for each column.
pub fn parse(alloc: Global, text: &[u8]) -> Result<Pipeline, ParseStop>
    requires { length (lines text.now) < 4294967295 }
    ensures read { IfOk result (λ p. Reads text.now (plan p)) }
    ensures stopped { IfErr result (λ e. Stops text.now e) }
{
    let mut place = Place::start(alloc);
    let mut draft = Draft::new(alloc);
    let mut at = 1u32;
    let mut rest = text;
    while let Some((line, behind)) = first_line(rest) {
        place = take_line(alloc, place, &mut draft, at, line)?;
        at += 1;
        rest = behind;
    }
    match draft.finish() {
        Some(pipeline) => Ok(pipeline),
        None => Err(refused(at, 13)),
    }
}
