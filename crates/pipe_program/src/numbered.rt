//! What the lines of a text say, with their numbers.

ghost use Rattle.std.specs.Prelude.{◌<◌, length, map, IfOk, IfErr};
ghost use Rattle.std.specs.Str.Lines.{lines};
ghost use Rattle.pipe_checks.specs.Places.{spot};
ghost use Rattle.pipe_program.specs.Reading.{AreNumbered, IsOfLine, Notes, Stops, StopsLine, numbered};

use crate::reading::read_one;
use crate::refusal::ParseStop;
use pipe_checks::Place;
use pipe_steps::Line;
use pipe_text::first_line;
use std::alloc::Global;

/// What a line says, with its number from 1.
#[derive(Debug, Drop)]
pub struct Numbered {
    pub at: u32,
    pub said: Line,
}

// Notes what a line with this number says, and answers the place after it.
fn note_line(
    alloc: Global,
    place: Place,
    all: &mut Vec<Numbered>,
    at: u32,
    line: &[u8],
) -> Result<Place, ParseStop>
    ensures noted { IfOk result (λ q. Notes (spot place) line.now at (map numbered all.old.items) (spot q) (map numbered all.new.items)) }
    ensures stopped { IfErr result (λ e. StopsLine (spot place) line.now at e) }
{
    match read_one(alloc, &place, at, line) {
        Ok(None) => Ok(place),
        Ok(Some((said, next))) => {
            all.push(Numbered { at, said })?;
            Ok(next)
        }
        Err(stop) => Err(stop),
    }
}

/// What the lines of a text say that are neither blank nor comments, in order, each with its number; or the refusal of
/// a line, as in `parse`. A text that ends too soon isn't refused here. Linear in the text for each column.
pub fn numbered_lines(alloc: Global, text: &[u8]) -> Result<Vec<Numbered>, ParseStop>
    requires { length (lines text.now) < 4294967295 }
    ensures said { IfOk result (λ v. AreNumbered text.now (map numbered v.items)) }
    ensures stopped { IfErr result (λ e. Stops text.now e) }
    ensures of_line { IfErr result IsOfLine }
{
    let mut place = Place::start(alloc);
    let mut all = Vec::new(alloc);
    let mut at = 1u32;
    let mut rest = text;
    while let Some((line, behind)) = first_line(rest) {
        place = note_line(alloc, place, &mut all, at, line)?;
        at += 1;
        rest = behind;
    }
    Ok(all)
}
