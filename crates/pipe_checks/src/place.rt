//! A line in its place: what it says there, or its least fault.

ghost use Rattle.std.specs.Prelude.{◌≡◌, IfOk, IfErr, is_some, map, false, true, None, Some, Ok, Err, if◌then◌else◌};
ghost use Rattle.pipe_expr.specs.Reading.{Gives};
ghost use Rattle.pipe_steps.specs.Said.{Said, view};
ghost use Rattle.pipe_checks.specs.declared.fault.Fault.TheVariants.{Steps as TooMany};
ghost use Rattle.pipe_checks.specs.Columns.{columns_after as list_after};
ghost use Rattle.pipe_checks.specs.Places.{Accepts, IsRefused, fault_of, faulty, has_one_key, is_last, is_source, is_step, moves, next, said_in, split_fits, split_known, spot, stands, start, stuck, suits, misnamed, mistyped, too_deep, too_many, too_wide, version_after, word_stands, zero, Wrong, ruled, unread, verdict, StopsAs};

use crate::columns::{are_distinct, columns_after};
use crate::fault::{Fault, LineStop};
use crate::kinds::{ByInts, DividesWell, KindsFit, NamesKnown, Shallow, has, holds_texts};
use crate::standing::Place;
use crate::uses::every;
use par_laws::{Keep, Memory};
use par_rows::Column;
use pipe_expr::{ParseError, Reserved, Token, Verb};
use pipe_steps::{Line, Source, Step, line_of};
use std::alloc::Global;

fn is_source(line: &Line) -> bool
    ensures { result ≡ is_source (view line.now) }
{
    match line {
        Line::Source(_) => true,
        _ => false,
    }
}

fn is_last(line: &Line) -> bool
    ensures { result ≡ is_last (view line.now) }
{
    match line {
        Line::Last(_) => true,
        _ => false,
    }
}

fn is_step(line: &Line) -> bool
    ensures { result ≡ is_step (view line.now) }
{
    match line {
        Line::Version | Line::Par(_) => false,
        _ => true,
    }
}

fn has_one_key(line: &Line) -> bool
    ensures { result ≡ has_one_key (view line.now) }
{
    match line {
        Line::Step(Step::GroupBy { keys, aggs: _ }) => match keys.as_slice() {
            [_] => true,
            _ => false,
        },
        _ => true,
    }
}

// What version 1 asks of a line beyond its form.
#[tactic(auto, unfolding(crate::specs::Places::suits))]
fn suits(version: u8, line: &Line) -> bool
    ensures { result ≡ suits version (view line.now) }
{
    version != 1 || (every(&ByInts, line) && has_one_key(line))
}

fn split_known(columns: &[Column], line: &Line) -> bool
    ensures { result ≡ split_known columns.now (view line.now) }
{
    match line {
        Line::Step(Step::FlatMap { column, sep: _ }) => has(columns, column),
        _ => true,
    }
}

fn split_fits(columns: &[Column], line: &Line) -> bool
    ensures { result ≡ split_fits columns.now (view line.now) }
{
    match line {
        Line::Step(Step::FlatMap { column, sep: _ }) => holds_texts(columns, column),
        _ => true,
    }
}

fn moves(line: &Line) -> bool
    ensures { result ≡ moves (view line.now) }
{
    match line {
        Line::Source(Source::Range { a: _, b: _, c }) => *c != 0,
        Line::Step(
            Step::ZipRange {
                a: _,
                b: _,
                c,
                name: _,
            },
        ) => *c != 0,
        Line::Step(Step::FlatMap { column: _, sep }) => !sep.as_str().is_empty(),
        _ => true,
    }
}

#[tactic(auto, unfolding(crate::specs::Places::too_deep))]
fn too_deep(line: &Line) -> bool
    ensures { result ≡ too_deep (view line.now) }
{
    !every(&Shallow, line)
}

// Whether a name is wrong, where these columns come after the line.
#[tactic(auto, unfolding(crate::specs::Places::misnamed))]
fn misnamed(columns: &[Column], line: &Line, after: &[Column]) -> bool
    requires { after.now ≡ list_after columns.now (view line.now) }
    ensures { result ≡ misnamed columns.now (view line.now) }
{
    !(every(&NamesKnown { columns }, line) && split_known(columns, line) && are_distinct(after))
}

#[tactic(auto, unfolding(crate::specs::Places::mistyped))]
fn mistyped(columns: &[Column], line: &Line) -> bool
    ensures { result ≡ mistyped columns.now (view line.now) }
{
    !(every(&KindsFit { columns }, line) && split_fits(columns, line))
}

#[tactic(auto, unfolding(crate::specs::Places::stuck))]
fn stuck(line: &Line) -> bool
    ensures { result ≡ stuck (view line.now) }
{
    !(every(&DividesWell, line) && moves(line))
}

// Whether there are too many columns after the line, which are these.
#[tactic(auto, unfolding(crate::specs::Places::too_wide))]
fn too_wide(columns: &[Column], line: &Line, after: &[Column]) -> bool
    requires { after.now ≡ list_after columns.now (view line.now) }
    ensures { result ≡ too_wide columns.now (view line.now) }
{
    after.len() > 64
}

#[tactic(auto, unfolding(crate::specs::Places::too_many))]
fn too_many(steps: u8, line: &Line) -> bool
    ensures { result ≡ too_many steps (view line.now) }
{
    is_step(line) && steps >= 64
}

// The least of the later faults of a line, with the columns after it.
fn fault_of(place: &Place, line: &Line, after: &[Column]) -> Option<Fault>
    requires { after.now ≡ list_after (spot place.now).columns (view line.now) }
    ensures { result ≡ fault_of (spot place.now) (view line.now) }
{
    let columns = place.columns.as_slice();
    if too_deep(line) {
        return Some(Fault::Depth);
    }
    if misnamed(columns, line, after) {
        return Some(Fault::Name);
    }
    if mistyped(columns, line) {
        return Some(Fault::Type);
    }
    if stuck(line) {
        return Some(Fault::Zero);
    }
    if too_wide(columns, line, after) {
        return Some(Fault::Columns);
    }
    if too_many(place.steps, line) {
        return Some(Fault::Steps);
    }
    None
}

// A line, if it is to be kept.
fn kept(line: Line, keep: bool) -> Option<Line>
    ensures { result ≡ (if keep then Some line else None) }
{
    if keep { Some(line) } else { None }
}

// What the tokens of a line say in a version.
fn line_in(alloc: Global, version: u8, tokens: &[Token]) -> Result<Line, ParseError>
    ensures { Gives view result (said_in version tokens.now) }
{
    match line_of(alloc, tokens) {
        Ok(line) => {
            let keep = suits(version, &line);
            match kept(line, keep) {
                Some(line) => Ok(line),
                None => Err(ParseError::Shape),
            }
        }
        Err(ParseError::Shape) => Err(ParseError::Shape),
        Err(ParseError::Memory) => Err(ParseError::Memory),
    }
}

// That a line was read; the line itself isn't wanted.
fn was_read(_line: Line) -> bool
    ensures { result ≡ true }
{
    true
}

// Whether the tokens of a line say anything in a version.
fn reads(alloc: Global, version: u8, tokens: &[Token]) -> Result<bool, Memory>
    ensures { IfOk result (λ b. b ≡ is_some (said_in version tokens.now)) }
{
    match line_in(alloc, version, tokens) {
        Ok(line) => Ok(was_read(line)),
        Err(ParseError::Shape) => Ok(false),
        Err(ParseError::Memory) => Err(Memory),
    }
}

fn zero(alloc: Global, token: &Token) -> Result<Token, Memory>
    ensures { IfOk result (λ t. t ≡ zero token.now) }
{
    match token {
        Token::Digits(_) => Ok(Token::Digits(0)),
        Token::Kept(word) => Ok(Token::Kept(*word)),
        Token::Word(verb, name) => Ok(Token::Word(*verb, name.copy(alloc)?)),
        Token::Quoted(name) => Ok(Token::Quoted(name.copy(alloc)?)),
        Token::Quote(text) => Ok(Token::Quote(text.copy(alloc)?)),
        Token::Sign(symbol) => Ok(Token::Sign(*symbol)),
    }
}

// Tokens with each number taken as 0.
fn zeroed(alloc: Global, tokens: &[Token]) -> Result<Vec<Token>, Memory>
    ensures { IfOk result (λ v. v.items ≡ map zero tokens.now) }
{
    let mut all = Vec::with_capacity(alloc, tokens.len())?;
    for token in tokens {
        all.push(zero(alloc, token)?)?;
    }
    Ok(all)
}

// The fault of a line that doesn't read: it reads with other numbers, or never.
fn unread(alloc: Global, version: u8, tokens: &[Token]) -> Result<Fault, Memory>
    ensures { IfOk result (λ k. unread (is_some (said_in version (map zero tokens.now))) ≡ Wrong k) }
{
    let plain = zeroed(alloc, tokens)?;
    if reads(alloc, version, &plain)? {
        Ok(Fault::Number)
    } else {
        Ok(Fault::Shape)
    }
}

impl Place {
    /// The place before the first line: version 1, and no columns. Takes no memory.
    pub fn start(alloc: Global) -> Place
        ensures { spot result ≡ start }
    {
        Place {
            version: 1,
            opened: false,
            begun: false,
            fresh: false,
            ended: false,
            steps: 0,
            columns: Vec::new(alloc),
        }
    }

    /// The version of the language, 1 or 2, as the lines so far say. Constant.
    pub fn version(&self) -> u8
        ensures { result ≡ (spot self.now).version }
    {
        self.version
    }

    /// Whether a last step was there. Constant.
    pub fn has_ended(&self) -> bool
        ensures { result ≡ (spot self.now).ended }
    {
        self.ended
    }

    /// The columns after the lines so far. Constant.
    pub fn columns(&self) -> &[Column]
        ensures { result.now ≡ (spot self.now).columns }
    {
        self.columns.as_slice()
    }

    fn version_after(&self, line: &Line) -> u8
        ensures { result ≡ version_after (spot self.now) (view line.now) }
    {
        match line {
            Line::Version => 2,
            _ => self.version,
        }
    }

    // Whether a line that begins so may stand here.
    fn admits_word(&self, verb: Verb) -> bool
        ensures { result ≡ word_stands (spot self.now) verb }
    {
        match verb {
            Verb::Pipeline => !self.opened,
            Verb::Par => self.fresh,
            Verb::Plain | Verb::Array | Verb::Vector => false,
            _ => self.begun && !self.ended,
        }
    }

    fn admits(&self, tokens: &[Token]) -> bool
        ensures { result ≡ stands (spot self.now) tokens.now }
    {
        match tokens {
            [Token::Kept(Reserved::From), ..] => !self.begun,
            [Token::Word(verb, _), ..] => self.admits_word(*verb),
            _ => false,
        }
    }

    // The place after a line with these columns after it.
    #[tactic(auto, unfolding(crate::specs::Places::too_many))]
    fn after(&self, line: &Line, columns: Vec<Column>) -> Place
        requires few { faulty (spot self.now) (view line.now) TooMany ≡ false }
        requires columns { columns.items ≡ list_after (spot self.now).columns (view line.now) }
        ensures { spot result ≡ next (spot self.now) (view line.now) }
    {
        let steps = if is_step(line) {
            self.steps + 1
        } else {
            self.steps
        };
        Place {
            version: self.version_after(line),
            opened: true,
            begun: self.begun || is_source(line),
            fresh: is_source(line),
            ended: is_last(line),
            steps,
            columns,
        }
    }
}

// What the tokens of a line say in its place, before the later faults.
fn read_line(alloc: Global, place: &Place, tokens: &[Token]) -> Result<Line, LineStop>
    ensures read { IfOk result (λ x. verdict (spot place.now) tokens.now ≡ ruled (view x) (fault_of (spot place.now) (view x))) }
    ensures stop { IfErr result (λ e. StopsAs e (verdict (spot place.now) tokens.now)) }
{
    if !place.admits(tokens) {
        return Err(LineStop::Fault(Fault::Step));
    }
    match line_in(alloc, place.version, tokens) {
        Ok(line) => Ok(line),
        Err(ParseError::Memory) => Err(LineStop::Memory),
        Err(ParseError::Shape) => Err(LineStop::Fault(unread(alloc, place.version, tokens)?)),
    }
}

// The place after a line, or the least of its later faults.
fn settle(alloc: Global, place: &Place, line: &Line) -> Result<Place, LineStop>
    ensures fine { IfOk result (λ q. fault_of (spot place.now) (view line.now) ≡ None) }
    ensures next { IfOk result (λ q. spot q ≡ next (spot place.now) (view line.now)) }
    ensures stop { IfErr result (λ e. StopsAs e (ruled (view line.now) (fault_of (spot place.now) (view line.now)))) }
{
    let after = columns_after(alloc, &place.columns, line)?;
    match fault_of(place, line, &after) {
        Some(fault) => Err(LineStop::Fault(fault)),
        None => Ok(place.after(line, after)),
    }
}

// A line with the place after it, if there is one.
fn beside(line: Line, settled: Result<Place, LineStop>) -> Result<(Line, Place), LineStop>
    ensures fine { IfOk result (λ x. (x.0 ≡ line) × (settled ≡ Ok x.1)) }
    ensures stop { IfErr result (λ e. settled ≡ Err e) }
{
    match settled {
        Ok(next) => Ok((line, next)),
        Err(stop) => Err(stop),
    }
}

/// What the tokens of a line say in its place, and the place after it; or the least fault that the line has there.
/// Linear in the line for each column.
pub fn judge_line(alloc: Global, place: &Place, tokens: &[Token]) -> Result<(Line, Place), LineStop>
    ensures accepted { IfOk result (λ x. Accepts (spot place.now) (view x.0) tokens.now) }
    ensures next { IfOk result (λ x. spot x.1 ≡ next (spot place.now) (view x.0)) }
    ensures refused { IfErr result (λ e. IsRefused (spot place.now) e tokens.now) }
{
    let line = read_line(alloc, place, tokens)?;
    let settled = settle(alloc, place, &line);
    beside(line, settled)
}
