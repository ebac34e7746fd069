//! The rows after a step.

use par_laws::Shown;
use par_rows::Row;
use std::collections::LinkedList;

/// The rows after a step: some of those that it got, or rows that it made.
#[derive(Drop)]
pub enum Stepped<'a> {
    Picked(Vec<&'a Row>),
    Made(Vec<Row>),
}

/// Seen as the list of the rows.
impl<'a> Shown for Stepped<'a> {
    ghost use Rattle.pipe_stages.specs.Rows.{listed};

    type Value = LinkedList<Row>;

    ghost shown = { listed };
}
