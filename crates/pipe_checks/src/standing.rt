//! What the lines before have said.

ghost use Rattle.std.specs.Prelude.{◌≤◌};

use par_rows::Column;

/// What the lines before have said.
#[derive(Debug, Drop)]
pub struct Place {
    pub(crate) version: u8,
    pub(crate) opened: bool,
    pub(crate) begun: bool,
    pub(crate) fresh: bool,
    pub(crate) ended: bool,
    pub(crate) steps: u8,
    pub(crate) columns: Vec<Column>,
    ghost few: { steps ≤ 64 },
}
