// What a lookup goes down.
ghost use Rattle.std.specs.Prelude.{◌≤◌};

use walk::checked::Rows;

/// The rows of a table from its root, row 1, on, with level 0 so deep at most that each level below it has a digit of a coordinate.
#[derive(Clone, Copy)]
pub struct Tree<'a> {
    pub rows: Rows<'a>,
    pub ghost root: { 1 ≤ rows.cap },
    pub ghost depth: { rows.d ≤ 19 },
}
