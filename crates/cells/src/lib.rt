// The tests of what stands in a row: a ghost, a point or a cell, its flags and its value; or nothing.
#![tactic(auto)]

pub mod amounts;
pub mod empty;
pub mod flags;
pub mod points;

ghost use Rattle.std.specs.Prelude.{◌≡◌, ◌≤◌};
ghost use Rattle.header.specs.Headers.{header_of};
ghost use Rattle.checker_laws.specs.Rowwise.{kind_ok};

use readable::is_positive;
use readable::rows::Rows;
use table::words::LEVEL;

// A ghost, or a row from level 0 up.
pub fn kind_ok(rows: &Rows, n: usize) -> bool
    requires { n ≤ rows.now.levels.cap }
    ensures { result ≡ kind_ok (header_of rows.now.header).grid rows.now.levels.t.now rows.now.levels.cap rows.now.levels.d n }
{
    let levels = &rows.levels;
    if !is_positive(levels.t, n, LEVEL) {
        return points::ghost_ok(levels.t, levels.cap, n);
    }
    points::point_ok(levels, rows.header, n)
}
