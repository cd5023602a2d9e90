// The rows around a cell.
ghost use Rattle.worked.specs.Around.{IsAround, Within};
ghost use Rattle.std.specs.Prelude.{◌≤◌};
ghost use Rattle.table.specs.Plain.{Plain};

use table::plain::link;
use table::words::{EAST, NORTH, SOUTH, WEST};

// North, east, north-east, south and west of it.
#[derive(Clone, Copy)]
pub struct Around {
    pub north: usize,
    pub east: usize,
    pub both: usize,
    pub south: usize,
    pub west: usize,
}

// Those around the row n, or row 0 where there is none.
pub fn rows_around(t: &[i32], cap: usize, n: usize) -> Around
    requires { Plain t.now cap × (n ≤ cap) }
    ensures { IsAround t.now cap n result × Within cap result }
{
    let east = link(t, cap, n, EAST);
    Around {
        north: link(t, cap, n, NORTH),
        east,
        both: link(t, cap, east, NORTH),
        south: link(t, cap, n, SOUTH),
        west: link(t, cap, n, WEST),
    }
}
