// The seam of a ring: the first and the last row of level 0 name each other. Their parents are no neighbours, so they are found from the root.
ghost use Rattle.std.specs.Prelude.{◌≡◌, cond, ◌+◌, ◌-◌, ◌<◌, ◌≤◌};
ghost use Rattle.mesh.specs.Place.{is_ring};
ghost use Rattle.header.specs.Headers.{header_of};
ghost use Rattle.table.specs.Plain.{Plain};
ghost use Rattle.edit_laws.specs.Built.{each_row, seam_row};

use header::{Header, is_ring};
use table::words::{INDEX_I, INDEX_J, NORTH, SOUTH, word};
use table::writes::put;
use worked::down::down_to;

// The row n names the one across the seam, if it lies there.
fn seam_row(t: &mut [i32], cap: usize, header: Header, d: u32, n: usize)
    requires { Plain t.old cap × (1 ≤ cap) × (d < 32) × (1 ≤ header.rows) × (n ≤ cap) }
    ensures { (t.new ≡ seam_row (header_of header).grid cap d t.old n) × Plain t.new cap }
{
    let last = header.rows - 1;
    let j = word(t, n, INDEX_J);
    if j == last {
        let i = word(t, n, INDEX_I);
        let north = down_to(t, cap, d, i, 0);
        put(t, n, NORTH, north as u32);
        return;
    }
    if j != 0 {
        return;
    }
    let i = word(t, n, INDEX_I);
    let south = down_to(t, cap, d, i, last);
    put(t, n, SOUTH, south as u32);
}

// The rows from a up to b do, if the grid is a ring.
pub fn seam_rows(t: &mut [i32], cap: usize, header: Header, d: u32, a: usize, b: usize)
    requires { Plain t.old cap × (1 ≤ cap) × (d < 32) × (1 ≤ header.rows) × (a ≤ b) × (b ≤ cap + 1) }
    ensures { t.new ≡ cond (is_ring (header_of header).grid) (each_row (seam_row (header_of header).grid cap d) (b - a) a t.old) t.old }
{
    if !is_ring(header) {
        return;
    }
    for n in a..b {
        seam_row(t, cap, header, d, n);
    }
}
