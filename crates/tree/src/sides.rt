// The neighbours of a row, and the seam of a ring.
ghost use Rattle.std.specs.Prelude.{◌≡◌, ◌&&◌, ◌≤◌, ◌<◌};
ghost use Rattle.mesh.specs.Place.{is_ring};
ghost use Rattle.header.specs.Headers.{header_of};
ghost use Rattle.checker_laws.specs.Rowwise.{sides_ok};
ghost use Rattle.tree.specs.SideTests.{sides_by, sides_of, on_seam, seam_north, seam_south, sides_over};

use header::is_ring;
use readable::rows::{Levels, Rows};
use table::words::{EAST, INDEX_I, INDEX_J, NORTH, PARENT, SOUTH, WEST};
use winds::{E, N, S, W};
use worked::down::down_to;
use worked::side_by;

// Whether each neighbour is the kid of the parent p or of the parent's neighbour, for a place that ends in the digits l and m.
#[tactic(auto, unfolding(crate::specs::SideTests::sides_by))]
fn sides_by(levels: &Levels, n: usize, p: usize, l: u32, m: u32) -> bool
    requires { (n ≤ levels.now.cap) × (p ≤ levels.now.cap) × (l < 2) × (m < 2) }
    ensures { result ≡ sides_by levels.now.t.now levels.now.cap n p l m }
{
    levels.says(n, NORTH, side_by(levels.t, levels.cap, p, l, m, N) as u32)
        & levels.says(n, EAST, side_by(levels.t, levels.cap, p, l, m, E) as u32)
        & levels.says(n, SOUTH, side_by(levels.t, levels.cap, p, l, m, S) as u32)
        & levels.says(n, WEST, side_by(levels.t, levels.cap, p, l, m, W) as u32)
}

// Whether each neighbour is the kid of the parent or of the parent's neighbour.
fn parental_ok(levels: &Levels, n: usize) -> bool
    requires { n ≤ levels.now.cap }
    ensures { result ≡ sides_of levels.now.t.now levels.now.cap n }
{
    // Digits that are written out make the choice of the parent's neighbours one of the compiler's.
    let p = levels.link(n, PARENT);
    let i = levels.index(n, INDEX_I);
    let j = levels.index(n, INDEX_J);
    if i % 2 == 0 {
        if j % 2 == 0 {
            return sides_by(levels, n, p, 0, 0);
        }
        return sides_by(levels, n, p, 0, 1);
    }
    if j % 2 == 0 {
        return sides_by(levels, n, p, 1, 0);
    }
    sides_by(levels, n, p, 1, 1)
}

// Whether a step north or south of the row n may cross the seam of a ring: it is on level 0, in the first or the last row, or past it.
fn on_seam(rows: &Rows, n: usize) -> bool
    requires { n ≤ rows.now.levels.cap }
    ensures { result ≡ (is_ring (header_of rows.now.header).grid && on_seam rows.now.levels.t.now rows.now.header.rows rows.now.levels.d n) }
{
    let levels = &rows.levels;
    if !is_ring(rows.header) {
        return false;
    }
    if levels.depth(n) != levels.d {
        return false;
    }
    let j = levels.index(n, INDEX_J);
    (j == 0) | ((j + 1 == rows.header.rows) | (j == rows.header.rows))
}

// The row north of the place with the indices i and j of level 0: from the last row the one of the first, otherwise by the parent p.
fn seam_north(rows: &Rows, p: usize, i: u32, j: u32) -> usize
    requires { (p ≤ rows.now.levels.cap) × (j < 2147483648) }
    ensures { (result ≤ rows.now.levels.cap) × (result ≡ seam_north rows.now.levels.t.now rows.now.levels.cap rows.now.header.rows rows.now.levels.d p i j) }
{
    let levels = &rows.levels;
    if j + 1 == rows.header.rows {
        return down_to(levels.t, levels.cap, levels.d, i, 0);
    }
    side_by(levels.t, levels.cap, p, i % 2, j % 2, N)
}

// The row south of it: from the first row the one of the last, and none from the row past the last.
fn seam_south(rows: &Rows, p: usize, i: u32, j: u32) -> usize
    requires { p ≤ rows.now.levels.cap }
    ensures { (result ≤ rows.now.levels.cap) × (result ≡ seam_south rows.now.levels.t.now rows.now.levels.cap rows.now.header.rows rows.now.levels.d p i j) }
{
    let levels = &rows.levels;
    if j == 0 {
        return down_to(levels.t, levels.cap, levels.d, i, rows.header.rows - 1);
    }
    if j == rows.header.rows {
        return 0;
    }
    side_by(levels.t, levels.cap, p, i % 2, j % 2, S)
}

// Whether each neighbour of a row on the seam is the one across it, or by the parent.
fn seam_ok(rows: &Rows, n: usize) -> bool
    requires { n ≤ rows.now.levels.cap }
    ensures { result ≡ sides_over rows.now.levels.t.now rows.now.levels.cap rows.now.header.rows rows.now.levels.d n }
{
    let levels = &rows.levels;
    let p = levels.link(n, PARENT);
    let i = levels.index(n, INDEX_I);
    let j = levels.index(n, INDEX_J);
    levels.says(n, NORTH, seam_north(rows, p, i, j) as u32)
        & levels.says(
            n,
            EAST,
            side_by(levels.t, levels.cap, p, i % 2, j % 2, E) as u32,
        )
        & levels.says(n, SOUTH, seam_south(rows, p, i, j) as u32)
        & levels.says(
            n,
            WEST,
            side_by(levels.t, levels.cap, p, i % 2, j % 2, W) as u32,
        )
}

pub fn sides_ok(rows: &Rows, n: usize) -> bool
    requires { n ≤ rows.now.levels.cap }
    ensures { result ≡ sides_ok (header_of rows.now.header).grid rows.now.levels.t.now rows.now.levels.cap n }
{
    if on_seam(rows, n) {
        return seam_ok(rows, n);
    }
    parental_ok(&rows.levels, n)
}
