// Ghosts, points and cells.
ghost use Rattle.std.specs.Prelude.{◌≡◌, true, false, not, ◌||◌, ◌≤◌};
ghost use Rattle.header.specs.Headers.{header_of};
ghost use Rattle.checker_laws.specs.Rowwise.{ghost_ok, kid_cells_are, inside_ok, cell_ok, sentence_ok, point_ok};
ghost use Rattle.readable.specs.Readable.{Readable};

use crate::flags::{bare_flags, cell_flags};
use header::{Header, has_cell};
use readable::rows::Levels;
use table::flag_bits::{COMPLETE, SENTENCED};
use table::words::{
    EAST, FLAGS, INDEX_I, INDEX_J, NE_KID, NORTH, NW_KID, PARENT, SE_KID, SW_KID, says,
};
use worked::{kidless, touched};

// A ghost has flags 0 and a kid.
#[tactic(auto, unfolding(checker_laws::specs::Rowwise::ghost_ok))]
pub fn ghost_ok(t: &[i32], cap: usize, n: usize) -> bool
    requires { Readable t.now cap × (n ≤ cap) }
    ensures { result ≡ ghost_ok t.now cap n }
{
    says(t, n, FLAGS, 0) & !kidless(t, cap, n)
}

// Whether each of the four kids is a cell, or none is.
fn kid_cells_are(levels: &Levels, n: usize, b: bool) -> bool
    requires { n ≤ levels.now.cap }
    ensures { result ≡ kid_cells_are levels.now.t.now levels.now.cap n b }
{
    (levels.flag(COMPLETE, levels.link(n, NE_KID)) == b)
        & (levels.flag(COMPLETE, levels.link(n, SE_KID)) == b)
        & (levels.flag(COMPLETE, levels.link(n, SW_KID)) == b)
        & (levels.flag(COMPLETE, levels.link(n, NW_KID)) == b)
}

// Whether the kids are four cells or none.
fn kids_agree(levels: &Levels, n: usize) -> bool
    requires { n ≤ levels.now.cap }
    ensures { result ≡ (kid_cells_are levels.now.t.now levels.now.cap n true || kid_cells_are levels.now.t.now levels.now.cap n false) }
{
    if kidless(levels.t, levels.cap, n) {
        return true;
    }
    let i = levels.flag(COMPLETE, levels.link(n, NE_KID));
    (i == levels.flag(COMPLETE, levels.link(n, SE_KID)))
        & (i == levels.flag(COMPLETE, levels.link(n, SW_KID)))
        & (i == levels.flag(COMPLETE, levels.link(n, NW_KID)))
}

// Whether a cell lies in the rectangle, or in a cell of the level below.
fn inside(levels: &Levels, header: Header, n: usize) -> bool
    requires { n ≤ levels.now.cap }
    ensures { result ≡ inside_ok (header_of header).grid levels.now.t.now levels.now.cap levels.now.d n }
{
    if levels.depth(n) == levels.d {
        return has_cell(header, levels.index(n, INDEX_I), levels.index(n, INDEX_J));
    }
    levels.flag(COMPLETE, levels.link(n, PARENT))
}

// A cell has its patches E, N and NE, and its kids are four cells or none.
#[tactic(auto, unfolding(checker_laws::specs::Rowwise::cell_ok))]
pub fn cell_ok(levels: &Levels, header: Header, n: usize) -> bool
    requires { n ≤ levels.now.cap }
    ensures { result ≡ cell_ok (header_of header).grid levels.now.t.now levels.now.cap levels.now.d n }
{
    let north = levels.link(n, NORTH);
    let east = levels.link(n, EAST);
    let corner = levels.link(east, NORTH);
    if (east == 0) | (north == 0) | (corner == 0) {
        return false;
    }
    if !inside(levels, header, n) {
        return false;
    }
    kids_agree(levels, n)
}

// A sentenced row is a leaf above level 0.
#[tactic(auto, unfolding(checker_laws::specs::Rowwise::sentence_ok))]
pub fn sentence_ok(levels: &Levels, n: usize) -> bool
    requires { n ≤ levels.now.cap }
    ensures { result ≡ sentence_ok levels.now.t.now levels.now.cap levels.now.d n }
{
    levels.flag(COMPLETE, n) & !(levels.depth(n) == levels.d) & kid_cells_are(levels, n, false)
}

// What is asked of a sentenced row, if the row is one.
fn sentence_if(levels: &Levels, n: usize, sentenced: bool) -> bool
    requires { n ≤ levels.now.cap }
    ensures { result ≡ (not sentenced || sentence_ok levels.now.t.now levels.now.cap levels.now.d n) }
{
    !sentenced || sentence_ok(levels, n)
}

// A row from level 0 up.
#[tactic(auto, unfolding(checker_laws::specs::Rowwise::point_ok, checker_laws::specs::Rowwise::sentence_ok))]
pub fn point_ok(levels: &Levels, header: Header, n: usize) -> bool
    requires { n ≤ levels.now.cap }
    ensures { result ≡ point_ok (header_of header).grid levels.now.t.now levels.now.cap levels.now.d n }
{
    if levels.flag(COMPLETE, n) {
        if !cell_ok(levels, header, n) {
            return false;
        }
        let sentenced = levels.flag(SENTENCED, n);
        if !sentence_if(levels, n, sentenced) {
            return false;
        }
        return levels.says(n, FLAGS, cell_flags(levels, n, sentenced));
    }
    if !touched(levels.t, levels.cap, n) {
        return false;
    }
    if levels.flag(SENTENCED, n) {
        return false;
    }
    levels.says(n, FLAGS, bare_flags(levels, n))
}
