// Walls of both kinds at once: a boundary wall counts 1 and a green one 16, since their flags stand four bits apart.
ghost use Rattle.std.specs.Prelude.{◌≡◌, ℕ, not, ◌&&◌, ◌||◌, ◌+◌, ◌<◌, ◌≤◌};
ghost use Rattle.std.specs.Int.Bits.{bit_or};
ghost use Rattle.mesh.specs.Mesh.{bdy_wall_h_bit, bdy_wall_v_bit, grn_wall_h_bit, grn_wall_v_bit};
ghost use Rattle.mesh.specs.Picture.{row_words};
ghost use Rattle.worked.specs.FlagDigits.{pair};
ghost use Rattle.worked.specs.Worked.{boundary_at};
ghost use Rattle.table.specs.Words.{link_of, flag_of};
ghost use Rattle.table.specs.Plain.{Plain};

use crate::weigh;
use table::flag_bits::{BDY_WALL_H, BDY_WALL_V};
use table::plain::{flag, flags, link};
use table::words::{LEVEL, PARENT, says, word};

// 1 where a wall with one cell is boundary, 16 where it is green.
pub fn boundary_or_green(one: bool, boundary: bool) -> u32
    ensures { (result < 32) × (result ≡ pair boundary (one && not boundary)) }
{
    if boundary { 1 } else { weigh(one, 16) }
}

// Whether a wall is boundary, if it has one cell: on level 0, and above where the wall of the parent is, by its bit k, and the word w is even.
fn boundary(t: &[i32], cap: usize, n: usize, one: bool, w: usize, k: u32) -> bool
    requires { Plain t.now cap × (n ≤ cap) × (w < row_words) × (k < 32) }
    ensures { (d : ℕ) → result ≡ boundary_at t.now cap d n one w k }
{
    one && (says(t, n, LEVEL, 0)
        || (word(t, n, w) % 2 == 0) & flag(t, cap, k, link(t, cap, n, PARENT)))
}

// A wall of the row n that has one cell, if it has one.
pub fn own_wall(t: &[i32], cap: usize, n: usize, one: bool, w: usize, k: u32) -> u32
    requires { Plain t.now cap × (n ≤ cap) × (w < row_words) × (k < 32) }
    ensures { (result < 32) × ((d : ℕ) → result ≡ pair (boundary_at t.now cap d n one w k) (one && not (boundary_at t.now cap d n one w k))) }
{
    boundary_or_green(one, boundary(t, cap, n, one, w, k))
}

// The wall of bit k of the row n, boundary or green.
pub fn wall(t: &[i32], cap: usize, k: u32, n: usize) -> u32
    requires { Plain t.now cap × (n ≤ cap) × (k < 28) }
    ensures { (result < 32) × (result ≡ pair (flag_of t.now k n) (flag_of t.now (k + 4) n)) }
{
    let w = flags(t, cap, n);
    (w >> k) % 2 + 16 * ((w >> (k + 4)) % 2)
}

// Two walls that meet.
pub fn join(a: u32, b: u32) -> u32
    requires { (a < 32) × (b < 32) }
    ensures { (result < 32) × (result ≡ bit_or a b) }
{
    a | b
}

// The walls that the neighbours at the words a and b have at a corner: an H-wall and a V-wall.
pub fn corner(t: &[i32], cap: usize, n: usize, a: usize, b: usize) -> u32
    requires { Plain t.now cap × (n ≤ cap) × (a < 9) × (b < 9) }
    ensures { (result < 32) × (result ≡ pair (flag_of t.now bdy_wall_h_bit (link_of t.now cap n a) || flag_of t.now bdy_wall_v_bit (link_of t.now cap n b)) (flag_of t.now grn_wall_h_bit (link_of t.now cap n a) || flag_of t.now grn_wall_v_bit (link_of t.now cap n b))) }
{
    join(
        wall(t, cap, BDY_WALL_H, link(t, cap, n, a)),
        wall(t, cap, BDY_WALL_V, link(t, cap, n, b)),
    )
}
