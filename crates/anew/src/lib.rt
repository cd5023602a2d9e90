// The flags of a row worked out anew in two steps: its walls from the cells of its level and the walls of the level below, and then its points and
// its cell from the walls around it.
#![tactic(auto)]

pub mod pass;

ghost use Rattle.std.specs.Prelude.{◌≡◌, ℕ, ◌<◌, ◌≤◌};
ghost use Rattle.mesh.specs.Tools.{digits};
ghost use Rattle.edit_laws.specs.Anew.{walls_anew, points_anew, wall_row, point_row};
ghost use Rattle.table.specs.Plain.{Plain};

use table::flag_bits::{BDY_WALL_H, BDY_WALL_V, COMPLETE, SENTENCED, WALL_H, WALL_V};
use table::plain;
use table::words::{EAST, FLAGS, INDEX_I, INDEX_J, NORTH, SOUTH, WEST};
use table::writes::put;
use worked::pairs::{corner, join, own_wall, wall};
use worked::{digits_of_four, weigh};

// The walls of a row anew, without the points and the cell that the walls around it make.
fn walls_anew(t: &[i32], cap: usize, n: usize, sentenced: bool) -> u32
    requires { Plain t.now cap × (n ≤ cap) }
    ensures { (result < 8192) × ((d : ℕ) → result ≡ digits (walls_anew t.now cap d n sentenced)) }
{
    let c = plain::flag(t, cap, COMPLETE, n);
    let a = plain::flag(t, cap, COMPLETE, plain::link(t, cap, n, SOUTH));
    let b = plain::flag(t, cap, COMPLETE, plain::link(t, cap, n, WEST));
    let h = own_wall(t, cap, n, c != a, INDEX_J, BDY_WALL_H);
    let v = own_wall(t, cap, n, c != b, INDEX_I, BDY_WALL_V);
    digits_of_four(c, c | a, c | b, false) + 16 * h + 32 * v + weigh(sentenced, 4096)
}

// All flags of a row, off its own walls and those around it as their flags say them.
fn points_anew(t: &[i32], cap: usize, n: usize) -> u32
    requires { Plain t.now cap × (n ≤ cap) }
    ensures { (result < 8192) × (result ≡ digits (points_anew t.now cap n)) }
{
    let h = wall(t, cap, BDY_WALL_H, n);
    let v = wall(t, cap, BDY_WALL_V, n);
    let own = join(h, v);
    let near = join(own, corner(t, cap, n, WEST, SOUTH));
    let far = join(own, corner(t, cap, n, NORTH, EAST));
    let c = plain::flag(t, cap, COMPLETE, n);
    let south = plain::flag(t, cap, WALL_H, n);
    let west = plain::flag(t, cap, WALL_V, n);
    digits_of_four(c, south, west, false)
        + 8 * near
        + 16 * h
        + 32 * v
        + weigh(c, 64 * far)
        + weigh(plain::flag(t, cap, SENTENCED, n), 4096)
}

// The row n with its walls anew, unless n is 0; its own mark Sentenced stays.
pub fn wall_row(t: &mut [i32], cap: usize, d: u32, n: usize)
    requires { Plain t.old cap × (n ≤ cap) × (d ≤ 32) }
    ensures { (t.new ≡ wall_row cap d t.old n) × Plain t.new cap }
{
    if n == 0 {
        return;
    }
    let sentenced = plain::flag(t, cap, SENTENCED, n);
    let x = walls_anew(t, cap, n, sentenced);
    put(t, n, FLAGS, x);
}

// And then with its points and its cell.
pub fn point_row(t: &mut [i32], cap: usize, n: usize)
    requires { Plain t.old cap × (n ≤ cap) }
    ensures { (t.new ≡ point_row cap t.old n) × Plain t.new cap }
{
    if n == 0 {
        return;
    }
    let x = points_anew(t, cap, n);
    put(t, n, FLAGS, x);
}
