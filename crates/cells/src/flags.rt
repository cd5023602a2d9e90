// The flags of a cell, and of a point that is none. Boundary and green walls are counted together, as 1 and as 16: their flags stand four bits apart.
ghost use Rattle.std.specs.Prelude.{◌≡◌, true, false, ◌≤◌, ◌<◌};
ghost use Rattle.mesh.specs.Tools.{digits};
ghost use Rattle.mesh.specs.Picture.{south_word, west_word};
ghost use Rattle.mesh.specs.Mesh.{complete_bit};
ghost use Rattle.table.specs.Words.{link_of, flag_of};
ghost use Rattle.worked.specs.Worked.{flags_from};

use readable::rows::Levels;
use table::flag_bits::{BDY_WALL_H, BDY_WALL_V, COMPLETE};
use table::words::{EAST, INDEX_I, INDEX_J, NORTH, SOUTH, WEST};
use worked::pairs::{corner, join, own_wall};
use worked::weigh;

// The flags of a cell whose own walls have two cells: only the walls of its neighbours play a part.
fn internal_flags(levels: &Levels, n: usize, sentenced: bool) -> u32
    requires { (n ≤ levels.now.cap) × (flag_of levels.now.t.now complete_bit n ≡ true) × (flag_of levels.now.t.now complete_bit (link_of levels.now.t.now levels.now.cap n south_word) ≡ true) × (flag_of levels.now.t.now complete_bit (link_of levels.now.t.now levels.now.cap n west_word) ≡ true) }
    ensures { (result < 16384) × (result ≡ digits (flags_from levels.now.t.now levels.now.cap levels.now.d n sentenced)) }
{
    let near = corner(levels.t, levels.cap, n, WEST, SOUTH);
    let far = corner(levels.t, levels.cap, n, NORTH, EAST);
    7 + 8 * near + 64 * far + weigh(sentenced, 4096)
}

// The flags of a cell with a wall of one cell.
fn bordered_flags(levels: &Levels, n: usize, sentenced: bool) -> u32
    requires { (n ≤ levels.now.cap) × (flag_of levels.now.t.now complete_bit n ≡ true) }
    ensures { (result < 16384) × (result ≡ digits (flags_from levels.now.t.now levels.now.cap levels.now.d n sentenced)) }
{
    let south = levels.flag(COMPLETE, levels.link(n, SOUTH));
    let west = levels.flag(COMPLETE, levels.link(n, WEST));
    let h = own_wall(levels.t, levels.cap, n, !south, INDEX_J, BDY_WALL_H);
    let v = own_wall(levels.t, levels.cap, n, !west, INDEX_I, BDY_WALL_V);
    let x = join(h, v);
    let near = join(x, corner(levels.t, levels.cap, n, WEST, SOUTH));
    let far = join(x, corner(levels.t, levels.cap, n, NORTH, EAST));
    7 + 8 * near + 16 * h + 32 * v + 64 * far + weigh(sentenced, 4096)
}

// The flags of a cell.
pub fn cell_flags(levels: &Levels, n: usize, sentenced: bool) -> u32
    requires { (n ≤ levels.now.cap) × (flag_of levels.now.t.now complete_bit n ≡ true) }
    ensures { (result < 16384) × (result ≡ digits (flags_from levels.now.t.now levels.now.cap levels.now.d n sentenced)) }
{
    let south = levels.flag(COMPLETE, levels.link(n, SOUTH));
    let west = levels.flag(COMPLETE, levels.link(n, WEST));
    if south & west {
        return internal_flags(levels, n, sentenced);
    }
    bordered_flags(levels, n, sentenced)
}

// The flags of a point that is no cell.
pub fn bare_flags(levels: &Levels, n: usize) -> u32
    requires { (n ≤ levels.now.cap) × (flag_of levels.now.t.now complete_bit n ≡ false) }
    ensures { (result < 16384) × (result ≡ digits (flags_from levels.now.t.now levels.now.cap levels.now.d n false)) }
{
    let south = levels.flag(COMPLETE, levels.link(n, SOUTH));
    let west = levels.flag(COMPLETE, levels.link(n, WEST));
    let h = own_wall(levels.t, levels.cap, n, south, INDEX_J, BDY_WALL_H);
    let v = own_wall(levels.t, levels.cap, n, west, INDEX_I, BDY_WALL_V);
    let x = join(h, v);
    let near = join(x, corner(levels.t, levels.cap, n, WEST, SOUTH));
    weigh(south, 2) + weigh(west, 4) + 8 * near + 16 * h + 32 * v
}
