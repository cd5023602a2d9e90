// Flags along the border of a level-0 cell worked out anew, down by kids and level by level.
#![tactic(auto)]

ghost use Rattle.std.specs.Prelude.{◌≡◌, false, ◌≤◌, T};
ghost use Rattle.mesh.specs.Tools.{all};
ghost use Rattle.table.specs.Plain.{Plain};
ghost use Rattle.edit_laws.specs.Tables.{each_down, along_corners, refresh_level, refresh_levels};
ghost use Rattle.border.specs.Borders.{is_link, bare_down, BareCorners, BareBorder, Within, border_of};

use anew::pass::{Pass, Points, Walls};
use table::plain::link;
use table::words::{NE_KID, NW_KID, SE_KID, SW_KID};
use worked::around::Around;

// A pass through the rows so many levels down from n, by kids that the words of ws name; whether there is one.
fn pass_down<P: Pass>(t: &mut [i32], cap: usize, pass: P, ws: &[usize], e: u32, n: usize) -> bool
    requires { Plain t.old cap × (n ≤ cap) × T (all is_link ws.now) }
    ensures { (t.new ≡ each_down (P.step pass cap) cap ws.now e t.old n) × Plain t.new cap × (result ≡ false → T (bare_down t.old cap ws.now e n)) }
{
    if n == 0 {
        return false;
    }
    if e == 0 {
        pass.row(t, cap, n);
        return true;
    }
    let mut met = false;
    for w in ws {
        let k = link(t, cap, n, *w);
        let one = pass_down(t, cap, pass, ws, e - 1, k);
        met = one | met;
    }
    met
}

// The rows on and beside the border of a level-0 cell: its own, and those around it.
#[derive(Clone, Copy)]
pub struct Border {
    pub own: usize,
    pub around: Around,
}

// On one level, a pass through the rows along the border whose walls the cell can be a side of; whether there is one.
fn pass_corners<P: Pass>(t: &mut [i32], cap: usize, pass: P, b: Border, e: u32) -> bool
    requires { Plain t.old cap × Within cap b }
    ensures { (t.new ≡ along_corners (P.step pass cap) cap (border_of b) e t.old) × Plain t.new cap × (result ≡ false → BareCorners t.old cap (border_of b) e) }
{
    let own = pass_down(t, cap, pass, &[SW_KID, SE_KID, NW_KID, NE_KID], e, b.own);
    let north = pass_down(t, cap, pass, &[SW_KID, SE_KID], e, b.around.north);
    let east = pass_down(t, cap, pass, &[SW_KID, NW_KID], e, b.around.east);
    let both = pass_down(t, cap, pass, &[SW_KID], e, b.around.both);
    own | (north | (east | both))
}

// On one level, walls first, and then points and cells, those beside to the south and to the west too; whether there is a row.
fn refresh_level(t: &mut [i32], cap: usize, d: u32, b: Border, e: u32) -> bool
    requires { Plain t.old cap × (d ≤ 32) × Within cap b }
    ensures { (t.new ≡ refresh_level (border_of b) e t.old cap d) × Plain t.new cap × (result ≡ false → BareBorder t.new cap (border_of b) e) }
{
    pass_corners(t, cap, Walls { d }, b, e);
    let corners = pass_corners(t, cap, Points, b, e);
    let south = pass_down(t, cap, Points, &[NW_KID, NE_KID], e, b.around.south);
    let west = pass_down(t, cap, Points, &[SE_KID, NE_KID], e, b.around.west);
    corners | (south | west)
}

// Level by level from level 0, so that the walls of the level below are right. Above a level without a row there is none.
pub fn refresh_levels(t: &mut [i32], cap: usize, d: u32, b: Border)
    requires { Plain t.old cap × (d ≤ 32) × Within cap b }
    ensures { t.new ≡ refresh_levels 13 (border_of b) 0 t.old cap d }
{
    for e in 0..13 {
        if !refresh_level(t, cap, d, b, e) {
            return;
        }
    }
}
