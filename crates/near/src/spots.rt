// Steps at the kids near a cell: its own four; the corners north, east and north-east; the sides south and west.
ghost use Rattle.std.specs.Prelude.{◌≡◌, ◌++◌, ◌<◌, ◌≤◌, length};
ghost use Rattle.edit_laws.specs.Tables.{kid_at, kid_spots, each_at, refresh_near, put_cell, put_cell_amount, put_cells, put_amounts};
ghost use Rattle.worked.specs.Around.{Within};
ghost use Rattle.near.specs.NearSpots.{kid_spot, corner_spots, side_spots};
ghost use Rattle.table.specs.Plain.{Plain};

use anew::pass::{Pass, Points, Walls};
use carried::{Carried, put_carried};
use table::plain;
use table::words::FLAGS;
use table::writes::put;
use winds::{NE, NW, SE, SW};
use worked::around::{Around, rows_around};

// The kid of the row p in the wind at place w of the table of winds, or 0.
pub fn kid(t: &[i32], cap: usize, p: usize, w: usize) -> usize
    requires { Plain t.now cap × (p ≤ cap) × (w < 4) }
    ensures { (result ≤ cap) × (result ≡ kid_at t.now cap (kid_spot p w)) }
{
    plain::link(t, cap, p, w + 1)
}

// What a pass works out anew of that kid.
fn pass_kid<P: Pass>(t: &mut [i32], cap: usize, pass: P, p: usize, w: usize)
    requires { Plain t.old cap × (p ≤ cap) × (w < 4) }
    ensures { (t.new ≡ P.step pass cap t.old (kid_at t.old cap (kid_spot p w))) × Plain t.new cap }
{
    let k = kid(t, cap, p, w);
    pass.row(t, cap, k);
}

fn pass_kids<P: Pass>(t: &mut [i32], cap: usize, pass: P, n: usize)
    requires { Plain t.old cap × (n ≤ cap) }
    ensures { (t.new ≡ each_at (P.step pass cap) cap (kid_spots t.old cap n) t.old) × Plain t.new cap }
{
    pass_kid(t, cap, pass, n, SW);
    pass_kid(t, cap, pass, n, SE);
    pass_kid(t, cap, pass, n, NW);
    pass_kid(t, cap, pass, n, NE);
}

fn pass_corners<P: Pass>(t: &mut [i32], cap: usize, pass: P, a: Around)
    requires { Plain t.old cap × Within cap a }
    ensures { (t.new ≡ each_at (P.step pass cap) cap (corner_spots a.north a.east a.both) t.old) × Plain t.new cap }
{
    pass_kid(t, cap, pass, a.north, SW);
    pass_kid(t, cap, pass, a.north, SE);
    pass_kid(t, cap, pass, a.east, NW);
    pass_kid(t, cap, pass, a.east, SW);
    pass_kid(t, cap, pass, a.both, SW);
}

fn pass_sides<P: Pass>(t: &mut [i32], cap: usize, pass: P, a: Around)
    requires { Plain t.old cap × Within cap a }
    ensures { (t.new ≡ each_at (P.step pass cap) cap (side_spots a.south a.west) t.old) × Plain t.new cap }
{
    pass_kid(t, cap, pass, a.south, NW);
    pass_kid(t, cap, pass, a.south, NE);
    pass_kid(t, cap, pass, a.west, SE);
    pass_kid(t, cap, pass, a.west, NE);
}

// The nine rows that the kids of the row n want.
fn pass_wanted<P: Pass>(t: &mut [i32], cap: usize, pass: P, n: usize, a: Around)
    requires { Plain t.old cap × (n ≤ cap) × Within cap a }
    ensures { (t.new ≡ each_at (P.step pass cap) cap (kid_spots t.old cap n ++ corner_spots a.north a.east a.both) t.old) × Plain t.new cap }
{
    pass_kids(t, cap, pass, n);
    pass_corners(t, cap, pass, a);
}

// The flags of the thirteen rows whose flags a refinement or a removal can change: walls first, since points and cells are worked out from walls.
pub fn refresh_near(t: &mut [i32], cap: usize, d: u32, n: usize)
    requires { Plain t.old cap × (n ≤ cap) × (d ≤ 32) }
    ensures { (t.new ≡ refresh_near t.old cap d n) × Plain t.new cap }
{
    let a = rows_around(t, cap, n);
    pass_wanted(t, cap, Walls { d }, n, a);
    pass_wanted(t, cap, Points, n, a);
    pass_sides(t, cap, Points, a);
}

// The flags of a kid and what it carries.
fn put_cell(t: &mut [i32], v: &mut [f64], cap: usize, p: usize, w: usize, f: u32, c: Carried)
    requires { Plain t.old cap × (cap < length v.old) × (p ≤ cap) × (w < 4) × (f < 2147483648) }
    ensures { (t.new ≡ put_cell f c t.old (kid_at t.old cap (kid_spot p w))) × (v.new ≡ put_cell_amount c v.old (kid_at t.old cap (kid_spot p w))) × Plain t.new cap }
{
    let k = kid(t, cap, p, w);
    if k == 0 {
        return;
    }
    put(t, k, FLAGS, f);
    put_carried(t, v, k, c);
}

// The flags of the four kids and what they carry.
pub fn put_cells(t: &mut [i32], v: &mut [f64], cap: usize, n: usize, f: u32, c: Carried)
    requires { Plain t.old cap × (cap < length v.old) × (n ≤ cap) × (f < 2147483648) }
    ensures { (t.new ≡ put_cells f c cap (kid_spots t.old cap n) t.old) × (v.new ≡ put_amounts f c cap (kid_spots t.old cap n) t.old v.old) × Plain t.new cap }
{
    put_cell(t, v, cap, n, SW, f, c);
    put_cell(t, v, cap, n, SE, f, c);
    put_cell(t, v, cap, n, NW, f, c);
    put_cell(t, v, cap, n, NE, f, c);
}
