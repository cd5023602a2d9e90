// What the checks ask of the rows of a table.
#![tactic(auto)]

ghost use Rattle.std.specs.Prelude.{◌≡◌, ◌||◌, cond, ◌<◌, ◌≤◌, eqb};
ghost use Rattle.mesh.specs.Picture.{row_words};
ghost use Rattle.mesh.specs.Mesh.{sentenced_bit};
ghost use Rattle.table.specs.Words.{link_of, flag_of};
ghost use Rattle.table.specs.Plain.{Plain, Sized};
ghost use Rattle.asks.specs.Asks.{parental, kids_sentenced, lacking, beside_kid, finer_round, other_under};

use table::flag_bits::{COMPLETE, SENTENCED};
use table::words::{EAST, NE_KID, NORTH, NW_KID, SE_KID, SOUTH, SW_KID, WEST, flag, link};

// Whether the cell n has kids.
pub fn has_kids(t: &[i32], cap: usize, n: usize) -> bool
    requires { Sized t.now cap × (n ≤ cap) }
    ensures { result ≡ parental t.now cap n }
{
    link(t, cap, n, NE_KID) != 0
}

// Whether the patch that the word w of the row n names is sentenced.
fn is_sentenced(t: &[i32], cap: usize, n: usize, w: usize) -> bool
    requires { Sized t.now cap × (n ≤ cap) × (w < row_words) }
    ensures { result ≡ flag_of t.now sentenced_bit (link_of t.now cap n w) }
{
    flag(t, SENTENCED, link(t, cap, n, w))
}

// Whether the four kids of the row n are sentenced.
pub fn kids_sentenced(t: &[i32], cap: usize, n: usize) -> bool
    requires { Sized t.now cap × (n ≤ cap) }
    ensures { result ≡ kids_sentenced t.now cap n }
{
    let a = is_sentenced(t, cap, n, NE_KID);
    let b = is_sentenced(t, cap, n, SE_KID);
    let c = is_sentenced(t, cap, n, SW_KID);
    let e = is_sentenced(t, cap, n, NW_KID);
    a & (b & (c & e))
}

// 1 where the word w of the row n names none, and otherwise 0.
fn lacks(t: &[i32], cap: usize, n: usize, w: usize) -> usize
    requires { Plain t.now cap × (n ≤ cap) × (w < 9) }
    ensures { (result ≤ 1) × (result ≡ cond (eqb (link_of t.now cap n w) 0) 1 0) }
{
    usize::from(table::plain::link(t, cap, n, w) == 0)
}

// How many of the nine patches that a refinement of the cell n wants are missing.
pub fn lack_count(t: &[i32], cap: usize, n: usize) -> usize
    requires { Plain t.now cap × (n ≤ cap) }
    ensures { result ≡ lacking t.now cap n }
{
    let north = table::plain::link(t, cap, n, NORTH);
    let east = table::plain::link(t, cap, n, EAST);
    let far = table::plain::link(t, cap, east, NORTH);
    let own = lacks(t, cap, n, SW_KID)
        + lacks(t, cap, n, SE_KID)
        + lacks(t, cap, n, NW_KID)
        + lacks(t, cap, n, NE_KID);
    let above = lacks(t, cap, north, SW_KID) + lacks(t, cap, north, SE_KID);
    let beside = lacks(t, cap, east, NW_KID) + lacks(t, cap, east, SW_KID);
    own + above + beside + lacks(t, cap, far, SW_KID)
}

// Whether one of two neighbours of a kid has kids: the word k of the row n names the kid, and the words a and b of the kid's row the neighbours.
fn finer_beside(t: &[i32], cap: usize, n: usize, k: usize, a: usize, b: usize) -> bool
    requires { Plain t.now cap × (n ≤ cap) × (k < 9) × (a < 9) × (b < 9) }
    ensures { result ≡ (parental t.now cap (beside_kid t.now cap n k a) || parental t.now cap (beside_kid t.now cap n k b)) }
{
    let kid = table::plain::link(t, cap, n, k);
    let one = table::plain::link(t, cap, kid, a);
    let other = table::plain::link(t, cap, kid, b);
    let x = table::plain::link(t, cap, one, NE_KID);
    let y = table::plain::link(t, cap, other, NE_KID);
    (x != 0) | (y != 0)
}

// Whether a cell beside the four kids of the row n, and outside them, has kids.
pub fn finer_round(t: &[i32], cap: usize, n: usize) -> bool
    requires { Plain t.now cap × (n ≤ cap) }
    ensures { result ≡ finer_round t.now cap n }
{
    let a = finer_beside(t, cap, n, NE_KID, NORTH, EAST);
    let b = finer_beside(t, cap, n, SE_KID, EAST, SOUTH);
    let c = finer_beside(t, cap, n, SW_KID, SOUTH, WEST);
    let e = finer_beside(t, cap, n, NW_KID, NORTH, WEST);
    a | (b | (c | e))
}

// Whether a cell other than n lies l levels under the row m: the walk ends at the first one.
pub fn other_under(t: &[i32], cap: usize, n: usize, l: u32, m: usize) -> bool
    requires { Sized t.now cap × (m ≤ cap) }
    ensures { result ≡ other_under t.now cap n l m }
{
    if m == 0 {
        return false;
    }
    if l == 0 {
        return flag(t, COMPLETE, m) & (m != n);
    }
    if other_under(t, cap, n, l - 1, link(t, cap, m, SW_KID)) {
        return true;
    }
    if other_under(t, cap, n, l - 1, link(t, cap, m, SE_KID)) {
        return true;
    }
    if other_under(t, cap, n, l - 1, link(t, cap, m, NW_KID)) {
        return true;
    }
    other_under(t, cap, n, l - 1, link(t, cap, m, NE_KID))
}
