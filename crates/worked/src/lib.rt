// The words that are worked out from other rows' words: neighbours, whether there are kids and cells nearby, and flags by their weights.
#![tactic(auto)]

pub mod around;
pub mod down;
pub mod pairs;

ghost use Rattle.std.specs.Prelude.{◌≡◌, cond, ◌*◌, ◌<◌, ◌≤◌, get_or};
ghost use Rattle.mesh.specs.Place.{NE};
ghost use Rattle.mesh.specs.Winds.{winds};
ghost use Rattle.worked.specs.FlagDigits.{four};
ghost use Rattle.table.specs.Plain.{Plain};
ghost use Rattle.table.specs.Words.{link_of};
ghost use Rattle.worked.specs.Worked.{kid_word, stays_in, side_by, kidless, touched_in};

use table::flag_bits::COMPLETE;
use table::plain::{flag, link};
use table::words::{NE_KID, NW_KID, SE_KID, SOUTH, SW_KID, WEST};

// The word of the kid whose column ends in the digit l and whose row ends in the digit m.
pub fn kid_word(l: u32, m: u32) -> usize
    requires { (l < 2) × (m < 2) }
    ensures { (result < 5) × (result ≡ kid_word l m) }
{
    winds::kid_wind(l, m) + 1
}

// Whether a digit that was moved is still one of the same two.
pub fn stays_in(a: u32) -> bool
    ensures { result ≡ stays_in a }
{
    (1 <= a) & (a <= 2)
}

// The row that a neighbour is a kid of: the parent p, or the parent's neighbour.
fn hub(t: &[i32], cap: usize, p: usize, w: usize, stays: bool) -> usize
    requires { Plain t.now cap × (p ≤ cap) × (w < 9) }
    ensures { (result ≤ cap) × (result ≡ cond stays p (link_of t.now cap p w)) }
{
    if stays { p } else { link(t, cap, p, w) }
}

// The row that is the neighbour in the wind at place w of the table of winds: p is the parent, and the place ends in the digits l and m.
pub fn side_by(t: &[i32], cap: usize, p: usize, l: u32, m: u32, w: usize) -> usize
    requires { Plain t.now cap × (p ≤ cap) × (l < 2) × (m < 2) × (w < 8) }
    ensures { (result ≤ cap) × (result ≡ side_by t.now cap p l m (get_or winds w NE)) }
{
    let c = winds::wind(w);
    let a = l + c.east;
    let b = m + c.north;
    let q = hub(t, cap, p, w + 1, stays_in(a) & stays_in(b));
    link(t, cap, q, kid_word((a + 1) % 2, (b + 1) % 2))
}

// Whether the row n has no kid.
pub fn kidless(t: &[i32], cap: usize, n: usize) -> bool
    requires { Plain t.now cap × (n ≤ cap) }
    ensures { result ≡ kidless t.now cap n }
{
    let a = link(t, cap, n, NE_KID);
    let b = link(t, cap, n, SE_KID);
    let c = link(t, cap, n, SW_KID);
    let e = link(t, cap, n, NW_KID);
    (a == 0) & ((b == 0) & ((c == 0) & (e == 0)))
}

// Whether a cell touches the patch of the row n.
#[tactic(auto, unfolding(crate::specs::Worked::touched_in))]
pub fn touched(t: &[i32], cap: usize, n: usize) -> bool
    requires { Plain t.now cap × (n ≤ cap) }
    ensures { result ≡ touched_in t.now cap n }
{
    let west = link(t, cap, n, WEST);
    let south = link(t, cap, n, SOUTH);
    let both = link(t, cap, west, SOUTH);
    flag(t, cap, COMPLETE, n)
        | (flag(t, cap, COMPLETE, west)
            | (flag(t, cap, COMPLETE, south) | flag(t, cap, COMPLETE, both)))
}

// The number whose four binary digits these are, lowest first.
#[tactic(auto, unfolding(crate::specs::FlagDigits::four))]
pub fn digits_of_four(a: bool, b: bool, c: bool, e: bool) -> u32
    ensures { (result < 16) × (result ≡ four a b c e) }
{
    weigh(a, 1) + weigh(b, 2) + weigh(c, 4) + weigh(e, 8)
}

// The weight w where b holds, and otherwise 0.
pub fn weigh(b: bool, w: u32) -> u32
    ensures { (result ≤ w) × (result ≡ w * cond b 1 0) }
{
    if b { w } else { 0 }
}
