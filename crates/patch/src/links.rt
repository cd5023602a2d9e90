// The steps of a change on the words of a table: a new patch is linked in, and a patch that goes is taken out.
ghost use Rattle.std.specs.Prelude.{◌≡◌, ◌+◌, ◌*◌, ◌<◌, ◌≤◌, length, get_or};
ghost use Rattle.mesh.specs.Place.{NE};
ghost use Rattle.mesh.specs.Winds.{winds};
ghost use Rattle.mesh.specs.Picture.{row_words};
ghost use Rattle.table.specs.Plain.{Plain};
ghost use Rattle.edit_laws.specs.PatchSteps.{put_unless_nil, place_in, link_in, drop_side, take_out};
ghost use Rattle.edit_laws.specs.LinkBy.{link_by};
ghost use Rattle.patch.specs.Small.{Small};

use table::plain;
use table::plain::link;
use table::words::{FLAGS, INDEX_I, INDEX_J, PARENT, word};
use table::writes::{clear_row, put, put_level};
use winds::{E, N, S, W};
use worked::{kid_word, side_by};

// Writes x as the word w of the row n, unless n is 0.
fn put_unless_nil(t: &mut [i32], n: usize, w: usize, x: u32)
    requires { (n * row_words + w < length t.old) × (x < 2147483648) }
    ensures { t.new ≡ put_unless_nil t.old n w x }
{
    if n == 0 {
        return;
    }
    put(t, n, w, x);
}

// The row k, a kid of the row p whose digits are l and m, and its neighbour in the wind at place w of the table of winds name each other.
fn link_side(t: &mut [i32], cap: usize, p: usize, l: u32, m: u32, k: usize, w: usize)
    requires { Plain t.old cap × (p ≤ cap) × (l < 2) × (m < 2) × (k ≤ cap) × (w < 8) }
    ensures { (t.new ≡ link_by t.old cap p l m k (get_or winds w NE)) × Plain t.new cap }
{
    let x = side_by(t, cap, p, l, m, w);
    let o = winds::wind(w).opposite;
    put(t, k, w + 1, x as u32);
    put_unless_nil(t, x, o + 1, k as u32);
}

// The free row k becomes the kid of the row p whose digits are l and m, without a kid, a cell or a flag.
fn place_in(t: &mut [i32], d: u32, p: usize, l: u32, m: u32, k: usize)
    requires { (p * row_words + row_words ≤ length t.old) × (k * row_words + row_words ≤ length t.old) × (p ≤ 4095) × (k ≤ 4095) × (d ≤ 32) × (l < 2) × (m < 2) × Small 1073741824 t.old d p }
    ensures { t.new ≡ place_in t.old d p l m k }
{
    let e = plain::depth(t, d, p);
    let i = plain::word(t, p, INDEX_I);
    let j = plain::word(t, p, INDEX_J);
    put(t, k, PARENT, p as u32);
    put_level(t, k, e + 1, d);
    put(t, k, INDEX_I, 2 * i + l);
    put(t, k, INDEX_J, 2 * j + m);
    put(t, k, FLAGS, 0);
    put(t, p, kid_word(l, m), k as u32);
}

// The free row k becomes that kid, and it and its neighbours name each other.
pub fn link_in(t: &mut [i32], cap: usize, d: u32, p: usize, l: u32, m: u32, k: usize)
    requires { Plain t.old cap × (p ≤ cap) × (k ≤ cap) × (d ≤ 32) × (l < 2) × (m < 2) × Small 1073741824 t.old d p }
    ensures { (t.new ≡ link_in t.old cap d p l m k) × Plain t.new cap }
{
    place_in(t, d, p, l, m, k);
    link_side(t, cap, p, l, m, k, N);
    link_side(t, cap, p, l, m, k, E);
    link_side(t, cap, p, l, m, k, S);
    link_side(t, cap, p, l, m, k, W);
}

// The neighbour in the wind at place w, if there is one, does not name the row k any more.
fn drop_side(t: &mut [i32], cap: usize, k: usize, w: usize)
    requires { Plain t.old cap × (k ≤ cap) × (w < 8) }
    ensures { (t.new ≡ drop_side t.old cap k (get_or winds w NE)) × Plain t.new cap }
{
    let x = link(t, cap, k, w + 1);
    let o = winds::wind(w).opposite;
    put_unless_nil(t, x, o + 1, 0);
}

// The row k, which has no kids, is free.
pub fn take_out(t: &mut [i32], cap: usize, k: usize)
    requires { Plain t.old cap × (1 ≤ k) × (k ≤ cap) }
    ensures { (t.new ≡ take_out t.old cap k) × Plain t.new cap }
{
    let p = link(t, cap, k, PARENT);
    let w = kid_word(word(t, k, INDEX_I) % 2, word(t, k, INDEX_J) % 2);
    put(t, p, w, 0);
    drop_side(t, cap, k, N);
    drop_side(t, cap, k, E);
    drop_side(t, cap, k, S);
    drop_side(t, cap, k, W);
    clear_row(t, k);
}
