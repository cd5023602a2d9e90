// The place of a row, its parent and its kids.
ghost use Rattle.std.specs.Prelude.{◌≡◌, ◌≤◌, ◌<◌};
ghost use Rattle.winds.specs.WindTable.{kid_l, kid_m};
ghost use Rattle.readable.specs.Readable.{Readable};
ghost use Rattle.checker_laws.specs.Rowwise.{root_ok, child_ok, place_ok, kid_ok, kids_ok};

use readable::index;
use readable::rows::{Levels, Rows};
use table::plain::link;
use table::words::{INDEX_I, INDEX_J, NE_KID, NW_KID, PARENT, SE_KID, SW_KID, is_free, says};
use worked::kidless;

// The root has no parent.
#[tactic(auto, unfolding(checker_laws::specs::Rowwise::root_ok))]
pub fn root_ok(levels: &Levels, n: usize) -> bool
    requires { n ≤ levels.now.cap }
    ensures { result ≡ root_ok levels.now.t.now levels.now.d n }
{
    levels.says(n, PARENT, 0)
        & (levels.depth(n) == 0)
        & levels.says(n, INDEX_I, 0)
        & levels.says(n, INDEX_J, 0)
}

// Any other row is a kid of its parent.
#[tactic(auto, unfolding(checker_laws::specs::Rowwise::child_ok))]
pub fn child_ok(levels: &Levels, n: usize) -> bool
    requires { n ≤ levels.now.cap }
    ensures { result ≡ child_ok levels.now.t.now levels.now.cap levels.now.d n }
{
    let p = levels.link(n, PARENT);
    if p == 0 {
        return false;
    }
    if is_free(levels.t, p) {
        return false;
    }
    if !levels.is_above(p, n) {
        return false;
    }
    let i = levels.index(n, INDEX_I);
    if !levels.says(p, INDEX_I, i / 2) {
        return false;
    }
    let j = levels.index(n, INDEX_J);
    if !levels.says(p, INDEX_J, j / 2) {
        return false;
    }
    // Digits that are written out make the word of the kid one of the compiler's.
    if i % 2 == 0 {
        if j % 2 == 0 {
            return levels.says(p, SW_KID, n as u32);
        }
        return levels.says(p, NW_KID, n as u32);
    }
    if j % 2 == 0 {
        return levels.says(p, SE_KID, n as u32);
    }
    levels.says(p, NE_KID, n as u32)
}

#[tactic(auto, unfolding(checker_laws::specs::Rowwise::place_ok))]
pub fn place_ok(rows: &Rows, n: usize) -> bool
    requires { n ≤ rows.now.levels.cap }
    ensures { result ≡ place_ok rows.now.levels.t.now rows.now.levels.cap rows.now.levels.d n }
{
    if n == 1 {
        return root_ok(&rows.levels, n);
    }
    child_ok(&rows.levels, n)
}

// The word of the kid in the wind at place w of the table of winds is 0, or names a row in use whose parent is the row n.
pub fn kid_ok(t: &[i32], cap: usize, n: usize, w: usize) -> bool
    requires { Readable t.now cap × (n ≤ cap) × (w < 4) }
    ensures { result ≡ kid_ok t.now cap n (kid_l w) (kid_m w) }
{
    let k = link(t, cap, n, w + 1);
    if k == 0 {
        return true;
    }
    let e = winds::kid_digits(w);
    !is_free(t, k)
        & says(t, k, PARENT, n as u32)
        & (index(t, cap, k, INDEX_I) % 2 == e.l)
        & (index(t, cap, k, INDEX_J) % 2 == e.m)
}

#[tactic(auto, unfolding(checker_laws::specs::Rowwise::kids_ok))]
pub fn kids_ok(rows: &Rows, n: usize) -> bool
    requires { n ≤ rows.now.levels.cap }
    ensures { result ≡ kids_ok rows.now.levels.t.now rows.now.levels.cap n }
{
    let levels = &rows.levels;
    if kidless(levels.t, levels.cap, n) {
        return true;
    }
    if !kid_ok(levels.t, levels.cap, n, winds::NE) {
        return false;
    }
    if !kid_ok(levels.t, levels.cap, n, winds::SE) {
        return false;
    }
    if !kid_ok(levels.t, levels.cap, n, winds::SW) {
        return false;
    }
    kid_ok(levels.t, levels.cap, n, winds::NW)
}
