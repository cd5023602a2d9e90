// A row found from the root down, by the digits of its indices.
ghost use Rattle.std.specs.Prelude.{◌≡◌, cond, ◌+◌, ◌<◌, ◌≤◌, eqb};
ghost use Rattle.table.specs.Plain.{Plain};
ghost use Rattle.table.specs.Words.{link_of};
ghost use Rattle.worked.specs.Worked.{down_to};

use crate::kid_word;
use table::plain::link;

// The root, if these are its indices.
fn root_at(i: u32, j: u32) -> usize
    ensures { (result ≤ 1) × (result ≡ cond (eqb (i + j) 0) 1 0) }
{
    if i == 0 && j == 0 { 1 } else { 0 }
}

// The row that the word w of the row n names; row 0 names none.
fn named_by(t: &[i32], cap: usize, n: usize, w: usize) -> usize
    requires { Plain t.now cap × (n ≤ cap) × (w < 9) }
    ensures { (result ≤ cap) × (result ≡ cond (eqb n 0) 0 (link_of t.now cap n w)) }
{
    if n == 0 { 0 } else { link(t, cap, n, w) }
}

// The row of the place with the indices i and j, d kids down from the root, or 0.
pub fn down_to(t: &[i32], cap: usize, d: u32, i: u32, j: u32) -> usize
    requires { Plain t.now cap × (1 ≤ cap) × (d < 32) }
    ensures { (result ≤ cap) × (result ≡ down_to t.now cap d i j) }
{
    let mut n = root_at(i >> d, j >> d);
    for e in (0..d).rev() {
        n = named_by(t, cap, n, kid_word((i >> e) % 2, (j >> e) % 2));
    }
    n
}
