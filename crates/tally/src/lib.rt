// The leaf counts beside a table (02, No. 5): how many leaves of each level have each status, level l and status k at place 3l + k.
#![tactic(auto)]

pub mod full;
pub mod moves;

ghost use Rattle.std.specs.Prelude.{◌≡◌, ◌+◌, ◌<◌, ◌≤◌, length, get_or};
ghost use Rattle.mesh.specs.LeafCounts.{count_places};
ghost use Rattle.mesh.specs.Picture.{level_word};
ghost use Rattle.table.specs.Plain.{Plain};
ghost use Rattle.table.specs.Words.{word_of};
ghost use Rattle.carried.specs.Carried.{status_of};
ghost use Rattle.tally.specs.CountSteps.{more, less};
ghost use Rattle.tally.specs.TallyRows.{place_for, row_place, Placed};

use carried::{Carried, carried_at, status};
use table::plain::word;
use table::words::LEVEL;

pub const COUNT_PLACES: usize = 39;

// The place of a level and of what a cell of it carries.
pub fn place(level: u32, x: Carried) -> usize
    requires { (level ≤ 12) × (status_of x ≤ 2) }
    ensures { (result < count_places) × (result ≡ place_for level x) }
{
    (3 * level + status(x)) as usize
}

// The level of the row n, from 0 up.
pub fn level(t: &[i32], cap: usize, n: usize) -> u32
    requires { Plain t.now cap × (n ≤ cap) × (word_of t.now n level_word ≤ 12) }
    ensures { result ≡ word_of t.now n level_word }
{
    word(t, n, LEVEL)
}

// The place of the row n.
pub fn row_place(t: &[i32], v: &[f64], cap: usize, n: usize) -> usize
    requires { Plain t.now cap × (cap < length v.now) × (n ≤ cap) × Placed t.now v.now n }
    ensures { (result < count_places) × (result ≡ row_place t.now v.now n) }
{
    place(level(t, cap, n), carried_at(t, v, n))
}

// So many more at a place.
pub fn add(c: &mut [u32], i: usize, n: u32)
    requires { (i < length c.old) × (get_or c.old i 0 + n < 4294967296) }
    ensures { c.new ≡ more c.old i n }
{
    c[i] += n;
}

// One less at a place.
pub fn take(c: &mut [u32], i: usize)
    requires { (i < length c.old) × (1 ≤ get_or c.old i 0) }
    ensures { c.new ≡ less c.old i }
{
    c[i] -= 1;
}
