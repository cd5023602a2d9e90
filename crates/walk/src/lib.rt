// The rows of a table on the way down: which are leaves, and which have no kids.
#![tactic(auto)]

ghost use Rattle.std.specs.Prelude.{◌≡◌, ◌+◌, ◌*◌, ◌≤◌, length};
ghost use Rattle.mesh.specs.Picture.{row_words};
ghost use Rattle.table.specs.Plain.{Plain, Sized};
ghost use Rattle.walk.specs.WalkRows.{bare_row, leaf_row};

pub mod checked;

use table::flag_bits::COMPLETE;
use table::words::{NE_KID, NW_KID, SE_KID, SW_KID, says};
use table::{plain, words};

// Whether the row n is a leaf.
pub fn leaf_row(t: &[i32], cap: usize, n: usize) -> bool
    requires { Sized t.now cap × (n ≤ cap) }
    ensures { result ≡ leaf_row t.now cap n }
{
    words::flag(t, COMPLETE, n) & (words::link(t, cap, n, NE_KID) == 0)
}

// The same of a table whose words are read as they stand.
pub fn leaf(t: &[i32], cap: usize, n: usize) -> bool
    requires { Plain t.now cap × (n ≤ cap) }
    ensures { result ≡ leaf_row t.now cap n }
{
    if !plain::flag(t, cap, COMPLETE, n) {
        return false;
    }
    plain::link(t, cap, n, NE_KID) == 0
}

// Whether the row n has no kids.
pub fn is_bare(t: &[i32], n: usize) -> bool
    requires { n * row_words + row_words ≤ length t.now }
    ensures { result ≡ bare_row t.now n }
{
    says(t, n, NE_KID, 0)
        & (says(t, n, SE_KID, 0) & (says(t, n, SW_KID, 0) & says(t, n, NW_KID, 0)))
}
