// Words that are read as they stand, once every row has been looked at.
#![tactic(auto)]

pub mod rows;

ghost use Rattle.std.specs.Prelude.{◌≡◌, ◌+◌, ◌*◌, ◌≤◌, ◌<◌, suc, leb, length};
ghost use Rattle.mesh.specs.Picture.{row_words, level_word, flags_word};
ghost use Rattle.table.specs.Plain.{Sized};
ghost use Rattle.table.specs.Words.{code, depth_from, word_of};
ghost use Rattle.checker_laws.specs.Rowwise.{below};
ghost use Rattle.readable.specs.Readable.{linked, positive, plain_row, Readable};

use table::plain::word;
use table::words::{
    EAST, FLAGS, INDEX_I, INDEX_J, LEVEL, NE_KID, NORTH, NW_KID, PARENT, SE_KID, SOUTH, SW_KID,
    WEST, named, raw,
};

// Whether the word w of the row n is not negative.
pub fn is_positive(t: &[i32], n: usize, w: usize) -> bool
    requires { n * row_words + w < length t.now }
    ensures { result ≡ positive t.now n w }
{
    raw(t, n, w) >= 0
}

// Whether each link of the row n names a row or none.
fn linked_ok(t: &[i32], cap: usize, n: usize) -> bool
    requires { Sized t.now cap × (n ≤ cap) }
    ensures { result ≡ linked t.now cap n }
{
    named(t, cap, n, PARENT)
        & named(t, cap, n, NE_KID)
        & named(t, cap, n, SE_KID)
        & named(t, cap, n, SW_KID)
        & named(t, cap, n, NW_KID)
        & named(t, cap, n, NORTH)
        & named(t, cap, n, EAST)
        & named(t, cap, n, SOUTH)
        & named(t, cap, n, WEST)
}

// Whether x is a level that a row can have, from that of the root to 12.
fn is_level(d: u32, x: i32) -> bool
    requires { d ≤ 32 }
    ensures { result ≡ leb (depth_from d (code x)) (d + 12) }
{
    (!(d as i32) < x) & (x <= 12)
}

// Whether the row n can be read as it stands.
fn plain_row(t: &[i32], cap: usize, d: u32, n: usize) -> bool
    requires { Sized t.now cap × (n ≤ cap) × (d ≤ 32) }
    ensures { result ≡ plain_row t.now cap d n }
{
    linked_ok(t, cap, n)
        & is_level(d, raw(t, n, LEVEL))
        & is_positive(t, n, INDEX_I)
        & is_positive(t, n, INDEX_J)
        & is_positive(t, n, FLAGS)
}

// Whether every row can.
pub fn plain(t: &[i32], cap: usize, d: u32) -> bool
    requires { Sized t.now cap × (d ≤ 32) }
    ensures { result ≡ below (suc cap) (plain_row t.now cap d) }
{
    (0..cap + 1).all(|n| plain_row(t, cap, d, n))
}

// An index of the row n.
pub fn index(t: &[i32], cap: usize, n: usize, w: usize) -> u32
    requires { Readable t.now cap × (n ≤ cap) × (level_word < w) × (w < flags_word) }
    ensures { result ≡ word_of t.now n w }
{
    word(t, n, w)
}
