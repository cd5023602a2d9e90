// Rows without a patch.
ghost use Rattle.std.specs.Prelude.{◌≡◌, ◌+◌, ◌*◌, ◌≤◌, ◌<◌, eqb, length};
ghost use Rattle.mesh.specs.Picture.{flags_word, row_words};
ghost use Rattle.table.specs.Words.{word_of};
ghost use Rattle.checker_laws.specs.Rowwise.{below, empty_ok, zero_ok};

use carried::{carried_at, is_nothing};
use readable::rows::Rows;
use table::words::{
    EAST, FLAGS, INDEX_I, INDEX_J, LEVEL, NE_KID, NORTH, NW_KID, PARENT, SE_KID, SOUTH, SW_KID,
    WEST, says,
};

// Whether the links, the level and the indices of the row n are 0.
fn unlinked(t: &[i32], n: usize) -> bool
    requires { n * row_words + row_words ≤ length t.now }
    ensures { result ≡ below flags_word (λ w. eqb (word_of t.now n w) 0) }
{
    says(t, n, PARENT, 0)
        & says(t, n, NE_KID, 0)
        & says(t, n, SE_KID, 0)
        & says(t, n, SW_KID, 0)
        & says(t, n, NW_KID, 0)
        & says(t, n, NORTH, 0)
        & says(t, n, EAST, 0)
        & says(t, n, SOUTH, 0)
        & says(t, n, WEST, 0)
        & says(t, n, LEVEL, 0)
        & says(t, n, INDEX_I, 0)
        & says(t, n, INDEX_J, 0)
}

// Whether the row n has nothing but flags.
#[tactic(auto, unfolding(checker_laws::specs::Rowwise::empty_ok))]
pub fn empty_ok(t: &[i32], v: &[f64], n: usize) -> bool
    requires { (n * row_words + row_words ≤ length t.now) × (n < length v.now) }
    ensures { result ≡ empty_ok t.now v.now n }
{
    unlinked(t, n) & is_nothing(carried_at(t, v, n))
}

// Whether row 0 is the nil patch.
#[tactic(auto, unfolding(checker_laws::specs::Rowwise::zero_ok))]
pub fn zero_ok(rows: &Rows) -> bool
    requires { rows.now.levels.cap < length rows.now.v.now }
    ensures { result ≡ zero_ok rows.now.levels.t.now rows.now.v.now }
{
    empty_ok(rows.levels.t, rows.v, 0) & rows.levels.says(0, FLAGS, 0)
}
