// Writes of words and rows.
ghost use Rattle.std.specs.Prelude.{◌≡◌, ◌+◌, ◌*◌, ◌<◌, ◌≤◌, length, set, pos};
ghost use Rattle.std.proofs.Math.IntN.{sub_ℕ};
ghost use Rattle.mesh.specs.Picture.{row_words, level_word};
ghost use Rattle.table.specs.Writes.{put_row, free_row, nil_row};

use crate::flag_bits::FREE;
use crate::words::{FLAGS, LEVEL, ROW_WORDS};

// Writes x as the word w of the row n.
pub fn put(t: &mut [i32], n: usize, w: usize, x: u32)
    requires { (n * row_words + w < length t.old) × (x < 2147483648) }
    ensures { t.new ≡ set t.old (n * row_words + w) (pos x) }
{
    t[n * ROW_WORDS + w] = x as i32;
}

// The level of a depth, with level 0 at depth d.
pub fn level(depth: u32, d: u32) -> i32
    requires { (depth < 2147483648) × (d < 2147483648) }
    ensures { result ≡ sub_ℕ depth d }
{
    if depth < d {
        return !((d - 1 - depth) as i32);
    }
    (depth - d) as i32
}

// Writes the level of a depth into the row n.
pub fn put_level(t: &mut [i32], n: usize, depth: u32, d: u32)
    requires { (n * row_words + row_words ≤ length t.old) × (depth < 2147483648) × (d < 2147483648) }
    ensures { t.new ≡ set t.old (n * row_words + level_word) (sub_ℕ depth d) }
{
    t[n * ROW_WORDS + LEVEL] = level(depth, d);
}

// Writes the row n whole.
pub fn put_row(t: &mut [i32], n: usize, x: [i32; ROW_WORDS])
    requires { n * row_words + row_words ≤ length t.old }
    ensures { t.new ≡ put_row t.old n x }
{
    let start = n * ROW_WORDS;
    t[start..start + ROW_WORDS].copy_from_slice(&x);
}

// Writes a free row.
pub fn clear_row(t: &mut [i32], n: usize)
    requires { n * row_words + row_words ≤ length t.old }
    ensures { t.new ≡ put_row t.old n free_row }
{
    let mut x = [0i32; ROW_WORDS];
    x[FLAGS] = FREE as i32;
    put_row(t, n, x);
}

// Writes the row of the nil patch.
pub fn nil_row(t: &mut [i32], n: usize)
    requires { n * row_words + row_words ≤ length t.old }
    ensures { t.new ≡ put_row t.old n nil_row }
{
    let x = [0i32; ROW_WORDS];
    put_row(t, n, x);
}
