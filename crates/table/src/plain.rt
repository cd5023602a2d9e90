// Words that are read as they stand: no link is kept within the table, and no sign is asked for.
ghost use Rattle.std.specs.Prelude.{◌≡◌, ◌+◌, ◌*◌, ◌<◌, ◌≤◌, length};
ghost use Rattle.mesh.specs.Picture.{row_words, flags_word, level_word};
ghost use Rattle.table.specs.Words.{word_of, link_of, flag_of, depth_of};
ghost use Rattle.table.specs.Plain.{Unsigned, Plain};

use crate::words::{FLAGS, LEVEL, raw};

// The word w of the row n, which has no sign.
pub fn word(t: &[i32], n: usize, w: usize) -> u32
    requires { (n * row_words + w < length t.now) × Unsigned t.now n w }
    ensures { result ≡ word_of t.now n w }
{
    raw(t, n, w) as u32
}

// The row that the word w of the row n names, or 0.
pub fn link(t: &[i32], cap: usize, n: usize, w: usize) -> usize
    requires { Plain t.now cap × (n ≤ cap) × (w < 9) }
    ensures { (result ≤ cap) × (result ≡ link_of t.now cap n w) }
{
    word(t, n, w) as usize
}

// The depth of the row n, whose level is not below that of depth 0.
pub fn depth(t: &[i32], d: u32, n: usize) -> u32
    requires { (n * row_words + row_words ≤ length t.now) × (d ≤ 32) × (word_of t.now n level_word < 2147483648 + d) × (depth_of t.now d n < 2147483648) }
    ensures { result ≡ depth_of t.now d n }
{
    (raw(t, n, LEVEL) + d as i32) as u32
}

// The flags of the row n.
pub fn flags(t: &[i32], cap: usize, n: usize) -> u32
    requires { Plain t.now cap × (n ≤ cap) }
    ensures { result ≡ word_of t.now n flags_word }
{
    word(t, n, FLAGS)
}

// The flag of bit k.
pub fn flag(t: &[i32], cap: usize, k: u32, n: usize) -> bool
    requires { Plain t.now cap × (n ≤ cap) × (k < 32) }
    ensures { result ≡ flag_of t.now k n }
{
    (flags(t, cap, n) >> k) % 2 == 1
}
