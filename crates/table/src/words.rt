// The words of a row as numbers, and its links as rows of the table, whatever stands in it.
ghost use Rattle.std.specs.Prelude.{◌≡◌, ◌+◌, ◌*◌, ◌<◌, ◌≤◌, eqb, length, get_or, pos};
ghost use Rattle.mesh.specs.Picture.{row_words};
ghost use Rattle.table.specs.Plain.{Sized};
ghost use Rattle.table.specs.Words.{code, word_of, link_of, flag_of, free_at, taken};

use crate::flag_bits::FREE;

// The words of a row.
pub const ROW_WORDS: usize = 14;

pub const PARENT: usize = 0;

// The kids, in the order of the winds.
pub const NE_KID: usize = winds::NE + 1;

pub const SE_KID: usize = winds::SE + 1;

pub const SW_KID: usize = winds::SW + 1;

pub const NW_KID: usize = winds::NW + 1;

// The neighbours, in the order of the winds.
pub const NORTH: usize = 5;

pub const EAST: usize = 6;

pub const SOUTH: usize = 7;

pub const WEST: usize = 8;

pub const LEVEL: usize = 9;

pub const INDEX_I: usize = 10;

pub const INDEX_J: usize = 11;

pub const FLAGS: usize = 12;

pub const STATUS: usize = 13;

// A signed word as a number.
pub fn coded(x: i32) -> u32
    ensures { result ≡ code x }
{
    if x >= 0 {
        x as u32
    } else {
        !x as u32 + 2147483648
    }
}

pub fn raw(t: &[i32], n: usize, w: usize) -> i32
    requires { n * row_words + w < length t.now }
    ensures { result ≡ get_or t.now (n * row_words + w) (pos 0) }
{
    t[n * ROW_WORDS + w]
}

// The word w of the row n.
pub fn word(t: &[i32], n: usize, w: usize) -> u32
    requires { n * row_words + w < length t.now }
    ensures { result ≡ word_of t.now n w }
{
    coded(raw(t, n, w))
}

// The row that the word w of the row n names, or 0 where it names none of 1 to the capacity.
pub fn link(t: &[i32], cap: usize, n: usize, w: usize) -> usize
    requires { Sized t.now cap × (n ≤ cap) × (w < row_words) }
    ensures { (result ≤ cap) × (result ≡ link_of t.now cap n w) }
{
    // A capacity that is seen to fit 16 bits makes the two tests one.
    let top = cap as u16 as i32;
    let x = raw(t, n, w);
    if (0 <= x) & (x <= top) { x as usize } else { 0 }
}

// Whether the word w of the row n is the number of a row, or 0.
pub fn named(t: &[i32], cap: usize, n: usize, w: usize) -> bool
    requires { Sized t.now cap × (n ≤ cap) × (w < row_words) }
    ensures { result ≡ eqb (word_of t.now n w) (link_of t.now cap n w) }
{
    let top = cap as u16 as i32;
    let x = raw(t, n, w);
    (0 <= x) & (x <= top)
}

// Whether the word w of the row n is the number k.
pub fn says(t: &[i32], n: usize, w: usize, k: u32) -> bool
    requires { (n * row_words + w < length t.now) × (k < 2147483648) }
    ensures { result ≡ eqb (word_of t.now n w) k }
{
    raw(t, n, w) == k as i32
}

// The flag of bit k.
pub fn flag(t: &[i32], k: u32, n: usize) -> bool
    requires { (n * row_words + row_words ≤ length t.now) × (k < 32) }
    ensures { result ≡ flag_of t.now k n }
{
    (word(t, n, FLAGS) >> k) % 2 == 1
}

// Whether the row n is a free row.
pub fn is_free(t: &[i32], n: usize) -> bool
    requires { n * row_words + row_words ≤ length t.now }
    ensures { result ≡ free_at t.now n }
{
    says(t, n, FLAGS, FREE)
}

// Whether the number n is that of a patch.
pub fn is_taken(t: &[i32], cap: usize, n: usize) -> bool
    requires { Sized t.now cap }
    ensures { result ≡ taken t.now cap n }
{
    (1 <= n) & (n <= cap) && !is_free(t, n)
}
