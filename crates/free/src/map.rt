// The free numbers from 1 to 4095, kept along a tape.
ghost use Rattle.std.specs.Prelude.{◌≡◌, Bool, true, false, ℕ, ◌+◌, ◌*◌, ◌/◌, ◌^◌, ◌<◌, ◌≤◌, length};
ghost use Rattle.mesh.specs.Picture.{row_words};
ghost use Rattle.table.specs.Words.{free_at};
ghost use Rattle.free.specs.FreeMap.{FreeNumbers, on, off, Low, map_bit, switched, total, First, first_from, Maps, Kept, IsMapOf};

use std::marker::Model;
use table::words::is_free;

// Bit n % 64 of word n / 64 is set if n is free, and bit w of `top` if word w is not 0. `count` says how many numbers are free.
#[derive(Clone, Copy)]
pub struct FreeMap {
    pub words: [u64; 64],
    pub top: u64,
    pub count: usize,
}

// The word over the words always is what they make it. The count is what `load`, `give` and `take` keep, and may be any in a map that is made by hand.
impl Model for FreeMap {
    ghost Value = { FreeNumbers };

    ghost view = { λ m. record { words = m.words; top = m.top; count = m.count } };

    ghost invariant = { λ m. Kept m.words m.top };

    ghost inverse = { λ v. record { words = v.words; top = v.top; count = v.count } };
}

// The word x with the bit b set.
fn set_bit(x: u64, b: usize) -> u64
    requires { b < 64 }
    ensures { result ≡ on x b }
{
    x | (1u64 << b)
}

// The word x with the bit b cleared.
fn clear_bit(x: u64, b: usize) -> u64
    requires { b < 64 }
    ensures { result ≡ off x b }
{
    let m = 1u64 << b;
    (x | m) ^ m
}

// The word w has become x, which had a bit more.
fn settle(top: u64, w: usize, x: u64) -> u64
    requires { w < 64 }
    ensures { (x ≡ 0 → result ≡ off top w) × (0 < x → result ≡ top) }
{
    if x == 0 { clear_bit(top, w) } else { top }
}

// The place of the lowest bit of x that is set.
fn lowest(x: u64) -> usize
    requires { 0 < x }
    ensures { Low x result }
{
    u64::trailing_zeros(x) as usize
}

// The bits of x from b on; and x is a word.
fn high(x: u64, b: usize) -> u64
    requires { b < 64 }
    ensures { (result ≡ x / 2 ^ b) × (x < 2 ^ 64) }
{
    x >> b
}

impl FreeMap {
    // It becomes the map of the free rows of a table, whatever it was of.
    pub fn load(&mut self, t: &[i32], cap: usize)
        requires { (length t.now ≡ row_words * (cap + 1)) × (cap ≤ 4095) × (free_at t.now 0 ≡ false) }
        ensures { IsMapOf self.new (free_at t.now) }
    {
        self.words = [0; 64];
        // As fields these two would be read and written at each free row.
        let mut top = 0;
        let mut count = 0;
        for n in (1..cap + 1).rev() {
            if is_free(t, n) {
                self.words[n / 64] = set_bit(self.words[n / 64], n % 64);
                top = set_bit(top, n / 64);
                count += 1;
            }
        }
        self.top = top;
        self.count = count;
    }

    // How many numbers are free.
    pub fn count(&self) -> usize
        ensures { (f : ℕ → Bool) → IsMapOf self.now f → result ≡ total f 4096 }
    {
        self.count
    }

    // 1 where the number n is not free, and otherwise 0.
    fn lacks(&self, n: usize) -> usize
        requires { n < 4096 }
        ensures { result + map_bit self.now.words n ≡ 1 }
    {
        1 - ((self.words[n / 64] >> (n % 64)) % 2) as usize
    }

    // The number n becomes free, whether it was or not.
    pub fn give(&mut self, n: usize)
        requires { (0 < n) × (n < 4096) }
        ensures { (f : ℕ → Bool) → IsMapOf self.old f → IsMapOf self.new (switched f n true) }
    {
        let more = self.lacks(n);
        let w = n / 64;
        self.words[w] = set_bit(self.words[w], n % 64);
        self.top = set_bit(self.top, w);
        // That of a map made by hand may be the largest number that there is.
        self.count = self.count.wrapping_add(more);
    }

    // The number n is free no longer, whether it was or not.
    pub fn take(&mut self, n: usize)
        requires { n < 4096 }
        ensures { (f : ℕ → Bool) → IsMapOf self.old f → IsMapOf self.new (switched f n false) }
    {
        let less = 1 - self.lacks(n);
        let w = n / 64;
        let x = clear_bit(self.words[w], n % 64);
        self.words[w] = x;
        self.top = settle(self.top, w, x);
        // That of a map made by hand may be 0.
        self.count = self.count.wrapping_sub(less);
    }

    // The first free number from s on, or 4096.
    fn from(&self, s: usize) -> usize
        requires { s < 4096 }
        ensures { (f : ℕ → Bool) → Maps self.now.words f → First f s result }
    {
        let w = s / 64;
        let here = high(self.words[w], s % 64);
        if here != 0 {
            return s + lowest(here);
        }
        let above = high(self.top, w) >> 1;
        if above == 0 {
            return 4096;
        }
        let v = w + 1 + lowest(above);
        v * 64 + lowest(self.words[v])
    }

    // "Each new patch takes the smallest free number": 0 if there is none.
    pub fn next(&self) -> usize
        ensures { (f : ℕ → Bool) → Maps self.now.words f → result ≡ first_from f 4095 1 }
    {
        let r = self.from(1);
        if r < 4096 { r } else { 0 }
    }
}
