// The rows of a lent table that can be read as they stand.
ghost use Rattle.std.specs.Prelude.{◌≡◌, ◌+◌, ◌≤◌, ◌<◌, eqb};
ghost use Rattle.mesh.specs.Place.{base};
ghost use Rattle.mesh.specs.Picture.{flags_word, level_word, link_words, row_words};
ghost use Rattle.header.specs.Headers.{header_of};
ghost use Rattle.table.specs.Words.{word_of, link_of, flag_of, depth_of};
ghost use Rattle.readable.specs.Readable.{Readable, Levelled};

use header::Header;

/// A lent table of that capacity, whose words can be read as they stand, with level 0 at depth d.
#[derive(Clone, Copy)]
pub struct Levels<'a> {
    pub t: &'a [i32],
    pub cap: usize,
    pub d: u32,
    pub ghost readable: { Readable t.now cap },
    pub ghost levelled: { Levelled t.now cap d },
}

/// The same with its values and its header, by which level 0 is at that depth.
#[derive(Clone, Copy)]
pub struct Rows<'a> {
    pub levels: Levels<'a>,
    pub v: &'a [f64],
    pub header: Header,
    pub ghost rooted: { 1 ≤ levels.cap },
    pub ghost depth_is: { levels.d ≡ base (header_of header).grid },
    pub ghost shallow: { levels.d ≤ 6 },
    pub ghost tall: { 1 ≤ header.rows },
}

impl Levels<'_> {
    /// The row that the word w of the row n names, or 0.
    pub fn link(&self, n: usize, w: usize) -> usize
        requires { (n ≤ self.now.cap) × (w < link_words) }
        ensures { (result ≤ self.now.cap) × (result ≡ link_of self.now.t.now self.now.cap n w) }
    {
        table::plain::link(self.t, self.cap, n, w)
    }

    /// The flag of bit k of the row n.
    pub fn flag(&self, k: u32, n: usize) -> bool
        requires { (n ≤ self.now.cap) × (k < 32) }
        ensures { result ≡ flag_of self.now.t.now k n }
    {
        table::plain::flag(self.t, self.cap, k, n)
    }

    /// Whether the word w of the row n is the number k.
    pub fn says(&self, n: usize, w: usize, k: u32) -> bool
        requires { (n ≤ self.now.cap) × (w < row_words) × (k < 2147483648) }
        ensures { result ≡ eqb (word_of self.now.t.now n w) k }
    {
        table::words::says(self.t, n, w, k)
    }

    /// An index of the row n.
    pub fn index(&self, n: usize, w: usize) -> u32
        requires { (n ≤ self.now.cap) × (level_word < w) × (w < flags_word) }
        ensures { result ≡ word_of self.now.t.now n w }
    {
        crate::index(self.t, self.cap, n, w)
    }

    /// The depth of the row n.
    pub fn depth(&self, n: usize) -> u32
        requires { n ≤ self.now.cap }
        ensures { (result ≤ self.now.d + 12) × (result ≡ depth_of self.now.t.now self.now.d n) }
    {
        table::plain::depth(self.t, self.d, n)
    }

    /// Whether the row p is one level above the row n. With the two levels counted from one fixed depth the compiler needs no d here.
    pub fn is_above(&self, p: usize, n: usize) -> bool
        requires { (p ≤ self.now.cap) × (n ≤ self.now.cap) }
        ensures { result ≡ eqb (depth_of self.now.t.now self.now.d p + 1) (depth_of self.now.t.now self.now.d n) }
    {
        table::plain::depth(self.t, 32, p) + 1 == table::plain::depth(self.t, 32, n)
    }
}
