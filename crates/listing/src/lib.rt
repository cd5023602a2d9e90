// The rows that a scan lists: their numbers go into a sink, which writes or counts them as far as they fit.
#![tactic(auto)]

ghost use Rattle.std.specs.Prelude.{◌≡◌, cond, [], ◌∷◌, ◌+◌, ◌≤◌, min, ◌*◌, leb, length};
ghost use Rattle.mesh.specs.Picture.{row_words};
ghost use Rattle.table.specs.Words.{depth_of};
ghost use Rattle.walk.specs.WalkRows.{is_end};
ghost use Rattle.listing.specs.ListedRows.{listed_row, from_level};
ghost use Rattle.listing.specs.Kinds.{number_of};
ghost use Rattle.listing.specs.ScanLists.{lists, rows_from, rows_under};
ghost use Rattle.listing.specs.Written.{WroteWhatFits};

pub mod kinds;
pub mod scans;
pub mod sinks;

use kinds::Kind;
use scans::Scan;
use sinks::{Count, Numbers, Sink};
use table::flag_bits::{COMPLETE, WALL_H, WALL_V};
use table::plain::{flag, link};
use table::words::{LEVEL, raw};
use walk::{is_bare, leaf};

// Whether nothing hangs under the row n: no level is left, or it has no kids.
fn is_end(t: &[i32], left: u32, n: usize) -> bool
    requires { n * row_words + row_words ≤ length t.now }
    ensures { result ≡ is_end t.now left n }
{
    left == 0 || is_bare(t, n)
}

impl Scan<'_> {
    // Whether the level of the row n is not below that from which rows are listed.
    fn from_level(&self, n: usize) -> bool
        requires { n ≤ self.now.rows.cap }
        ensures { result ≡ from_level self.now.rows.t.now self.now.from n }
    {
        self.from <= raw(self.rows.t, n, LEVEL)
    }

    // Whether the level of the row n is 0 or above.
    fn grounded(&self, n: usize) -> bool
        requires { n ≤ self.now.rows.cap }
        ensures { result ≡ leb self.now.rows.d (depth_of self.now.rows.t.now self.now.rows.d n) }
    {
        raw(self.rows.t, n, LEVEL) >= 0
    }

    // Whether the row n is of the kind of the scan. Leaves are asked for most, so their test stands first.
    #[tactic(auto, unfolding(crate::specs::ListedRows::listed_row))]
    fn is_of_kind(&self, n: usize) -> bool
        requires { n ≤ self.now.rows.cap }
        ensures { result ≡ listed_row self.now.rows.t.now self.now.rows.cap self.now.rows.d (number_of self.now.kind) n }
    {
        match self.kind {
            Kind::Leaf => leaf(self.rows.t, self.rows.cap, n),
            Kind::Patch => true,
            Kind::Cell => flag(self.rows.t, self.rows.cap, COMPLETE, n),
            Kind::HWall => flag(self.rows.t, self.rows.cap, WALL_H, n),
            Kind::VWall => flag(self.rows.t, self.rows.cap, WALL_V, n),
            Kind::Point => self.grounded(n),
        }
    }

    fn lists(&self, n: usize) -> bool
        requires { n ≤ self.now.rows.cap }
        ensures { result ≡ lists self.now n }
    {
        self.from_level(n) && self.is_of_kind(n)
    }

    // Takes the row n alone, if the scan lists it.
    fn walk_one<S: Sink>(&self, n: usize, sink: &mut S)
        requires { n ≤ self.now.rows.cap }
        ensures { S.Took sink.old (cond (lists self.now n) (n ∷ []) []) sink.new }
    {
        if self.lists(n) {
            sink.take(n as u16);
        }
    }

    // Takes the rows below the row n, so many levels down.
    fn walk_below<S: Sink>(&self, n: usize, left: u32, sink: &mut S)
        requires { (n ≤ self.now.rows.cap) × (1 ≤ left) }
        ensures { S.Took sink.old (rows_under self.now left n) sink.new }
    {
        let left = left - 1;
        for w in &self.order {
            let kid = link(self.rows.t, self.rows.cap, n, *w as usize);
            if kid != 0 {
                self.walk_one(kid, sink);
                if !is_end(self.rows.t, left, kid) {
                    self.walk_below(kid, left, sink);
                }
            }
        }
    }

    // Takes the rows from the row n on.
    fn walk<S: Sink>(&self, n: usize, left: u32, sink: &mut S)
        requires { (n ≤ self.now.rows.cap) × (1 ≤ n) }
        ensures { S.Took sink.old (rows_from self.now left n) sink.new }
    {
        self.walk_one(n, sink);
        if left != 0 {
            self.walk_below(n, left, sink);
        }
    }

    /// Writes the numbers that the scan lists from the row n on, as far as they fit; how many that are.
    pub fn write(&self, n: usize, left: u32, out: &mut [u16]) -> usize
        requires { (n ≤ self.now.rows.cap) × (1 ≤ n) }
        ensures { WroteWhatFits out.old 0 (rows_from self.now left n) out.new result }
    {
        let mut numbers = Numbers { out, at: 0 };
        self.walk(n, left, &mut numbers);
        numbers.at
    }

    /// How many numbers the scan lists from the row n on, up to the bound.
    pub fn count(&self, n: usize, left: u32, bound: usize) -> usize
        requires { (n ≤ self.now.rows.cap) × (1 ≤ n) }
        ensures { result ≡ min (length (rows_from self.now left n)) bound }
    {
        let mut count = Count { at: 0, bound };
        self.walk(n, left, &mut count);
        count.at
    }
}
