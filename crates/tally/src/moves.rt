// What an accepted request moves in the counts, by the rows as they are before it.
ghost use Rattle.std.specs.Prelude.{◌≡◌, ◌+◌, ◌<◌, ◌≤◌, length, get_or};
ghost use Rattle.mesh.specs.Picture.{level_word};
ghost use Rattle.table.specs.Plain.{Plain};
ghost use Rattle.table.specs.Words.{word_of, link_of};
ghost use Rattle.carried.specs.Carried.{carried_of, measured_as, passed_down};
ghost use Rattle.tally.specs.CountSteps.{less, Movable, moved};
ghost use Rattle.tally.specs.TallyRows.{place_for, row_place, Placed, LevelBelow, KidsPlaced, refined_move, removed_move, killed_move, measured_move};

use crate::{add, level, place, row_place, take};
use carried::{carried_at, measured, passed_down};
use table::plain::link;
use table::words::{NE_KID, NW_KID, SE_KID, SW_KID};

/// The rows of a table of that capacity with their values.
#[derive(Clone, Copy)]
pub struct Rows<'t, 'v> {
    pub t: &'t [i32],
    pub v: &'v [f64],
    pub cap: usize,
    pub ghost plain: { Plain t.now cap },
    pub ghost all_valued: { cap < length v.now },
}

impl Rows<'_, '_> {
    fn place_of(&self, n: usize) -> usize
        requires { (n ≤ self.now.cap) × Placed self.now.t.now self.now.v.now n }
        ensures { result ≡ row_place self.now.t.now self.now.v.now n }
    {
        row_place(self.t, self.v, self.cap, n)
    }

    // The place of the kids that the leaf n is to have.
    fn kid_place(&self, n: usize) -> usize
        requires { (n ≤ self.now.cap) × LevelBelow self.now.t.now n }
        ensures { result ≡ place_for (word_of self.now.t.now n level_word + 1) (passed_down (carried_of self.now.t.now self.now.v.now n)) }
    {
        place(
            level(self.t, self.cap, n) + 1,
            passed_down(carried_at(self.t, self.v, n)),
        )
    }

    // The place of the leaf n once x is its value.
    fn value_place(&self, n: usize, x: f64) -> usize
        requires { (n ≤ self.now.cap) × (word_of self.now.t.now n level_word ≤ 12) }
        ensures { result ≡ place_for (word_of self.now.t.now n level_word) (measured_as x) }
    {
        place(level(self.t, self.cap, n), measured(x))
    }

    // The leaf n gives way to four kids, one level up.
    pub fn refined(&self, c: &mut [u32], n: usize)
        requires { (n ≤ self.now.cap) × Placed self.now.t.now self.now.v.now n × LevelBelow self.now.t.now n × Movable c.old (refined_move self.now.t.now self.now.v.now n) }
        ensures { c.new ≡ moved c.old (refined_move self.now.t.now self.now.v.now n) }
    {
        add(c, self.kid_place(n), 4);
        take(c, self.place_of(n));
    }

    // The kid that the word w of the row n names goes.
    fn take_kid(&self, c: &mut [u32], n: usize, w: usize)
        requires { (n ≤ self.now.cap) × (1 ≤ w) × (w ≤ 4) × KidsPlaced self.now.t.now self.now.v.now self.now.cap n × (1 ≤ get_or c.old (row_place self.now.t.now self.now.v.now (link_of self.now.t.now self.now.cap n w)) 0) }
        ensures { c.new ≡ less c.old (row_place self.now.t.now self.now.v.now (link_of self.now.t.now self.now.cap n w)) }
    {
        take(c, self.place_of(link(self.t, self.cap, n, w)));
    }

    // The four kids of the row n give way to it.
    pub fn removed(&self, c: &mut [u32], n: usize)
        requires { (n ≤ self.now.cap) × Placed self.now.t.now self.now.v.now n × KidsPlaced self.now.t.now self.now.v.now self.now.cap n × Movable c.old (removed_move self.now.t.now self.now.v.now self.now.cap n) }
        ensures { c.new ≡ moved c.old (removed_move self.now.t.now self.now.v.now self.now.cap n) }
    {
        add(c, self.place_of(n), 1);
        self.take_kid(c, n, NE_KID);
        self.take_kid(c, n, SE_KID);
        self.take_kid(c, n, SW_KID);
        self.take_kid(c, n, NW_KID);
    }

    // The leaf n goes.
    pub fn killed(&self, c: &mut [u32], n: usize)
        requires { (n ≤ self.now.cap) × Placed self.now.t.now self.now.v.now n × Movable c.old (killed_move self.now.t.now self.now.v.now n) }
        ensures { c.new ≡ moved c.old (killed_move self.now.t.now self.now.v.now n) }
    {
        take(c, self.place_of(n));
    }

    // The leaf n gets a value: a leaf more that is measured, before there is one less, for it may have been measured.
    pub fn valued(&self, c: &mut [u32], n: usize, x: f64)
        requires { (n ≤ self.now.cap) × Placed self.now.t.now self.now.v.now n × Movable c.old (measured_move self.now.t.now self.now.v.now n x) }
        ensures { c.new ≡ moved c.old (measured_move self.now.t.now self.now.v.now n x) }
    {
        add(c, self.value_place(n, x), 1);
        take(c, self.place_of(n));
    }
}
