// The patches of a table, and the numbers that are free for more.
ghost use Rattle.std.specs.Prelude.{◌≡◌, ◌<◌, ◌≤◌};
ghost use Rattle.table.specs.Plain.{Plain};
ghost use Rattle.table.specs.Words.{free_at, link_of};
ghost use Rattle.winds.specs.WindTable.{kid_l, kid_m};
ghost use Rattle.worked.specs.Around.{IsAround, Within};
ghost use Rattle.worked.specs.Worked.{kidless, touched_in};
ghost use Rattle.free.specs.FreeMap.{IsMapOf};
ghost use Rattle.edit_laws.specs.PatchSteps.{take_out};
ghost use Rattle.edit_laws.specs.Tables.{kid_at, spot};

use crate::links::take_out;
use free::map::FreeMap;
use table::plain::link;
use worked::around::{Around, rows_around};
use worked::{kidless, touched};

// A lent table of that capacity, with the map of its free numbers.
#[derive(Drop)]
pub struct Patches<'a> {
    pub t: &'a mut [i32],
    pub cap: usize,
    pub map: &'a mut FreeMap,
    pub ghost plain: { Plain t.now cap },
    pub ghost mapped: { IsMapOf map.now (free_at t.now) },
}

impl Patches<'_> {
    ghost use Rattle.patch.specs.NextPatches.{Stepped};

    // The row that the word w of the row n names, or 0.
    pub fn link(&self, n: usize, w: usize) -> usize
        requires { (n ≤ self.now.cap) × (w < 9) }
        ensures { (result ≤ self.now.cap) × (result ≡ link_of self.now.t.now self.now.cap n w) }
    {
        link(self.t, self.cap, n, w)
    }

    // The kid of the row n in the wind at place w of the table of winds, or 0.
    pub fn kid(&self, n: usize, w: usize) -> usize
        requires { (n ≤ self.now.cap) × (w < 4) }
        ensures { (result ≤ self.now.cap) × (result ≡ kid_at self.now.t.now self.now.cap (spot n (kid_l w) (kid_m w))) }
    {
        link(self.t, self.cap, n, w + 1)
    }

    // Whether the row n has no kid.
    pub fn kidless(&self, n: usize) -> bool
        requires { n ≤ self.now.cap }
        ensures { result ≡ kidless self.now.t.now self.now.cap n }
    {
        kidless(self.t, self.cap, n)
    }

    // Whether a cell touches the patch of the row n.
    pub fn touched(&self, n: usize) -> bool
        requires { n ≤ self.now.cap }
        ensures { result ≡ touched_in self.now.t.now self.now.cap n }
    {
        touched(self.t, self.cap, n)
    }

    // The rows around the row n.
    pub fn around(&self, n: usize) -> Around
        requires { n ≤ self.now.cap }
        ensures { IsAround self.now.t.now self.now.cap n result × Within self.now.cap result }
    {
        rows_around(self.t, self.cap, n)
    }

    // The row k, which has no kids, is free, and its number is given to the map.
    pub fn free_row(&mut self, k: usize)
        requires { (1 ≤ k) × (k ≤ self.old.cap) }
        ensures { Stepped (λ t cap. take_out t cap k) self.old self.new }
    {
        take_out(self.t, self.cap, k);
        self.map.give(k);
    }
}
