// An accepted removal.
#![tactic(auto)]

ghost use Rattle.std.specs.Prelude.{◌≡◌, ◌<◌, ◌≤◌, length};
ghost use Rattle.edit_laws.specs.Tables.{wanted_spots, at_kid, each_at, drop_untouched, emptied, dropped_near, remove_table, remove_values};
ghost use Rattle.table.specs.Plain.{Plain};
ghost use Rattle.table.specs.Words.{free_at};
ghost use Rattle.free.specs.FreeMap.{IsMapOf};
ghost use Rattle.patch.specs.NextPatches.{Stepped};
ghost use Rattle.near.specs.NearSpots.{kid_spot};

use carried::blank;
use free::map::FreeMap;
use near::spots::{put_cells, refresh_near};
use patch::patches::Patches;
use winds::{NE, NW, SE, SW};

// A patch from level 0 up that no cell touches goes.
fn drop_untouched(p: &mut Patches, n: usize)
    requires { n ≤ p.old.cap }
    ensures { Stepped (λ t cap. drop_untouched cap t n) p.old p.new }
{
    if n != 0 && !p.touched(n) {
        p.free_row(n);
    }
}

// The kid of the row n in the wind at place w of the table of winds goes if no cell touches it.
#[inline(always)]
fn drop_kid(p: &mut Patches, n: usize, w: usize)
    requires { (n ≤ p.old.cap) × (w < 4) }
    ensures { Stepped (λ t cap. at_kid (drop_untouched cap) cap (kid_spot n w) t) p.old p.new }
{
    let k = p.kid(n, w);
    drop_untouched(p, k);
}

// Of the row n all four kids, of the row north SW and SE, of the row east NW and SW, of the row north-east SW.
fn drop_near(p: &mut Patches, n: usize)
    requires { n ≤ p.old.cap }
    ensures { Stepped (λ t cap. each_at (drop_untouched cap) cap (wanted_spots t cap n) t) p.old p.new }
{
    let a = p.around(n);
    drop_kid(p, n, SW);
    drop_kid(p, n, SE);
    drop_kid(p, n, NW);
    drop_kid(p, n, NE);
    drop_kid(p, a.north, SW);
    drop_kid(p, a.north, SE);
    drop_kid(p, a.east, NW);
    drop_kid(p, a.east, SW);
    drop_kid(p, a.both, SW);
}

// Removes the kids of the row n. The map is that of the table when they are no cells, and then that of the table without the rows that go.
pub fn remove(t: &mut [i32], v: &mut [f64], cap: usize, map: &mut FreeMap, d: u32, n: usize)
    requires { Plain t.old cap × (cap < length v.old) × (n ≤ cap) × (d ≤ 32) × IsMapOf map.old (free_at (emptied t.old cap n)) }
    ensures { (t.new ≡ remove_table t.old cap d n) × (v.new ≡ remove_values t.old cap n v.old) × IsMapOf map.new (free_at (dropped_near t.old cap n)) }
{
    put_cells(t, v, cap, n, 0, blank());
    drop_near(&mut Patches { t, cap, map }, n);
    refresh_near(t, cap, d, n);
}
