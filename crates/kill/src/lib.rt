// What an accepted kill does to a lent table and its values.
#![tactic(auto)]

ghost use Rattle.std.specs.Prelude.{◌≡◌, ◌+◌, ◌*◌, ◌<◌, ◌≤◌, length};
ghost use Rattle.mesh.specs.Picture.{row_words};
ghost use Rattle.table.specs.Words.{free_at};
ghost use Rattle.table.specs.Plain.{Plain};
ghost use Rattle.free.specs.FreeMap.{IsMapOf};
ghost use Rattle.edit_laws.specs.Tables.{drop_up, drop_corner, cleared, dropped_corners, still_used, kill_table, kill_values};
ghost use Rattle.patch.specs.NextPatches.{Stepped};
ghost use Rattle.border.specs.Borders.{Within, border_of};
ghost use Rattle.kill.specs.KilledCell.{corners_gone, still_border};

use border::{Border, refresh_levels};
use carried::{blank, put_carried};
use free::map::FreeMap;
use patch::patches::Patches;
use table::flag_bits::FREE;
use table::words::{FLAGS, PARENT, word};
use table::writes::put;
use worked::around::{Around, rows_around};

// A ghost without a kid goes, and then its parent if that has none left, up to so many levels.
fn drop_up(p: &mut Patches, levels: u32, n: usize)
    requires { n ≤ p.old.cap }
    ensures { Stepped (λ t cap. drop_up levels t cap n) p.old p.new }
{
    let mut k = n;
    for _level in 0..levels {
        if k == 0 || !p.kidless(k) {
            return;
        }
        let above = p.link(k, PARENT);
        p.free_row(k);
        k = above;
    }
}

// A corner of the killed cell that no cell touches goes, and the ghosts above it that have no kid left.
#[tactic(auto, using(patch::proofs::StepsInTurn::step_then), unfolding(edit_laws::specs::Tables::drop_corner))]
fn drop_corner(p: &mut Patches, d: u32, n: usize)
    requires { n ≤ p.old.cap }
    ensures { Stepped (λ t cap. drop_corner t cap d n) p.old p.new }
{
    if n != 0 && !p.touched(n) {
        let above = p.link(n, PARENT);
        p.free_row(n);
        drop_up(p, d, above);
    }
}

// The row n, or 0 if it is free.
fn still_used(t: &[i32], n: usize) -> usize
    requires { n * row_words + row_words ≤ length t.now }
    ensures { (result ≤ n) × (result ≡ still_used t.now n) }
{
    if word(t, n, FLAGS) == FREE { 0 } else { n }
}

// The border b without the rows that are free. South and west of a killed cell nothing goes.
fn still_border(t: &[i32], cap: usize, b: Border) -> Border
    requires { Plain t.now cap × Within cap b }
    ensures { Within cap result × (border_of result ≡ still_border t.now (border_of b)) }
{
    let a = b.around;
    Border {
        own: still_used(t, b.own),
        around: Around {
            north: still_used(t, a.north),
            east: still_used(t, a.east),
            both: still_used(t, a.both),
            ..a
        },
    }
}

// Of the corners of the cell whose border is b those go that no cell touches.
fn drop_corners(p: &mut Patches, d: u32, b: Border)
    requires { Within p.old.cap b }
    ensures { Stepped (λ t cap. corners_gone t cap d (border_of b)) p.old p.new }
{
    drop_corner(p, d, b.around.both);
    drop_corner(p, d, b.around.north);
    drop_corner(p, d, b.around.east);
    drop_corner(p, d, b.own);
}

// Kills the cell n. The map is that of the table when it is no cell, and then that of the table without the rows that go.
pub fn kill(t: &mut [i32], v: &mut [f64], cap: usize, map: &mut FreeMap, d: u32, n: usize)
    requires { Plain t.old cap × (cap < length v.old) × (n ≤ cap) × (d ≤ 32) × IsMapOf map.old (free_at (cleared t.old n)) }
    ensures { (t.new ≡ kill_table t.old cap d n) × (v.new ≡ kill_values n v.old) × IsMapOf map.new (free_at (dropped_corners t.old cap d n)) }
{
    let b = Border {
        own: n,
        around: rows_around(t, cap, n),
    };
    put(t, n, FLAGS, 0);
    put_carried(t, v, n, blank());
    drop_corners(&mut Patches { t, cap, map }, d, b);
    let still = still_border(t, cap, b);
    refresh_levels(t, cap, d, still);
}
