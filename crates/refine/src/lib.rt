// An accepted refinement.
#![tactic(auto)]

pub mod supply;

ghost use Rattle.std.specs.Prelude.{◌≡◌, ◌+◌, ◌*◌, ◌<◌, ◌≤◌, length};
ghost use Rattle.mesh.specs.Picture.{row_words};
ghost use Rattle.table.specs.Words.{free_at};
ghost use Rattle.free.specs.FreeMap.{IsMapOf};
ghost use Rattle.edit_laws.specs.Tables.{supplied_near, refine_table, refine_values};
ghost use Rattle.patch.specs.Small.{AllSmall};
ghost use Rattle.table.specs.Plain.{Plain};

use crate::supply::supply_near;
use carried::{carried_at, passed_down};
use free::map::FreeMap;
use near::spots::{put_cells, refresh_near};
use patch::patches::Patches;

// Refines the cell n, with numbers off the map.
pub fn refine(t: &mut [i32], v: &mut [f64], cap: usize, map: &mut FreeMap, d: u32, n: usize)
    requires { Plain t.old cap × (cap < length v.old) × (n ≤ cap) × (d ≤ 32) × AllSmall 1048576 t.old cap d × (length t.old ≡ row_words * (cap + 1)) × IsMapOf map.old (free_at t.old) }
    ensures { (t.new ≡ refine_table t.old v.old cap d n) × (v.new ≡ refine_values t.old v.old cap d n) × IsMapOf map.new (free_at (supplied_near t.old cap d n)) }
{
    let c = passed_down(carried_at(t, v, n));
    supply_near(&mut Patches { t, cap, map }, d, n);
    put_cells(t, v, cap, n, 1, c);
    refresh_near(t, cap, d, n);
}
