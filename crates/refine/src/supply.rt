// The patches that the kids of a refined cell want, with the smallest free numbers in turn.
ghost use Rattle.std.specs.Prelude.{◌≡◌, ◌+◌, ◌*◌, ◌<◌, ◌≤◌, length};
ghost use Rattle.mesh.specs.Picture.{row_words};
ghost use Rattle.edit_laws.specs.Tables.{supplied, supplied_near};
ghost use Rattle.patch.specs.NextPatches.{Stepped};
ghost use Rattle.patch.specs.Small.{AllSmall, Doubled};
ghost use Rattle.near.specs.NearSpots.{kid_spot};

use patch::links::link_in;
use patch::patches::Patches;
use winds::{NE, NW, SE, SW, kid_digits};

// Links in the kid of the row n in the wind at place w of the table of winds under the next free number, unless it is there or no number is free.
// Unfolded at each of its nine places, where w is known and the struct needs no memory.
#[inline(always)]
fn supply(p: &mut Patches, d: u32, n: usize, w: usize)
    requires { (n ≤ p.old.cap) × (d ≤ 32) × (w < 4) × AllSmall 1073741824 p.old.t.now p.old.cap d × (length p.old.t.now ≡ row_words * (p.old.cap + 1)) }
    ensures { Stepped (λ t cap. supplied cap d (kid_spot n w) t) p.old p.new × Doubled p.old.t.now p.new.t.now p.old.cap d }
{
    if p.kid(n, w) != 0 {
        return;
    }
    let k = p.map.next();
    if k == 0 {
        return;
    }
    let e = kid_digits(w);
    link_in(p.t, p.cap, d, n, e.l, e.m, k);
    p.map.take(k);
}

// Of the row n all four kids, of the row north SW and SE, of the row east NW and SW, of the row north-east SW.
pub fn supply_near(p: &mut Patches, d: u32, n: usize)
    requires { (n ≤ p.old.cap) × (d ≤ 32) × AllSmall 1048576 p.old.t.now p.old.cap d × (length p.old.t.now ≡ row_words * (p.old.cap + 1)) }
    ensures { Stepped (λ t cap. supplied_near t cap d n) p.old p.new }
{
    let a = p.around(n);
    supply(p, d, n, SW);
    supply(p, d, n, SE);
    supply(p, d, n, NW);
    supply(p, d, n, NE);
    supply(p, d, a.north, SW);
    supply(p, d, a.north, SE);
    supply(p, d, a.east, NW);
    supply(p, d, a.east, SW);
    supply(p, d, a.both, SW);
}
