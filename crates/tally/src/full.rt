// All the counts of a table: those of a build, those of the rows one after the other, and whether two lists agree.
ghost use Rattle.std.specs.Prelude.{◌≡◌, true, ◌<◌, ◌≤◌, eqb, length};
ghost use Rattle.mesh.specs.Tools.{same_list};
ghost use Rattle.mesh.specs.LeafCounts.{count_places};
ghost use Rattle.table.specs.Plain.{Plain};
ghost use Rattle.walk.specs.WalkRows.{leaf_row};
ghost use Rattle.tally.specs.TallyRows.{Placed, built_counts, with_row, Roomy};

use crate::{COUNT_PLACES, add, row_place};

// The counts of a build: so many blank leaves on level 0, and no other.
pub fn put_built(c: &mut [u32], cells: u32)
    requires { length c.old ≡ count_places }
    ensures { c.new ≡ built_counts cells }
{
    c.fill(0);
    c[0] = cells;
}

// Counts the row n, if it is a leaf.
pub fn count_row(t: &[i32], v: &[f64], c: &mut [u32], cap: usize, n: usize)
    requires { Plain t.now cap × (cap < length v.now) × (n ≤ cap) × (leaf_row t.now cap n ≡ true → Placed t.now v.now n) × Roomy c.old }
    ensures { c.new ≡ with_row t.now v.now cap c.old n }
{
    if walk::leaf(t, cap, n) {
        add(c, row_place(t, v, cap, n), 1);
    }
}

// Whether two lists of counts are the same.
pub fn agree(a: &[u32], b: &[u32]) -> bool
    ensures { result ≡ same_list eqb a.now b.now }
{
    a == b
}
