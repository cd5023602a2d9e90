// The leaves of a table, in the order of the page.
#![tactic(auto)]

ghost use Rattle.std.specs.Prelude.{◌≤◌, length};
ghost use Rattle.table.specs.Plain.{Sized};
ghost use Rattle.leaves.specs.LeavesFrom.{own_leaf, leaves_from};
ghost use Rattle.leaves.specs.Founds.{HasRoom, FoundAlso};

use table::words::{NE_KID, NW_KID, SE_KID, SW_KID, link};

/// The rows that were found, in a lent list.
#[derive(Drop)]
pub struct Found<'a> {
    pub rows: &'a mut [u16],
    pub count: usize,
}

// Adds the row n, if it is a leaf.
fn add_own(t: &[i32], cap: usize, n: usize, found: &mut Found)
    requires { Sized t.now cap × (n ≤ cap) × HasRoom found.old (length (own_leaf t.now cap n)) }
    ensures { FoundAlso found.old (own_leaf t.now cap n) found.new }
{
    if walk::leaf_row(t, cap, n) {
        found.rows[found.count] = n as u16;
        found.count += 1;
    }
}

/// Finds the leaves from the row n on, l levels down, in the order SW, NW, SE, NE.
pub fn find_leaves(t: &[i32], cap: usize, l: usize, n: usize, found: &mut Found)
    requires { Sized t.now cap × (n ≤ cap) × HasRoom found.old (length (leaves_from t.now cap l n)) }
    ensures { FoundAlso found.old (leaves_from t.now cap l n) found.new }
{
    if n == 0 {
        return;
    }
    add_own(t, cap, n, found);
    if l == 0 || walk::is_bare(t, n) {
        return;
    }
    for w in [SW_KID, NW_KID, SE_KID, NE_KID] {
        find_leaves(t, cap, l - 1, link(t, cap, n, w), found);
    }
}
