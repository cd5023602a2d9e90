// A table without a patch, and with the root alone.
ghost use Rattle.std.specs.Prelude.{◌≡◌, ◌+◌, ◌*◌, ◌≤◌, length};
ghost use Rattle.mesh.specs.Picture.{row_words};
ghost use Rattle.edit_laws.specs.Built.{empty_table, root_table};

use table::words::FLAGS;
use table::writes::{clear_row, nil_row, put, put_level};

// Row 0, and every other row free.
fn empty_table(t: &mut [i32], cap: usize)
    requires { (length t.old ≡ (cap + 1) * row_words) × (cap ≤ 4095) }
    ensures { t.new ≡ empty_table cap }
{
    nil_row(t, 0);
    for n in 0..cap {
        clear_row(t, n + 1);
    }
}

// The root under number 1.
pub fn root_table(t: &mut [i32], cap: usize, d: u32)
    requires { (length t.old ≡ (cap + 1) * row_words) × (1 ≤ cap) × (cap ≤ 4095) × (d ≤ 32) }
    ensures { t.new ≡ root_table cap d }
{
    empty_table(t, cap);
    put_level(t, 1, 0, d);
    put(t, 1, FLAGS, 0);
}
