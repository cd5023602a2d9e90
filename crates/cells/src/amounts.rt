// The values of rows in use.
ghost use Rattle.std.specs.Prelude.{◌≡◌, ◌≤◌, ◌<◌, length};
ghost use Rattle.checker_laws.specs.Rowwise.{blank_ok, carried_ok, held_ok, value_ok};
ghost use Rattle.readable.specs.Readable.{Readable};

use carried::values::is_finite;
use carried::{carried_at, is_blank, is_carried_down, is_measured, is_zero, same_value};
use readable::rows::Rows;
use table::flag_bits::COMPLETE;
use table::plain::{flag, link};
use table::words::PARENT;

// A blank row has the value +0, and its parent is blank if it is a cell.
#[tactic(auto, unfolding(checker_laws::specs::Rowwise::blank_ok))]
pub fn blank_ok(t: &[i32], v: &[f64], cap: usize, n: usize) -> bool
    requires { Readable t.now cap × (cap < length v.now) × (n ≤ cap) }
    ensures { result ≡ blank_ok t.now cap v.now n }
{
    if !is_zero(carried_at(t, v, n)) {
        return false;
    }
    let p = link(t, cap, n, PARENT);
    !flag(t, cap, COMPLETE, n) | is_blank(carried_at(t, v, p))
}

// A carried value is the one of the parent, which is not blank.
fn carried_ok(t: &[i32], v: &[f64], cap: usize, n: usize) -> bool
    requires { Readable t.now cap × (cap < length v.now) × (n ≤ cap) }
    ensures { result ≡ carried_ok t.now cap v.now n }
{
    let own = carried_at(t, v, n);
    let above = carried_at(t, v, link(t, cap, n, PARENT));
    is_carried_down(own) & !is_blank(above) & same_value(above, own)
}

// A row that is not blank is a cell with a finite value, measured or carried.
#[tactic(auto, unfolding(checker_laws::specs::Rowwise::held_ok))]
pub fn held_ok(t: &[i32], v: &[f64], cap: usize, n: usize) -> bool
    requires { Readable t.now cap × (cap < length v.now) × (n ≤ cap) }
    ensures { result ≡ held_ok t.now cap v.now n }
{
    if !flag(t, cap, COMPLETE, n) {
        return false;
    }
    let own = carried_at(t, v, n);
    if !is_finite(own.value) {
        return false;
    }
    if is_measured(own) {
        return true;
    }
    carried_ok(t, v, cap, n)
}

#[tactic(auto, unfolding(checker_laws::specs::Rowwise::value_ok))]
pub fn value_ok(rows: &Rows, n: usize) -> bool
    requires { (n ≤ rows.now.levels.cap) × (rows.now.levels.cap < length rows.now.v.now) }
    ensures { result ≡ value_ok rows.now.levels.t.now rows.now.levels.cap rows.now.v.now n }
{
    let levels = &rows.levels;
    if is_blank(carried_at(levels.t, rows.v, n)) {
        return blank_ok(levels.t, rows.v, levels.cap, n);
    }
    held_ok(levels.t, rows.v, levels.cap, n)
}
