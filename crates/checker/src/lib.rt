// The test that a lent table is sound, row by row and by links.
#![tactic(auto)]

pub mod checks;
pub mod first_checks;

ghost use Rattle.std.specs.Prelude.{◌≡◌, true, ◌≤◌, ◌<◌, length, replicate};
ghost use Rattle.mesh.specs.LeafCounts.{count_places};
ghost use Rattle.header.specs.Headers.{header_of};
ghost use Rattle.checker_laws.specs.Rowwise.{used_ok, row_ok, rowwise};
ghost use Rattle.tally.specs.TallyRows.{row_counts};

use cells::amounts::value_ok;
use cells::empty::{empty_ok, zero_ok};
use cells::kind_ok;
use readable::rows::Rows;
use table::words::is_free;
use tally::full::count_row;
use tree::family::{kids_ok, place_ok};
use tree::sides::sides_ok;

// A row in use.
#[tactic(auto, unfolding(checker_laws::specs::Rowwise::used_ok))]
fn used_ok(rows: &Rows, n: usize) -> bool
    requires { (n ≤ rows.now.levels.cap) × (rows.now.levels.cap < length rows.now.v.now) }
    ensures { result ≡ used_ok (header_of rows.now.header).grid rows.now.levels.t.now rows.now.levels.cap rows.now.v.now n }
{
    if !place_ok(rows, n) {
        return false;
    }
    if !sides_ok(rows, n) {
        return false;
    }
    if !kids_ok(rows, n) {
        return false;
    }
    if !kind_ok(rows, n) {
        return false;
    }
    value_ok(rows, n)
}

#[tactic(auto, unfolding(checker_laws::specs::Rowwise::row_ok))]
fn row_ok(rows: &Rows, n: usize) -> bool
    requires { (n ≤ rows.now.levels.cap) × (rows.now.levels.cap < length rows.now.v.now) }
    ensures { result ≡ row_ok (header_of rows.now.header).grid rows.now.levels.t.now rows.now.levels.cap rows.now.v.now n }
{
    let t = rows.levels.t;
    if is_free(t, n) {
        empty_ok(t, rows.v, n)
    } else {
        used_ok(rows, n)
    }
}

// The nil patch, the root in use, and every row. The leaves are counted on the way: each row is read once for both.
#[tactic(auto, unfolding(checker_laws::specs::Rowwise::rowwise))]
pub fn rowwise(rows: &Rows, c: &mut [u32]) -> bool
    requires { (rows.now.levels.cap < length rows.now.v.now) × (c.old ≡ replicate count_places 0) }
    ensures { (result ≡ rowwise (header_of rows.now.header).grid rows.now.levels.t.now rows.now.levels.cap rows.now.v.now) × (result ≡ true → c.new ≡ row_counts rows.now.levels.t.now rows.now.v.now rows.now.levels.cap rows.now.levels.cap) }
{
    if !zero_ok(rows) {
        return false;
    }
    let levels = &rows.levels;
    if is_free(levels.t, 1) {
        return false;
    }
    for n in 1..=levels.cap {
        if !row_ok(rows, n) {
            return false;
        }
        count_row(levels.t, rows.v, c, levels.cap, n);
    }
    true
}
