// The rows of level 0: their cells, and their flags.
ghost use Rattle.std.specs.Prelude.{◌≡◌, ◌+◌, ◌-◌, ◌*◌, ◌≤◌, length};
ghost use Rattle.header.specs.Headers.{header_of};
ghost use Rattle.mesh.specs.Picture.{row_words};
ghost use Rattle.edit_laws.specs.Built.{each_row, ground_row};
ghost use Rattle.table.specs.Plain.{Plain};

use anew::pass::Pass;
use header::{Header, has_cell};
use table::words::{FLAGS, INDEX_I, INDEX_J, word};
use table::writes::put;

// The row n is a cell, if the rectangle has it.
fn put_cell(t: &mut [i32], header: Header, n: usize)
    requires { n * row_words + row_words ≤ length t.old }
    ensures { t.new ≡ ground_row (header_of header).grid t.old n }
{
    let i = word(t, n, INDEX_I);
    let j = word(t, n, INDEX_J);
    if has_cell(header, i, j) {
        put(t, n, FLAGS, 1);
    }
}

// The rows from a up to b that the rectangle has are cells.
pub fn put_ground(t: &mut [i32], header: Header, a: usize, b: usize)
    requires { (b * row_words ≤ length t.old) × (a ≤ b) }
    ensures { t.new ≡ each_row (ground_row (header_of header).grid) (b - a) a t.old }
{
    for n in a..b {
        put_cell(t, header, n);
    }
}

// Of the rows from a up to b, what a pass works out anew.
pub fn pass_rows<P: Pass>(t: &mut [i32], cap: usize, pass: P, a: usize, b: usize)
    requires { Plain t.old cap × (a ≤ b) × (b ≤ cap + 1) }
    ensures { (t.new ≡ each_row (P.step pass cap) (b - a) a t.old) × Plain t.new cap }
{
    for n in a..b {
        pass.row(t, cap, n);
    }
}
