// Lookup over the rows of a table: the leaf that holds a point, or one it is tried again at, and its value.
#![tactic(auto)]

ghost use Rattle.std.specs.Prelude.{◌≡◌, ◌<◌, ◌≤◌, length};
ghost use Rattle.carried.specs.Carried.{value_carried};
ghost use Rattle.mesh.specs.State.{status, amount};
ghost use Rattle.mesh.specs.Lookup as Lookup;
ghost use Rattle.mesh.specs.Lookup.{tried};
ghost use Rattle.header.specs.Headers.{header_of};
ghost use Rattle.lookup.specs.LookupRows.{value_of_reading, found_of, row_lookup_out};
ghost use Rattle.lookup.specs.TreeLeaves.{kid_toward, leaf_holding, leaf_found, leaf_looked_up};
ghost use Rattle.walk.specs.Walkable.{Walkable};

mod trees;

use answer::{Refusal, refuse_if};
use carried::{Carried, carried_at, is_blank, is_measured};
use header::{Header, is_ring};
use table::plain;
use trees::Tree;
use walk::checked::Rows;
use walk::leaf;
use worked::kid_word;

// Whether a load, in 1/4096 of a level-0 cell, lies past the last row of a ring.
fn beyond(header: Header, load: u32) -> bool
    ensures { result ≡ Lookup.beyond (header_of header).grid load }
{
    is_ring(header) & (header.rows <= load / 4096)
}

impl Tree<'_> {
    // The kid of the row n by the digits of u and v at the place l.
    fn toward(&self, n: usize, l: u32, u: u32, v: u32) -> usize
        requires { (n ≤ self.now.rows.cap) × (l < 32) }
        ensures { (result ≤ self.now.rows.cap) × (result ≡ kid_toward self.now n l u v) }
    {
        plain::link(
            self.rows.t,
            self.rows.cap,
            n,
            kid_word((u >> l) % 2, (v >> l) % 2),
        )
    }

    // The leaf that holds a point, or 0: down from the root, each kid by the next digits of the two coordinates. From row 0 every way leads to row 0.
    fn leaf_at(&self, u: u32, v: u32) -> usize
        ensures { (result ≤ self.now.rows.cap) × (result ≡ leaf_holding self.now u v) }
    {
        let e = self.rows.d + 12;
        if u >> e != 0 {
            return 0;
        }
        if v >> e != 0 {
            return 0;
        }
        let mut l = e;
        let mut n = 1;
        while !leaf(self.rows.t, self.rows.cap, n) {
            if l == 0 {
                return 0;
            }
            l -= 1;
            n = self.toward(n, l, u, v);
        }
        n
    }

    // The leaf so many units to the left and down of a point, or 0: a try below 0 is skipped.
    fn try_at(&self, u: u32, v: u32, left: u32, down: u32) -> usize
        ensures { (result ≤ self.now.rows.cap) × (result ≡ tried (leaf_holding self.now) u v (left, down)) }
    {
        if u < left {
            return 0;
        }
        if v < down {
            return 0;
        }
        self.leaf_at(u - left, v - down)
    }

    // The leaf that the tries find, or 0: where one holds the point nothing else is tried.
    fn found_row(&self, u: u32, v: u32) -> usize
        ensures { (result ≤ self.now.rows.cap) × (result ≡ leaf_found self.now u v) }
    {
        let own = self.leaf_at(u, v);
        if own != 0 {
            return own;
        }
        let left = self.try_at(u, v, 1, 0);
        if left != 0 {
            return left;
        }
        let below = self.try_at(u, v, 0, 1);
        if below != 0 {
            return below;
        }
        self.try_at(u, v, 1, 1)
    }

    // The leaf that a lookup finds, or 0.
    fn lookup_row(&self, header: Header, u: u32, v: u32) -> usize
        ensures { (result ≤ self.now.rows.cap) × (result ≡ leaf_looked_up (header_of header).grid self.now u v) }
    {
        if beyond(header, v) {
            return 0;
        }
        self.found_row(u, v)
    }
}

// A leaf's value, as measured, as carried down from its parent, or none.
#[derive(Clone, Copy)]
pub enum Reading {
    Measured(f64),
    Carried(f64),
    Blank,
}

// The leaf that a lookup finds: its number, and its value.
#[derive(Clone, Copy)]
pub struct Leaf {
    pub number: u32,
    pub reading: Reading,
}

impl Leaf {
    // "number 0 and blank": what is told where none is found.
    pub const NONE: Leaf = Leaf {
        number: 0,
        reading: Reading::Blank,
    };
}

// The value that is carried, by its status.
fn value_of(c: Carried) -> Reading
    ensures { value_of_reading result ≡ value_carried c }
{
    if is_blank(c) {
        return Reading::Blank;
    }
    if is_measured(c) {
        return Reading::Measured(c.value);
    }
    Reading::Carried(c.value)
}

impl Reading {
    // "Status: 0 blank, 1 measured, 2 carried down from the parent."
    pub fn status(self) -> u32
        ensures { result ≡ status (value_of_reading self) }
    {
        match self {
            Reading::Measured(_) => 1,
            Reading::Carried(_) => 2,
            Reading::Blank => 0,
        }
    }

    // "Status 0 has the bits of +0."
    pub fn amount(self) -> f64
        ensures { result ≡ amount (value_of_reading self) }
    {
        match self {
            Reading::Measured(x) => x,
            Reading::Carried(x) => x,
            Reading::Blank => 0.0,
        }
    }
}

// The leaf that a lookup finds, and its value.
pub fn lookup_out(
    header: Header,
    t: &[i32],
    v: &[f64],
    cap: usize,
    d: u32,
    x: u32,
    y: u32,
) -> Result<Leaf, Refusal>
    requires { Walkable t.now cap d × (cap < length v.now) × (1 ≤ cap) × (d ≤ 19) }
    ensures { found_of result ≡ row_lookup_out (header_of header).grid t.now v.now cap d x y }
{
    let rows = Rows { t, cap, d };
    let tree = Tree { rows };
    let n = tree.lookup_row(header, x, y);
    refuse_if(n == 0, Refusal::NotFound)?;
    Ok(Leaf {
        number: n as u32,
        reading: value_of(carried_at(t, v, n)),
    })
}
